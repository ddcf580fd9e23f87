// No code: what the desk writes a device reads, and what a device replies the desk reads.

#![tactic(auto)]
