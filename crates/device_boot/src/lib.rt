// Translated from tinyboot, lib/core/src/lib.rs (MIT OR Apache-2.0); changed.

#![tactic(auto)]

pub mod boot_core;
