// Translated from tinyboot, lib/protocol/src (MIT OR Apache-2.0): its modules frame and sync, apart from the reading, from `send` and from the numbers that
// they are made of.

#![tactic(auto)]

pub mod fields;
pub mod frame;
pub mod sync;
