// The flash, lent as an array, where tinyboot has a chip behind a trait; and single bytes of whatever is lent.

#![tactic(auto)]

pub mod cells;
pub mod storage;
