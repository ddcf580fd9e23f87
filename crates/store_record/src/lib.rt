// The platform: the record, lent as an array, and what is read off it and the flash, where tinyboot has a chip behind traits.

#![tactic(auto)]

pub mod boot_meta_store;
pub mod rewrite;
pub mod traits;
