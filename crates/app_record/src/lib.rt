// Translated from tinyboot, lib/core/src/app.rs (MIT OR Apache-2.0): `confirm`, `baud`, `set_baud`, `store_baud`; changed: the record is lent, and what is
// no record is refused.

#![tactic(auto)]

ghost use Rattle.std.specs.Prelude.{◌≡◌, length, eqb, is_ok};
ghost use Rattle.wire_rates.specs.Baud.{baud_index};
ghost use Rattle.app_record.specs.Changes.{stored_number, leaves, confirm_of, baud_stored};
ghost use Rattle.app_record.specs.Reads.{rate_told, position_told, rate_of, place_of};

use store_record::boot_meta_store;
use store_record::rewrite::RECORD;
use store_record::traits::BootState;
use wire_rates::BaudRate;

// What became of a record: there was nothing to do, and no step of a rewrite was taken; or it is rewritten.
#[derive(Clone, Copy, Debug, PartialEq, Eq)]
pub enum Change {
    Nothing,
    Written,
}

// What was lent is no record.
#[derive(Clone, Copy, Debug, PartialEq, Eq)]
pub struct BadRecord;

// A change's answer by its number.
pub fn stored_number(stored: Result<Change, BadRecord>) -> u8
    ensures { result ≡ stored_number stored }
{
    match stored {
        Ok(Change::Nothing) => 0,
        Ok(Change::Written) => 1,
        Err(BadRecord) => 13,
    }
}

// Whether there is a record: it has twelve bytes.
fn check_record(meta: &[u8]) -> Result<(), BadRecord>
    ensures { is_ok result ≡ eqb (length meta.now) 12 }
{
    if meta.len() == RECORD {
        Ok(())
    } else {
        Err(BadRecord)
    }
}

// The app on trial stays: Validating becomes Idle. In any other state there is nothing to confirm.
#[tactic(auto, unfolding(crate::specs::Changes::confirm_of))]
pub fn confirm(meta: &mut [u8]) -> Result<Change, BadRecord>
    ensures { leaves (stored_number result) meta.new ≡ confirm_of meta.old }
{
    check_record(meta)?;
    if boot_meta_store::boot_state(meta) != BootState::Validating {
        return Ok(Change::Nothing);
    }
    let checksum = boot_meta_store::app_checksum(meta);
    let size = boot_meta_store::app_size(meta);
    boot_meta_store::refresh(meta, checksum, BootState::Idle, size);
    Ok(Change::Written)
}

// The byte is stored unchecked, for the bootloader to use from the next reset on. One that is stored already is not written again.
#[tactic(auto, unfolding(crate::specs::Changes::baud_stored))]
pub fn store_baud(meta: &mut [u8], baud: u8) -> Result<Change, BadRecord>
    ensures { leaves (stored_number result) meta.new ≡ baud_stored meta.old baud }
{
    check_record(meta)?;
    if boot_meta_store::baud(meta) == baud {
        return Ok(Change::Nothing);
    }
    let position = boot_meta_store::position(meta);
    boot_meta_store::set_row(meta, baud, position);
    Ok(Change::Written)
}

pub fn set_baud(meta: &mut [u8], rate: BaudRate) -> Result<Change, BadRecord>
    ensures { leaves (stored_number result) meta.new ≡ baud_stored meta.old (baud_index rate) }
{
    store_baud(meta, rate.to_u8())
}

// The rate that the bootloader listens at; `default` is its build's own.
#[tactic(auto, unfolding(crate::specs::Reads::rate_of))]
pub fn baud(meta: &[u8], default: BaudRate) -> Result<BaudRate, BadRecord>
    ensures { rate_told result ≡ rate_of meta.now (baud_index default) }
{
    check_record(meta)?;
    Ok(store_rate::baud(meta, default))
}

// The place in the row, 0xFF for none.
#[tactic(auto, unfolding(crate::specs::Reads::place_of))]
pub fn position(meta: &[u8]) -> Result<u8, BadRecord>
    ensures { position_told result ≡ place_of meta.now }
{
    check_record(meta)?;
    Ok(boot_meta_store::position(meta))
}
