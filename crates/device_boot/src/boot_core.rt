// Translated from tinyboot, lib/core/src/core.rs (MIT OR Apache-2.0); changed: the decision alone, over a lent flash and record.

ghost use Rattle.std.specs.Prelude.{◌≡◌};
ghost use Rattle.device_boot.specs.Start.{valid_of, tried_of, cleared_of, clears, start_of, decided};
ghost use Rattle.wire_numbers.specs.Names.{mode_number};

use store_flash::cells::first;
use store_record::traits::BootState;
use store_record::{boot_meta_store, traits};
use wire_numbers::{RunMode, crc};

// Whether the image may run. The CRC covers the stored size only, not the whole flash. With no CRC stored a careful start does not look for an app: an erased
// record is no more than a rewrite that was cut.
#[tactic(auto, unfolding(crate::specs::Start::valid_of))]
fn validate_app(careful: bool, capacity: usize, flash: &[u8], meta: &[u8]) -> bool
    ensures { result ≡ valid_of careful capacity flash.now meta.now }
{
    let stored = boot_meta_store::app_checksum(meta);
    if stored == 0xFFFF {
        return !careful && traits::app_present(flash);
    }
    let size = boot_meta_store::app_size(meta) as usize;
    size <= capacity && crc::crc16(crc::CRC_INIT, first(flash, size)) == stored
}

// A trial is used where one is left; whether one was.
#[tactic(auto, unfolding(crate::specs::Start::tried_of))]
fn use_trial(meta: &mut [u8]) -> bool
    ensures { clears result meta.new ≡ tried_of meta.old }
{
    if boot_meta_store::has_trials(meta) {
        boot_meta_store::consume_trial(meta);
        return true;
    }
    false
}

// Whether the record lets a start go on to the image: an answer for each state, and the third uses a trial.
#[tactic(auto, unfolding(crate::specs::Start::cleared_of))]
fn cleared(meta: &mut [u8]) -> bool
    ensures { clears result meta.new ≡ cleared_of meta.old }
{
    let state = boot_meta_store::boot_state(meta);
    match state {
        BootState::Idle => true,
        BootState::Updating => false,
        BootState::Validating => use_trial(meta),
    }
}

// What a start decides. Of the record nothing but the trials byte changes.
#[tactic(auto, unfolding(crate::specs::Start::start_of))]
pub fn check_boot_state(
    careful: bool,
    capacity: usize,
    mode: RunMode,
    flash: &[u8],
    meta: &mut [u8],
) -> RunMode
    ensures { decided result meta.new ≡ start_of careful capacity (mode_number mode) flash.now meta.old }
{
    if mode == RunMode::Service {
        return RunMode::Service;
    }
    if cleared(meta) && validate_app(careful, capacity, flash, meta) {
        return RunMode::HandOff;
    }
    RunMode::Service
}
