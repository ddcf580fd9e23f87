// Will a start stay, from the record alone. Ours: the Rust has no such call. It is for who shows early what a module will do, where the flash takes
// long to read.

#![tactic(auto)]

ghost use Rattle.std.specs.Prelude.{◌≡◌, ◌&&◌, eqb};
ghost use Rattle.wire_numbers.specs.Names.{mode_number};
ghost use Rattle.store_record.specs.Record.{validating, trials_of};
ghost use Rattle.device_early.specs.Early.{sizeless, record_stays, stays, outlook_number, early_of};

use device_state::{CAREFUL, Setup, refusal};
use store_record::boot_meta_store;
use store_record::rewrite::RECORD;
use store_record::traits::BootState;
use wire_numbers::RunMode;

// The early answer. `ReadsOn` promises nothing: the start reads the flash, and may stay after all.
#[derive(Clone, Copy, Debug, PartialEq, Eq)]
pub enum Outlook {
    ReadsOn,
    Stays,
}

// Its refusals: two of the six are all it has.
#[derive(Clone, Copy, Debug, PartialEq, Eq)]
pub enum EarlyError {
    BadSetup,
    BadRecord,
}

// The answer by its number; a refusal has the start's.
pub fn outlook_number(outlook: Result<Outlook, EarlyError>) -> u8
    ensures { result ≡ outlook_number outlook }
{
    match outlook {
        Ok(Outlook::ReadsOn) => 0,
        Ok(Outlook::Stays) => 1,
        Err(EarlyError::BadSetup) => 10,
        Err(EarlyError::BadRecord) => 13,
    }
}

// Whether the trials of an image that waits for its confirmation are used up.
fn is_spent(meta: &[u8]) -> bool
    ensures { result ≡ (validating meta.now && eqb (trials_of meta.now) 0) }
{
    boot_meta_store::boot_state(meta) == BootState::Validating && !boot_meta_store::has_trials(meta)
}

// Whether the size stored is no image's of this module.
pub fn is_sizeless(capacity: usize, meta: &[u8]) -> bool
    ensures { result ≡ sizeless capacity meta.now }
{
    let size = boot_meta_store::app_size(meta) as usize;
    size == 0 || capacity < size
}

// What the record says of any flash, case by case as the definition has them.
#[tactic(auto, unfolding(crate::specs::Early::record_stays))]
fn record_stays(careful: bool, capacity: usize, meta: &[u8]) -> bool
    ensures { result ≡ record_stays careful capacity meta.now }
{
    if boot_meta_store::is_updating(meta) || is_spent(meta) {
        return true;
    }
    if boot_meta_store::app_checksum(meta) == 0xFFFF {
        return careful;
    }
    is_sizeless(capacity, meta)
}

fn is_staying(mode: RunMode, careful: bool, capacity: usize, meta: &[u8]) -> bool
    ensures { result ≡ stays careful capacity (mode_number mode) meta.now }
{
    mode == RunMode::Service || record_stays(careful, capacity, meta)
}

// Whether a start that asks for this mode will stay, as far as the record tells: no trial is used, and nothing is written.
#[tactic(auto, unfolding(crate::specs::Early::early_of))]
pub fn early(setup: Setup, mode: RunMode, meta: &[u8]) -> Result<Outlook, EarlyError>
    ensures { outlook_number result ≡ early_of 64 setup (mode_number mode) meta.now }
{
    let capacity = setup.capacity;
    let careful = setup.start_kind == CAREFUL;
    if !refusal::set_up(setup) {
        return Err(EarlyError::BadSetup);
    }
    if meta.len() != RECORD {
        return Err(EarlyError::BadRecord);
    }
    if is_staying(mode, careful, capacity, meta) {
        return Ok(Outlook::Stays);
    }
    Ok(Outlook::ReadsOn)
}
