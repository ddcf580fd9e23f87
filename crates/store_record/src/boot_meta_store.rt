// Translated from tinyboot, ch32/src/platform/boot_meta_store.rs (MIT OR Apache-2.0); changed: the record is a lent array of 12 bytes.

ghost use Rattle.std.specs.Prelude.{◌≡◌, not, eqb, get_or, set};
ghost use Rattle.std.proofs.lemmas.List.Edits.{sets};
ghost use Rattle.store_record.specs.State.{state_byte, state_read};
ghost use Rattle.store_record.specs.Cuts.{blank};
ghost use Rattle.store_record.specs.Record.{state_of, updating, trials_of, checksum_of, size_of, baud_of, position_of};
ghost use Rattle.store_record.specs.Record.{half, advanced, trial_used, row_set, refreshed, starts_left};

use crate::rewrite::{RECORD, Record, STEPS, rewrite_steps};
use crate::traits::BootState;
use store_flash::cells::{byte_at, four_at, lay, put};
use wire_numbers::le;

// Where the fields stand; 10 and 11 are reserved, and kept.
const STATE: usize = 0;

const TRIALS: usize = 1;

const CHECKSUM: usize = 2;

const SIZE: usize = 4;

const BAUD: usize = 8;

const POSITION: usize = 9;

pub fn boot_state(meta: &[u8]) -> BootState
    ensures { state_byte result ≡ state_read (state_of meta.now) }
{
    BootState::from_u8(byte_at(meta, STATE))
}

// Whether an update is under way.
pub fn is_updating(meta: &[u8]) -> bool
    ensures { result ≡ updating meta.now }
{
    boot_state(meta) == BootState::Updating
}

pub fn has_trials(meta: &[u8]) -> bool
    ensures { result ≡ not (eqb (trials_of meta.now) 0) }
{
    byte_at(meta, TRIALS) != 0
}

pub fn app_checksum(meta: &[u8]) -> u16
    ensures { result ≡ checksum_of meta.now }
{
    le::read16(byte_at(meta, CHECKSUM), byte_at(meta, CHECKSUM + 1))
}

pub fn app_size(meta: &[u8]) -> u32
    ensures { result ≡ size_of meta.now }
{
    four_at(meta, SIZE as u32)
}

// This byte and the next have a name each; handed its place, one function for both would be `byte_at` again.
pub fn baud(meta: &[u8]) -> u8
    ensures { result ≡ baud_of meta.now }
{
    byte_at(meta, BAUD)
}

// The place in the row, 0xFF for none.
pub fn position(meta: &[u8]) -> u8
    ensures { result ≡ position_of meta.now }
{
    byte_at(meta, POSITION)
}

// The record as it stands, for a rewrite to keep of it; what is missing is 0xFF.
fn kept(meta: &[u8]) -> Record
    ensures { result ≡ sets blank 0 meta.now }
{
    let mut new = [0xFFu8; RECORD];
    lay(&mut new, meta);
    new
}

// One rewrite of both, which keeps all else.
pub fn set_row(meta: &mut [u8], baud: u8, position: u8)
    ensures { meta.new ≡ row_set meta.old baud position }
{
    let mut new = kept(meta);
    new[BAUD] = baud;
    new[POSITION] = position;
    rewrite_steps(meta, new, STEPS);
}

// One byte loses a 1: a single store.
fn step_down(meta: &mut [u8], at: usize)
    ensures { meta.new ≡ set meta.old at (half (get_or meta.old at 0xFF)) }
{
    let x = byte_at(meta, at);
    put(meta, at, x & (x >> 1));
}

// The two steps that callers know, by name: the places stay in here.
pub fn advance(meta: &mut [u8])
    ensures { meta.new ≡ advanced meta.old }
{
    step_down(meta, STATE);
}

pub fn consume_trial(meta: &mut [u8])
    ensures { meta.new ≡ trial_used meta.old }
{
    step_down(meta, TRIALS);
}

// A rewrite: the trials start anew, baud, position and the reserved bytes are kept.
pub fn refresh(meta: &mut [u8], checksum: u16, state: BootState, app_size: u32)
    ensures { meta.new ≡ refreshed meta.old checksum (state_byte state) app_size }
{
    let c = le::bytes16(checksum);
    let z = le::bytes32(app_size);
    let first = [state.to_u8(), 0xFF, c[0], c[1], z[0], z[1], z[2], z[3]];
    let mut new = kept(meta);
    lay(&mut new, &first);
    rewrite_steps(meta, new, STEPS);
}

// How many starts a trials byte still allows: its longest run of ones.
pub fn starts_left(trials: u8) -> u32
    ensures { result ≡ starts_left trials }
{
    let mut left = trials as u32;
    if left & (left + 1) == 0 {
        return u32::count_ones(left);
    }
    let mut best: u32 = 0;
    // a while: each turn takes a whole run of ones off, so no count of turns is known
    while left != 0 {
        // the lowest run, moved to the low end: the zeros below it go, and its ones are the zeros of the complement
        let low = left >> u32::trailing_zeros(left);
        let run = u32::trailing_zeros(!low);
        if best < run {
            best = run;
        }
        left = low >> run;
    }
    best
}
