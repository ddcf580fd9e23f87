// When a call refuses. Ours: the Rust's types rule these out, or it does not look.

ghost use Rattle.std.specs.Prelude.{◌≡◌, ◌≤◌};
ghost use Rattle.device_state.specs.Refusals.{erase_size_fits, capacity_fits, fits, set_up, run_fits};
ghost use Rattle.device_state.specs.Refusals.{well_formed, refusal_number, refusal_told, lengths_of, refusal_of};

use crate::{CAREFUL, Numbers, Setup};
use store_flash::storage::{NONE_PENDING, PAGE_SIZE};
use wire_frames::frame;
use wire_frames::frame::{FRAME, FrameBytes};

// The refusals of 01, in its table's order.
#[derive(Clone, Copy, Debug, PartialEq, Eq)]
pub enum Refusal {
    BadSetup,
    BadState,
    BadFlash,
    BadRecord,
    NoRoom,
    Closed,
}

// A refusal by its number.
pub fn refusal_number(refusal: Refusal) -> u8
    ensures { result ≡ refusal_number refusal }
{
    match refusal {
        Refusal::BadSetup => 10,
        Refusal::BadState => 11,
        Refusal::BadFlash => 12,
        Refusal::BadRecord => 13,
        Refusal::NoRoom => 14,
        Refusal::Closed => 15,
    }
}

// Here and below a number that is known to be small is taken in 32 bits, as small controllers reckon.
#[tactic(auto, unfolding(crate::specs::Refusals::erase_size_fits))]
fn erase_fits(erase: usize) -> bool
    ensures { result ≡ erase_size_fits 64 erase }
{
    PAGE_SIZE <= erase && erase <= 32768 && erase as u32 % (PAGE_SIZE as u32) == 0
}

// Of an erase size that fits.
#[tactic(auto, unfolding(crate::specs::Refusals::capacity_fits))]
fn capacity_fits(erase: usize, capacity: usize) -> bool
    requires { erase ≤ 32768 }
    ensures { result ≡ capacity_fits erase capacity }
{
    erase != 0 && capacity != 0 && capacity <= 65536 && capacity as u32 % (erase as u32) == 0
}

// Whether these numbers are a setup's.
#[tactic(auto, using(crate::proofs::Limits::erase_most), unfolding(crate::specs::Refusals::fits))]
pub fn fits(erase: usize, capacity: usize, id_len: usize, start_kind: u8) -> bool
    ensures { result ≡ fits 64 erase capacity id_len start_kind }
{
    erase_fits(erase) && capacity_fits(erase, capacity) && id_len <= 16 && start_kind <= CAREFUL
}

pub fn set_up(setup: Setup) -> bool
    ensures { result ≡ set_up 64 setup }
{
    fits(
        setup.erase_size,
        setup.capacity,
        setup.id_len,
        setup.start_kind,
    )
}

// With no write pending nothing is filled; else the next write is within the capacity, and the fill is its place in the page.
#[tactic(auto, unfolding(crate::specs::Refusals::run_fits))]
pub fn run_fits(capacity: usize, fill: usize, next: u32) -> bool
    ensures { result ≡ run_fits 64 capacity fill next }
{
    if next == NONE_PENDING {
        return fill == 0;
    }
    fill < PAGE_SIZE && next as usize <= capacity && next % (PAGE_SIZE as u32) == fill as u32
}

// Whether a state's frame and numbers are those of a device of this setup.
#[tactic(auto, unfolding(crate::specs::Refusals::well_formed))]
pub fn well_formed(setup: Setup, f: &FrameBytes, n: Numbers) -> bool
    ensures { result ≡ well_formed 52 64 setup f.now n }
{
    run_fits(setup.capacity, n.fill, n.next) && frame::is_beginning(f, n.got, true)
}

// What is not the capacity of flash, not 12 bytes of record, less room than a frame has bytes, or closed, in the table's order.
#[tactic(auto, unfolding(crate::specs::Refusals::lengths_of))]
pub fn of_lengths(
    capacity: usize,
    flash: usize,
    meta: usize,
    room: usize,
    closed: bool,
) -> Result<(), Refusal>
    ensures { refusal_told result ≡ lengths_of 52 capacity flash meta room closed }
{
    if flash != capacity {
        return Err(Refusal::BadFlash);
    }
    if meta != 12 {
        return Err(Refusal::BadRecord);
    }
    if room < FRAME {
        return Err(Refusal::NoRoom);
    }
    if closed {
        return Err(Refusal::Closed);
    }
    Ok(())
}

// Whether a call of `feed` is refused, and how: the first in the table that applies. Of what is lent it takes the lengths alone.
#[tactic(auto, unfolding(crate::specs::Refusals::refusal_of))]
pub fn refuses(
    setup: Setup,
    f: &FrameBytes,
    n: Numbers,
    flash: usize,
    meta: usize,
    room: usize,
) -> Result<(), Refusal>
    ensures { refusal_told result ≡ refusal_of 52 64 setup f.now n flash meta room }
{
    if !set_up(setup) {
        return Err(Refusal::BadSetup);
    }
    if !well_formed(setup, f, n) {
        return Err(Refusal::BadState);
    }
    of_lengths(setup.capacity, flash, meta, room, n.closed)
}
