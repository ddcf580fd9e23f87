// Translated from tinyboot, lib/core/src/core.rs (MIT OR Apache-2.0); changed: what the Rust runs into is a new state, and the app is an answer.

#![tactic(auto)]

ghost use Rattle.std.specs.Prelude.{◌≡◌, true, ◌==◌, Some};
ghost use Rattle.wire_numbers.specs.Names.{mode_number};
ghost use Rattle.device_boot.specs.Start.{start_of};
ghost use Rattle.device_state.specs.Refusals.{refusal_told};
ghost use Rattle.device_start.specs.Starts.{new_state, start_refusal, started_to, decided_to, started_of};

use device_boot::boot_core;
use device_state::refusal::Refusal;
use device_state::{CAREFUL, Numbers, Setup, State, refusal};
use store_flash::storage::{NONE_PENDING, PAGE_SIZE};
use wire_frames::frame::{FRAME, Frame};
use wire_numbers::RunMode;

// What a start gives: where it refuses, Service and a closed state.
#[derive(Clone, Copy)]
pub struct Started {
    pub state: State,
    pub refusal: Option<Refusal>,
    pub mode: RunMode,
}

// No frame, no run, deselected.
pub fn new_state(closed: bool) -> State
    ensures { result ≡ new_state 52 64 closed }
{
    let frame = Frame::new();
    let bytes = frame.bytes;
    State {
        frame: bytes,
        page: [0u8; PAGE_SIZE],
        numbers: Numbers {
            got: 0,
            fill: 0,
            next: NONE_PENDING,
            selected: false,
            closed: closed,
        },
    }
}

fn hands_off(mode: RunMode) -> bool
    ensures { result ≡ (mode_number mode == 0) }
{
    mode == RunMode::HandOff
}

// As a call of the feed that has room for a reply and is open.
#[tactic(auto, unfolding(crate::specs::Starts::start_refusal, device_state::specs::Refusals::lengths_of))]
fn refuses(setup: Setup, flash: usize, meta: usize) -> Result<(), Refusal>
    ensures { refusal_told result ≡ start_refusal 64 setup flash meta }
{
    if !refusal::set_up(setup) {
        return Err(Refusal::BadSetup);
    }
    refusal::of_lengths(setup.capacity, flash, meta, FRAME, false)
}

fn refused(refusal: Refusal) -> Started
    ensures { (result.state ≡ new_state 52 64 true) × (result.refusal ≡ Some refusal) × (mode_number result.mode ≡ 1) }
{
    Started {
        state: new_state(true),
        refusal: Some(refusal),
        mode: RunMode::Service,
    }
}

fn begun(careful: bool, capacity: usize, mode: RunMode, flash: &[u8], meta: &mut [u8]) -> Started
    ensures { started_to result meta.new ≡
        decided_to 52 64 (start_of careful capacity (mode_number mode) flash.now meta.old) }
{
    let decision = boot_core::check_boot_state(careful, capacity, mode, flash, meta);
    Started {
        state: new_state(hands_off(decision)),
        refusal: None,
        mode: decision,
    }
}

// A restart, or the first start: with Service asked for, or to the app.
#[tactic(auto, using(device_state::proofs::Told::refusal_some), unfolding(crate::specs::Starts::started_of))]
pub fn start(setup: Setup, mode: RunMode, flash: &[u8], meta: &mut [u8]) -> Started
    ensures { started_to result meta.new ≡ started_of 52 64 setup (mode_number mode) flash.now meta.old }
{
    if let Err(refusal) = refuses(setup, flash.len(), meta.len()) {
        return refused(refusal);
    }
    let careful = setup.start_kind == CAREFUL;
    begun(careful, setup.capacity, mode, flash, meta)
}
