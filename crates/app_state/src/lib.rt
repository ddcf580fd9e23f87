// Translated from tinyboot, lib/core/src/app.rs (MIT OR Apache-2.0): `AppConfig` and what `App` keeps; changed: the state goes by value, the record is lent,
// and what the Rust's types rule out is refused.

#![tactic(auto)]

ghost use Rattle.std.specs.Prelude.{◌≡◌};
ghost use Rattle.device_state.specs.Refusals.{refusal_told};
ghost use Rattle.app_state.specs.State.{new_app};
ghost use Rattle.app_state.specs.Refusals.{app_refusal_of};

use device_state::refusal::Refusal;
use device_state::{PRESENT, refusal};
use wire_frames::frame;
use wire_frames::frame::{Frame, FrameBytes};

// The numbers that an app answers with; the bootloader's are those of its image. An id of length 0 is an unaddressed app; id bytes past the length count for
// nothing. Six of these a `Setup` has too: as a struct within both, each rule would read them through one name more.
#[derive(Clone, Copy)]
pub struct AppSetup {
    pub erase_size: usize,
    pub capacity: usize,
    pub id: [u8; 16],
    pub id_len: usize,
    pub version: u16,
    pub key: u32,
    pub app_version: u16,
}

// What an app keeps between calls beside its frame's bytes: how many of them have begun, the selection, whether a restart is due. These are a
// device's numbers but for those of a run of writes.
#[derive(Clone, Copy)]
pub struct AppNumbers {
    pub got: usize,
    pub selected: bool,
    pub closed: bool,
}

#[derive(Clone, Copy)]
pub struct AppState {
    pub frame: FrameBytes,
    pub numbers: AppNumbers,
}

// Open, with no frame begun, deselected.
pub fn app_new() -> AppState
    ensures { result ≡ new_app 52 }
{
    let frame = Frame::new();
    let bytes = frame.bytes;
    AppState {
        frame: bytes,
        numbers: AppNumbers {
            got: 0,
            selected: false,
            closed: false,
        },
    }
}

// Whether a call of `app_feed` is refused, and how: the first in the table that applies. There is no flash to refuse.
#[tactic(auto, unfolding(crate::specs::Refusals::app_refusal_of))]
pub fn app_refuses(
    setup: AppSetup,
    f: &FrameBytes,
    n: AppNumbers,
    meta: usize,
    room: usize,
) -> Result<(), Refusal>
    ensures { refusal_told result ≡ app_refusal_of 52 64 setup f.now n meta room }
{
    if !refusal::fits(setup.erase_size, setup.capacity, setup.id_len, PRESENT) {
        return Err(Refusal::BadSetup);
    }
    if !frame::is_beginning(f, n.got, true) {
        return Err(Refusal::BadState);
    }
    refusal::of_lengths(setup.capacity, setup.capacity, meta, room, n.closed)
}
