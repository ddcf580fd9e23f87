// Translated from tinyboot, lib/core/src/protocol.rs (MIT OR Apache-2.0); changed: what the blocking dispatcher does to its platform is done to lent
// arrays; the reply is written into a lent room, the wait and the restart are answers.

#![tactic(auto)]

ghost use Rattle.std.specs.Prelude.{◌≡◌, length, take};
ghost use Rattle.wire_numbers.specs.Names.{status_number};
ghost use Rattle.wire_frames.specs.Reading.{kind_status};
ghost use Rattle.device_handler.specs.Inner.{handled_to};
ghost use Rattle.device_dispatcher.specs.Dispatch.{good, done_of, dispatch_of};
ghost use Rattle.device_dispatcher.specs.Inner.{ended_to};

use cmd_select::MAX_UID_LEN;
use device_handler::Handled;
use device_replies::Answer;
use device_state::{Setup, State};
use device_turns::Turn;
use wire_frames::frame::Kind;
use wire_numbers::Status;

// A good request.
pub fn is_good(kind: Kind) -> bool
    ensures { result ≡ good kind }
{
    kind == Kind::Good
}

// The status that tells how a frame ended.
pub fn status_of(kind: Kind) -> Status
    ensures { status_number result ≡ kind_status kind }
{
    match kind {
        Kind::Unsupported => Status::Unsupported,
        Kind::PayloadOverflow => Status::PayloadOverflow,
        Kind::Overheard => Status::Request,
        Kind::CrcMismatch => Status::CrcMismatch,
        Kind::Good => Status::Ok,
    }
}

// The id's length, as a frame has it; a length above 16 means all 16 bytes.
pub fn id_len(id: [u8; 16], len: usize) -> u16
    ensures { result ≡ length (take len id) }
{
    if len < MAX_UID_LEN {
        return len as u16;
    }
    16
}

// A Select's reply carries the id; another good request is carried out; an error is replied to.
#[tactic(auto, unfolding(crate::specs::Dispatch::obeyed_of))]
fn done(
    chosen: bool,
    setup: Setup,
    kind: Kind,
    state: &mut State,
    flash: &mut [u8],
    meta: &mut [u8],
) -> Handled
    ensures { handled_to result state.new flash.new meta.new ≡
        done_of 52 64 setup kind chosen (record { state = state.old; flash = flash.old; meta = meta.old }) }
{
    if chosen {
        return device_handler::loaded(id_len(setup.id, setup.id_len));
    }
    if is_good(kind) {
        return device_handler::handle(setup, state, flash, meta);
    }
    device_handler::bare(status_of(kind))
}

// A frame that has ended in this way. What is lent comes one by one, as to `feed`.
pub fn dispatch(
    setup: Setup,
    kind: Kind,
    state: &mut State,
    flash: &mut [u8],
    meta: &mut [u8],
    room: &mut [u8],
) -> Answer
    ensures { ended_to result state.new flash.new meta.new room.new ≡
        dispatch_of 52 64 setup kind (record { state = state.old; flash = flash.old; meta = meta.old }) room.old }
{
    let on = state.numbers.selected;
    match device_turns::decide(setup.id, setup.id_len, kind, &mut state.frame, on) {
        Turn::Silent { why, selected } => {
            state.numbers.selected = selected;
            Answer::Silent { why: why }
        }
        Turn::Reply {
            chosen,
            selected,
            wait,
        } => {
            state.numbers.selected = selected;
            let h = done(chosen, setup, kind, state, flash, meta);
            state.numbers.closed = h.restart;
            device_replies::reply(h.status, h.len, h.restart, wait, &mut state.frame, room)
        }
    }
}
