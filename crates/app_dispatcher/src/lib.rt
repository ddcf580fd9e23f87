// Translated from tinyboot, lib/core/src/app.rs (MIT OR Apache-2.0): `process` and `handle_cmd`; changed: the record is lent, the reply is written into a lent
// room, the wait and the reset are answers.

#![tactic(auto)]

ghost use Rattle.std.specs.Prelude.{◌≡◌, true, eqb};
ghost use Rattle.wire_numbers.specs.Names.{mode_number};
ghost use Rattle.wire_numbers.specs.Flags.{bit_of};
ghost use Rattle.wire_frames.specs.Fields.{cmd_of, flags_of};
ghost use Rattle.cmd_info.specs.Info.{info_laid};
ghost use Rattle.app_dispatcher.specs.Acts.{app_info, replied_of, resets, row_kept, spoken_of, act_of};
ghost use Rattle.app_dispatcher.specs.Inner.{replied_to, ended_to};

use app_state::{AppSetup, AppState};
use device_dispatcher::{id_len, is_good, status_of};
use device_replies::Answer;
use device_turns::Turn;
use wire_frames::fields;
use wire_frames::frame::{DEFAULT_PAYLOAD, FrameBytes, Kind};
use wire_info::InfoData;
use wire_numbers::{Cmd, ResetFlags, RunMode, Status};

// The mode that Info tells: the app runs.
const MODE: u8 = 1;

// A reply's status, and how many bytes of data it has.
#[derive(Drop)]
struct Response {
    status: Status,
    len: u16,
}

fn info(setup: AppSetup, f: &mut FrameBytes, meta: &[u8])
    ensures { f.new ≡ info_laid f.old (app_info 52 setup meta.now) }
{
    let payload = DEFAULT_PAYLOAD as u16;
    let app = setup.app_version;
    cmd_info::tell(
        payload,
        MODE,
        app,
        setup.capacity,
        setup.erase_size,
        setup.version,
        setup.key,
        f,
        meta,
    );
}

// The two commands that an app carries out, each asked for by its own name.
fn is_info(f: &FrameBytes) -> bool
    ensures { result ≡ eqb (cmd_of f.now) 0 }
{
    f[2] == Cmd::Info.to_u8()
}

fn is_reset(f: &FrameBytes) -> bool
    ensures { result ≡ eqb (cmd_of f.now) 4 }
{
    f[2] == Cmd::Reset.to_u8()
}

// A reply of no data.
fn bare(status: Status) -> Response
    ensures { result ≡ record { status = status; len = 0 } }
{
    Response {
        status: status,
        len: 0,
    }
}

// A Select's reply carries the id; an error is replied to; of the commands Info alone has data.
fn respond(chosen: bool, setup: AppSetup, kind: Kind, f: &mut FrameBytes, meta: &[u8]) -> Response
    ensures { replied_to result f.new ≡ replied_of 52 setup kind chosen f.old meta.now }
{
    if chosen {
        return Response {
            status: Status::Ok,
            len: id_len(setup.id, setup.id_len),
        };
    }
    if !is_good(kind) {
        return bare(status_of(kind));
    }
    if is_info(f) {
        info(setup, f, meta);
        return Response {
            status: Status::Ok,
            len: InfoData::wire_len(),
        };
    }
    bare(Status::Unsupported)
}

fn resets(chosen: bool, kind: Kind, f: &FrameBytes) -> bool
    ensures { result ≡ resets kind chosen f.now }
{
    !chosen && is_good(kind) && is_reset(f)
}

// The baud is stored unchecked, and only where it differs.
fn store(f: &FrameBytes, meta: &mut [u8])
    ensures { meta.new ≡ row_kept f.now meta.old }
{
    let asked = ResetFlags {
        bits: fields::flags(f),
    };
    if asked.baud() {
        let _stored = app_record::store_baud(meta, f[4]);
    }
}

fn mode(f: &FrameBytes) -> RunMode
    ensures { mode_number result ≡ bit_of 0 (flags_of f.now) }
{
    let asked = ResetFlags {
        bits: fields::flags(f),
    };
    asked.run_mode()
}

// A Reset replies nothing: the caller resets. What the turn said comes in three parameters: a struct of them would be made for this one call.
fn speak(
    chosen: bool,
    setup: AppSetup,
    kind: Kind,
    wait: u8,
    state: &mut AppState,
    meta: &mut [u8],
    room: &mut [u8],
) -> Answer
    ensures { ended_to result state.new meta.new room.new ≡
        spoken_of 52 setup kind chosen wait (record { state = state.old; meta = meta.old }) room.old }
{
    if resets(chosen, kind, &state.frame) {
        store(&state.frame, meta);
        state.numbers.closed = true;
        return Answer::Restart {
            len: 0,
            mode: mode(&state.frame),
        };
    }
    let x = respond(chosen, setup, kind, &mut state.frame, meta);
    device_replies::reply(x.status, x.len, false, wait, &mut state.frame, room)
}

// A frame that has ended in this way. It begins as the bootloader's `dispatch` does, but its state, its world and what it carries out are others: a trait over
// both would have more methods than these functions have lines in common.
pub fn app_dispatch(
    setup: AppSetup,
    kind: Kind,
    state: &mut AppState,
    meta: &mut [u8],
    room: &mut [u8],
) -> Answer
    ensures { ended_to result state.new meta.new room.new ≡
        act_of 52 setup kind (record { state = state.old; meta = meta.old }) room.old }
{
    let on = state.numbers.selected;
    match device_turns::decide(setup.id, setup.id_len, kind, &mut state.frame, on) {
        Turn::Silent { why, selected } => {
            state.numbers.selected = selected;
            Answer::Silent { why: why }
        }
        Turn::Reply {
            chosen,
            selected,
            wait,
        } => {
            state.numbers.selected = selected;
            speak(chosen, setup, kind, wait, state, meta, room)
        }
    }
}
