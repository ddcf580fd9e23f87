// Ours: the Rust's `App::poll` (lib/core/src/app.rs) reads from the wire until a frame has ended; this one is handed the bytes as they come, and answers what
// is to be done.

#![tactic(auto)]

ghost use Rattle.std.specs.Prelude.{◌≡◌, true};
ghost use Rattle.wire_frames.specs.Stored.{well_of};
ghost use Rattle.app_client.specs.Feed.{taken_of, app_fed_of};
ghost use Rattle.app_client.specs.Inner.{passed_to, fed_to};

use app_state::{AppSetup, AppState};
use device_feed::{Fed, Passed, kind_of};
use device_replies::Answer;

// A call that is not refused. The three functions here are those of `device_feed` over another state and no flash; a trait over both would need the refusal,
// the dispatch, the frame and its count as methods with laws, for a dozen lines.
fn pass(
    setup: AppSetup,
    state: &mut AppState,
    bytes: &[u8],
    meta: &mut [u8],
    reply: &mut [u8],
) -> Passed
    requires { well_of 52 true state.old.frame state.old.numbers.got ≡ true }
    ensures { passed_to result state.new meta.new reply.new ≡
        taken_of 52 setup (record { state = state.old; meta = meta.old }) bytes.now reply.old }
{
    let got = state.numbers.got;
    let p = wire_reader::read_in(&mut state.frame, got, true, bytes);
    state.numbers.got = p.got;
    let Some(kind) = kind_of(p.stop) else {
        return Passed {
            taken: p.taken,
            answer: Answer::Quiet,
        };
    };
    let answer = app_dispatcher::app_dispatch(setup, kind, state, meta, reply);
    Passed {
        taken: p.taken,
        answer: answer,
    }
}

// `app_feed` on a state that is lent: for who keeps it in place and feeds it byte by byte.
pub fn app_feed_in(
    setup: AppSetup,
    state: &mut AppState,
    bytes: &[u8],
    meta: &mut [u8],
    reply: &mut [u8],
) -> Passed
    ensures { passed_to result state.new meta.new reply.new ≡
        app_fed_of 52 64 setup (record { state = state.old; meta = meta.old }) bytes.now reply.old }
{
    let n = state.numbers;
    if let Err(refusal) = app_state::app_refuses(setup, &state.frame, n, meta.len(), reply.len()) {
        return Passed {
            taken: 0,
            answer: Answer::Refused(refusal),
        };
    }
    pass(setup, state, bytes, meta, reply)
}

// Takes the bytes of a piece up to the end of the first frame in it, answers that frame as the running app, and writes its reply into the room. What the caller
// owes: bytes that were not taken are handed in again, before any others; a reply is sent after the answer's wait, in byte-times of ten bits; after Restart
// nothing is sent, and the device is reset into the answer's mode.
pub fn app_feed(
    setup: AppSetup,
    state: AppState,
    bytes: &[u8],
    meta: &mut [u8],
    reply: &mut [u8],
) -> Fed<AppState>
    ensures { fed_to result meta.new reply.new ≡
        app_fed_of 52 64 setup (record { state = state; meta = meta.old }) bytes.now reply.old }
{
    let mut after = state;
    let r = app_feed_in(setup, &mut after, bytes, meta, reply);
    Fed {
        state: after,
        taken: r.taken,
        answer: r.answer,
    }
}
