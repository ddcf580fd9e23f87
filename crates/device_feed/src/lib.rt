// Ours: the Rust's dispatcher reads from the wire until a frame has ended; this one is handed the bytes as they come, and answers what is to be done.

#![tactic(auto)]

ghost use Rattle.std.specs.Prelude.{◌≡◌, true};
ghost use Rattle.wire_frames.specs.Stored.{well_of, said_of};
ghost use Rattle.device_replies.specs.Answers.{told_of};
ghost use Rattle.device_feed.specs.Feed.{taken_of, fed_of};
ghost use Rattle.device_feed.specs.Inner.{passed_to, fed_to, kind_of};

use device_replies::Answer;
use device_state::{Setup, State, refusal};
use wire_frames::frame::{Kind, Stop};

// The state afterwards, a bootloader's or an app's; how many bytes of the piece were taken, and what the call says.
#[derive(Clone, Copy)]
pub struct Fed<S> {
    pub state: S,
    pub taken: usize,
    pub answer: Answer,
}

// The same where the state is lent: what it does not hold.
#[derive(Clone, Copy)]
pub struct Passed {
    pub taken: usize,
    pub answer: Answer,
}

// How a frame has ended, where one has.
pub fn kind_of(stop: Stop) -> Option<Kind>
    ensures { result ≡ kind_of (said_of stop) }
{
    match stop {
        Stop::Refused | Stop::Going => None,
        Stop::Unsupported => Some(Kind::Unsupported),
        Stop::PayloadOverflow => Some(Kind::PayloadOverflow),
        Stop::Overheard => Some(Kind::Overheard),
        Stop::CrcMismatch => Some(Kind::CrcMismatch),
        Stop::Good => Some(Kind::Good),
    }
}

// A call that is not refused.
fn pass(
    setup: Setup,
    state: &mut State,
    bytes: &[u8],
    flash: &mut [u8],
    meta: &mut [u8],
    reply: &mut [u8],
) -> Passed
    requires { well_of 52 true state.old.frame state.old.numbers.got ≡ true }
    ensures { passed_to result state.new flash.new meta.new reply.new ≡
        taken_of 52 64 setup (record { state = state.old; flash = flash.old; meta = meta.old }) bytes.now reply.old }
{
    let got = state.numbers.got;
    let p = wire_reader::read_in(&mut state.frame, got, true, bytes);
    state.numbers.got = p.got;
    let Some(kind) = kind_of(p.stop) else {
        return Passed {
            taken: p.taken,
            answer: Answer::Quiet,
        };
    };
    let answer = device_dispatcher::dispatch(setup, kind, state, flash, meta, reply);
    Passed {
        taken: p.taken,
        answer: answer,
    }
}

// `feed` on a state that is lent: for who keeps it in place and feeds it byte by byte. Flash, record and room are lent one by one, as C hands them over: a
// struct of the three would be built at each call and taken apart at the next.
#[tactic(auto, using(crate::proofs::Feeding::call_refused))]
pub fn feed_in(
    setup: Setup,
    state: &mut State,
    bytes: &[u8],
    flash: &mut [u8],
    meta: &mut [u8],
    reply: &mut [u8],
) -> Passed
    ensures { passed_to result state.new flash.new meta.new reply.new ≡
        fed_of 52 64 setup (record { state = state.old; flash = flash.old; meta = meta.old }) bytes.now reply.old }
{
    let n = state.numbers;
    let f = &state.frame;
    if let Err(refusal) = refusal::refuses(setup, f, n, flash.len(), meta.len(), reply.len()) {
        return Passed {
            taken: 0,
            answer: Answer::Refused(refusal),
        };
    }
    pass(setup, state, bytes, flash, meta, reply)
}

// Takes the bytes of a piece up to the end of the first frame in it, carries that frame out on the flash and the record, and writes its reply into the
// room. What the caller owes: bytes that were not taken are handed in again, before any others; a reply is sent after the answer's wait, in byte-times of
// ten bits; after Restart its reply is sent, and `start` is called with its mode.
pub fn feed(
    setup: Setup,
    state: State,
    bytes: &[u8],
    flash: &mut [u8],
    meta: &mut [u8],
    reply: &mut [u8],
) -> Fed<State>
    ensures { fed_to result flash.new meta.new reply.new ≡
        fed_of 52 64 setup (record { state = state; flash = flash.old; meta = meta.old }) bytes.now reply.old }
{
    let mut after = state;
    let r = feed_in(setup, &mut after, bytes, flash, meta, reply);
    Fed {
        state: after,
        taken: r.taken,
        answer: r.answer,
    }
}
