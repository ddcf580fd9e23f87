// The answers of a call, and the reply that two of them tell of. Translated from tinyboot, lib/core/src/protocol.rs (MIT OR Apache-2.0); changed: a reply
// is written into a lent room, the wait and the restart are answers.

#![tactic(auto)]

ghost use Rattle.std.specs.Prelude.{◌≡◌};
ghost use Rattle.wire_numbers.specs.Names.{status_number, mode_number};
ghost use Rattle.wire_frames.specs.Fields.{flags_of};
ghost use Rattle.device_replies.specs.Answers.{mute, told_of};
ghost use Rattle.device_replies.specs.Inner.{told_by};
ghost use Rattle.device_replies.specs.Reply.{headed, spoken, reply_of};

use device_state::refusal::{Refusal, refusal_number};
use device_turns::Silence;
use wire_frames::frame::FrameBytes;
use wire_numbers::{ResetFlags, RunMode, Status, le};

// What a call says: no frame has ended; one has, and there is no reply, for this reason; there is one, to be sent after a wait of so many byte-times; there
// is one, and a restart in this mode is due after it; or the call is refused, and nothing has changed.
#[derive(Clone, Copy)]
pub enum Answer {
    Quiet,
    Silent { why: Silence },
    Reply { len: usize, wait: u8 },
    Restart { len: usize, mode: RunMode },
    Refused(Refusal),
}

// An answer in numbers.
#[derive(Clone, Copy)]
pub struct Said {
    pub number: u8,
    pub mode: u8,
    pub len: usize,
    pub wait: u8,
    pub why: u8,
}

pub fn mode_number(mode: RunMode) -> u8
    ensures { result ≡ mode_number mode }
{
    match mode {
        RunMode::HandOff => 0,
        RunMode::Service => 1,
    }
}

// The answer of this number, where it tells of no reply.
pub fn unsaid(number: u8) -> Said
    ensures { told_by result ≡ mute number }
{
    Said {
        number: number,
        mode: 1,
        len: 0,
        wait: 0,
        why: 0,
    }
}

pub fn numbers_of(answer: Answer) -> Said
    ensures { told_by result ≡ told_of answer }
{
    match answer {
        Answer::Quiet => unsaid(0),
        Answer::Silent { why } => Said {
            number: 1,
            mode: 1,
            len: 0,
            wait: 0,
            why: device_turns::why_number(why),
        },
        Answer::Reply { len, wait } => Said {
            number: 2,
            mode: 1,
            len: len,
            wait: wait,
            why: 0,
        },
        Answer::Restart { len, mode } => Said {
            number: 3,
            mode: mode_number(mode),
            len: len,
            wait: 0,
            why: 0,
        },
        Answer::Refused(refusal) => unsaid(refusal_number(refusal)),
    }
}

// The reply's status and length.
fn head(f: &mut FrameBytes, status: Status, len: u16)
    ensures { f.new ≡ headed (status_number status) len f.old }
{
    let n = le::bytes16(len);
    f[3] = status.to_u8();
    f[8] = n[0];
    f[9] = n[1];
}

fn flags(f: &FrameBytes) -> ResetFlags
    ensures { result.bits ≡ flags_of f.now }
{
    ResetFlags { bits: f[7] }
}

// The reply is built in the frame and sent into the room. Status, length and restart are a command's, the wait is a turn's: no struct has all four.
pub fn reply(
    status: Status,
    len: u16,
    restart: bool,
    wait: u8,
    f: &mut FrameBytes,
    room: &mut [u8],
) -> Answer
    ensures { spoken (told_of result) f.new room.new ≡
        reply_of 52 (status_number status) len restart wait f.old room.old }
{
    let asked = flags(f);
    head(f, status, len);
    let sent = wire_sender::send(f, room);
    if restart {
        return Answer::Restart {
            len: sent,
            mode: asked.run_mode(),
        };
    }
    Answer::Reply {
        len: sent,
        wait: wait,
    }
}
