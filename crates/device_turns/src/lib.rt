// Who answers a frame, and why not. Translated from tinyboot, lib/core/src/protocol.rs (MIT OR Apache-2.0); changed: the turn is a value, and silence has a
// reason.

#![tactic(auto)]

ghost use Rattle.std.specs.Prelude.{◌≡◌, eqb, take, ℕ, false, List};
ghost use Rattle.wire_frames.specs.Fields.{cmd_of};
ghost use Rattle.cmd_select.specs.Select.{select_of};
ghost use Rattle.device_turns.specs.declared.Turn.{Turn};
ghost use Rattle.device_turns.specs.Turns.{why_number, turned, chosen, damaged, asked, turn_of};

use wire_frames::frame::{FrameBytes, Kind};
use wire_numbers::Cmd;

// Why a device keeps silent once a frame has ended.
#[derive(Clone, Copy)]
pub enum Silence {
    OverheardReply,
    UnreadableFrame,
    WrongCrc,
    NotSelected,
    SelectWithoutMatch,
}

// What a frame that has ended calls for: silence, or a reply after a wait, to a Select that matched or to what else is asked; and whether the device is
// selected afterwards.
#[derive(Clone, Copy)]
pub enum Turn {
    Silent {
        why: Silence,
        selected: bool,
    },
    Reply {
        chosen: bool,
        selected: bool,
        wait: u8,
    },
}

pub fn why_number(why: Silence) -> u8
    ensures { result ≡ why_number why }
{
    match why {
        Silence::OverheardReply => 1,
        Silence::UnreadableFrame => 2,
        Silence::WrongCrc => 3,
        Silence::NotSelected => 4,
        Silence::SelectWithoutMatch => 5,
    }
}

// Silence leaves the selection as it is; a Select's alone does not.
fn silent(why: Silence, on: bool) -> Turn
    ensures { result ≡ Turn.Silent why on }
{
    Turn::Silent {
        why: why,
        selected: on,
    }
}

// A reply at once, which leaves the selection as it is.
fn replies(on: bool) -> Turn
    ensures { result ≡ Turn.Reply false on 0 }
{
    Turn::Reply {
        chosen: false,
        selected: on,
        wait: 0,
    }
}

// Match or not, the id is in the data area afterwards.
fn select(id: [u8; 16], id_len: usize, f: &mut FrameBytes) -> Turn
    ensures { turned result f.new ≡ chosen (select_of (take id_len id) f.old) }
{
    match cmd_select::select(id, id_len, f) {
        Some(wait) => Turn::Reply {
            chosen: true,
            selected: true,
            wait,
        },
        None => Turn::Silent {
            why: Silence::SelectWithoutMatch,
            selected: false,
        },
    }
}

// An error of the frame: only a device without an id replies to it.
fn damaged(why: Silence, id_len: usize, on: bool) -> Turn
    ensures { (f : List ℕ) → turned result f ≡ damaged why id_len on f }
{
    if id_len == 0 {
        return replies(on);
    }
    silent(why, on)
}

fn is_select(f: &FrameBytes) -> bool
    ensures { result ≡ eqb (cmd_of f.now) 5 }
{
    f[2] == Cmd::Select.to_u8()
}

// A good request: an addressed device replies to a Select that matches it and, while selected, to the others.
fn asked(id: [u8; 16], id_len: usize, f: &mut FrameBytes, on: bool) -> Turn
    ensures { turned result f.new ≡ asked id id_len f.old on }
{
    if id_len == 0 {
        return replies(on);
    }
    if is_select(f) {
        return select(id, id_len, f);
    }
    if on {
        return replies(on);
    }
    silent(Silence::NotSelected, on)
}

// The turn of a device with this id, the first `id_len` of its bytes, once a frame has ended in this way: none has an id where that is 0, and all 16 bytes are
// the id where it is above 16.
#[tactic(auto, unfolding(crate::specs::Turns::turn_of))]
pub fn decide(id: [u8; 16], id_len: usize, kind: Kind, f: &mut FrameBytes, on: bool) -> Turn
    ensures { turned result f.new ≡ turn_of id id_len kind f.old on }
{
    match kind {
        Kind::Unsupported => damaged(Silence::UnreadableFrame, id_len, on),
        Kind::PayloadOverflow => damaged(Silence::UnreadableFrame, id_len, on),
        Kind::Overheard => silent(Silence::OverheardReply, on),
        Kind::CrcMismatch => damaged(Silence::WrongCrc, id_len, on),
        Kind::Good => asked(id, id_len, f, on),
    }
}
