// Translated from tinyboot, lib/protocol/src/frame.rs (MIT OR Apache-2.0); changed: what a frame is and when one has truly begun; the reader is a crate of its
// own.

ghost use Rattle.std.specs.Prelude.{◌≡◌, ◌&&◌, ◌||◌, ltb, leb, eqb, ◌+◌, length};
ghost use Rattle.wire_frames.specs.Reading.{overhears, end_status, header_of};
ghost use Rattle.wire_frames.specs.Stored.{new_frame, framed, goes, well_of};

use crate::sync::Sync;
use wire_numbers::le;

// The largest payload that a request may carry.
pub const DEFAULT_PAYLOAD: usize = 52;

// A full frame: 12 bytes of framing, and a full payload.
pub const FRAME: usize = 12 + DEFAULT_PAYLOAD;

pub type FrameBytes = [u8; FRAME];

// 64 bytes at the offsets of 01 (AA 55, header 2 to 9, data 10 to 61, the received CRC apart at 62 and 63), and how many bytes of a frame have
// begun: 0 none, 1 an AA, 10 a header. The data area, 10 to 61, outlives the frame.
#[derive(Clone, Copy)]
pub struct Frame {
    pub bytes: FrameBytes,
    pub got: usize,
}

impl Frame {
    // No frame begun; the data area is zero.
    pub fn new() -> Frame
        ensures { result ≡ framed (new_frame 52) 0 }
    {
        let mut bytes = [0u8; FRAME];
        bytes[0] = Sync::VALID.0;
        bytes[1] = Sync::VALID.1;
        Frame {
            bytes: bytes,
            got: 0,
        }
    }
}

// How a frame can end.
#[derive(Clone, Copy, Debug, PartialEq, Eq)]
pub enum Kind {
    Unsupported,
    PayloadOverflow,
    Overheard,
    CrcMismatch,
    Good,
}

// How a call stopped: the frame handed in was no true beginning; all bytes were taken; or a frame has ended, and how.
// Flat: a variant that holds another enum is stored as two bytes and read back as one number, which stalls.
#[derive(Clone, Copy, Debug, PartialEq, Eq)]
pub enum Stop {
    Refused,
    Going,
    Unsupported,
    PayloadOverflow,
    Overheard,
    CrcMismatch,
    Good,
}

// What a call on a lent frame gives: how many bytes have begun, how many were taken, how it stopped.
#[derive(Clone, Copy, Debug, PartialEq, Eq)]
pub struct Passed {
    pub got: usize,
    pub taken: usize,
    pub stop: Stop,
}

// Whether a frame of this status is overheard.
#[tactic(auto, unfolding(crate::specs::Reading::overhears))]
pub fn heard(device: bool, status: u8) -> bool
    ensures { result ≡ overhears device status }
{
    device && status != 0
}

// Whether no command or no status has this number.
fn strange(cmd: u8, status: u8) -> bool
    ensures { result ≡ (ltb 5 cmd || ltb 7 status) }
{
    5 < cmd || 7 < status
}

// What a whole header says, of its command, status and length: how the frame ends with it; None where it goes on.
pub fn verdict(cmd: u8, status: u8, len: u16, device: bool) -> Option<Kind>
    ensures { end_status result ≡ end_status (header_of 52 device cmd status len) }
{
    if strange(cmd, status) {
        return Some(Kind::Unsupported);
    }
    if len as usize <= DEFAULT_PAYLOAD {
        return None;
    }
    if heard(device, status) {
        return Some(Kind::Overheard);
    }
    Some(Kind::PayloadOverflow)
}

// Whether a byte that has come is the one that is due at its place.
fn due(got: usize, place: usize, b: u8, want: u8) -> bool
    ensures { result ≡ (leb got place || eqb b want) }
{
    got <= place || b == want
}

// Whether a header that has come passed, and the place is inside the frame.
fn inside(cmd: u8, status: u8, len: u16, got: usize, device: bool) -> bool
    ensures { result ≡ (leb got 9 || (goes (header_of 52 device cmd status len) && ltb got (12 + len))) }
{
    got <= 9 || verdict(cmd, status, len, device).is_none() && got < 12 + len as usize
}

// Whether the first `got` bytes are a true beginning of a frame.
#[tactic(auto, unfolding(crate::specs::Stored::well_of, crate::specs::Reading::verdict_of))]
fn well(f: &[u8], got: usize, device: bool) -> bool
    requires { length f.now ≡ 64 }
    ensures { result ≡ well_of 52 device f.now got }
{
    due(got, 0, f[0], Sync::VALID.0)
        && due(got, 1, f[1], Sync::VALID.1)
        && inside(f[2], f[3], le::read16(f[8], f[9]), got, device)
}

// Whether the first `got` bytes of a lent frame are a true beginning of one.
pub fn is_beginning(f: &FrameBytes, got: usize, device: bool) -> bool
    ensures { result ≡ well_of 52 device f.now got }
{
    well(f, got, device)
}

// Whether a lent slice holds a true beginning of a frame, `got` bytes of it: one that is not as long as a frame holds none.
pub fn begins(f: &[u8], got: usize, device: bool) -> bool
    ensures { result ≡ (eqb (length f.now) 64 && well_of 52 device f.now got) }
{
    f.len() == FRAME && well(f, got, device)
}
