// The reader: takes the bytes of the wire into a frame, and stops where the frame ends. Translated from tinyboot, lib/protocol/src/frame.rs (MIT OR
// Apache-2.0); changed: the blocking reader is a feed, which is handed the bytes as they come and goes on where it stopped.

#![tactic(auto)]

ghost use Rattle.std.specs.Prelude.{◌≡◌, true, false, leb, ◌+◌, ◌≤◌, ◌<◌, ◌++◌, ◌∷◌, [], length, get_or, take, drop};
ghost use Rattle.std.proofs.Math.Seq.{paste};
ghost use Rattle.laws.specs.Pick.{pick};
ghost use Rattle.wire_numbers.specs.Crc.{crc_of};
ghost use Rattle.wire_frames.specs.Fields.{len_of};
ghost use Rattle.wire_frames.specs.Reading.{verdict_of, checked, read_frame};
ghost use Rattle.wire_frames.specs.declared.frame.Stop.TheVariants.{Refused};
ghost use Rattle.wire_frames.specs.Stored.{begun, Well, wanted_of, After, Turned, out_of, ended, said_of, seen, read_of, part_of};

use wire_frames::frame::{FRAME, Frame, FrameBytes, Kind, Passed, Stop};
use wire_frames::sync::Sync;
use wire_frames::{frame, sync};
use wire_numbers::{crc, le};

#[derive(Clone, Copy)]
pub struct Taken {
    pub frame: Frame,
    pub taken: usize,
    pub stop: Stop,
}

// The functions below are lent the frame and handed the count: a struct of both would be handed on, and given back, with each byte.

// What a byte does: how many bytes have begun, and how the frame has ended, where it has. Counts within a frame are u32, which costs a small controller less.
#[derive(Clone, Copy)]
struct Step {
    got: u32,
    end: Option<Kind>,
}

// The same of a turn, and how many bytes it took.
#[derive(Clone, Copy)]
struct Turn {
    got: u32,
    taken: u32,
    end: Option<Kind>,
}

// The length in the header.
fn len(f: &FrameBytes) -> u32
    ensures { (result ≡ len_of f.now) × (result < 65536) }
{
    le::read16(f[8], f[9]) as u32
}

// What a whole header says: how the frame ends with it; None where it goes on.
fn judge(f: &FrameBytes, device: bool) -> Option<Kind>
    ensures { result ≡ verdict_of 52 device f.now }
{
    frame::verdict(f[2], f[3], le::read16(f[8], f[9]), device)
}

// The CRC of the first m bytes.
fn body_crc(f: &FrameBytes, m: usize) -> u16
    requires { m ≤ length f.now }
    ensures { result ≡ crc_of (take m f.now) }
{
    crc::crc16(crc::CRC_INIT, &f[..m])
}

// What a whole frame of n data bytes says, its last byte being high.
fn finish(f: &FrameBytes, n: u32, device: bool, high: u8) -> Kind
    requires { (n ≤ 52) × (n ≡ len_of f.now) }
    ensures { result ≡ checked device (take (10 + n) f.now ++ (get_or f.now 62 0 ∷ high ∷ [])) }
{
    if frame::heard(device, f[3]) {
        return Kind::Overheard;
    }
    let c = body_crc(f, 10 + n as usize);
    if c == le::read16(f[62], high) {
        return Kind::Good;
    }
    Kind::CrcMismatch
}

// The header's last byte.
fn head(f: &mut FrameBytes, device: bool, b: u8) -> Step
    requires { Well 52 device f.old 9 }
    ensures { After 52 device f.old 9 (b ∷ []) f.new result.got result.end }
{
    f[9] = b;
    let end = judge(f, device);
    match end {
        None => Step { got: 10, end: None },
        Some(kind) => Step {
            got: 0,
            end: Some(kind),
        },
    }
}

// m bytes from at on, copied to got and on, one by one.
fn copy(f: &mut FrameBytes, got: usize, bytes: &[u8], at: usize, m: usize)
    requires { (got + m ≤ 64) × (at + m ≤ length bytes.now) }
    ensures { f.new ≡ paste f.old got (drop at bytes.now) m }
{
    for j in 0..m {
        f[got + j] = bytes[at + j];
    }
}

// The same through a local array: of that the compiler knows that nothing else is in it, and both loops become one move.
fn fill(f: &mut FrameBytes, got: usize, bytes: &[u8], at: usize, m: usize)
    requires { (got + m ≤ 64) × (at + m ≤ length bytes.now) }
    ensures { f.new ≡ paste f.old got (drop at bytes.now) m }
{
    let mut a = [0u8; FRAME];
    copy(&mut a, 0, bytes, at, m);
    copy(f, got, &a, 0, m);
}

// How many bytes are still to come that are only stored: the header's but for its last, or the data.
fn wanted(f: &FrameBytes, got: u32) -> u32
    ensures { result ≡ wanted_of f.now got }
{
    if got < 2 {
        return 0;
    }
    if got < 10 {
        return 9 - got;
    }
    let end = 10 + len(f);
    if end <= got {
        return 0;
    }
    end - got
}

fn least(a: u32, b: usize) -> u32
    ensures { result ≡ pick (leb a b) a b }
{
    (a as usize).min(b) as u32
}

// The CRC's two bytes.
fn tail(f: &mut FrameBytes, got: u32, device: bool, b: u8) -> Step
    requires { (10 ≤ got) × (10 + len_of f.old ≤ got) × Well 52 device f.old got }
    ensures { After 52 device f.old got (b ∷ []) f.new result.got result.end }
{
    let n = len(f);
    if got == 10 + n {
        f[62] = b;
        return Step {
            got: got + 1,
            end: None,
        };
    }
    let kind = finish(f, n, device, b);
    f[63] = b;
    Step {
        got: 0,
        end: Some(kind),
    }
}

// A byte that is looked at.
fn push(f: &mut FrameBytes, got: u32, device: bool, b: u8) -> Step
    requires { (2 ≤ got → got < 10 → got ≡ 9) × (10 ≤ got → 10 + len_of f.old ≤ got) × Well 52 device f.old got }
    ensures { After 52 device f.old got (b ∷ []) f.new result.got result.end }
{
    if got < 2 {
        let g = sync::hunted(got as usize, b) as u32;
        return Step { got: g, end: None };
    }
    if got < 10 {
        return head(f, device, b);
    }
    tail(f, got, device, b)
}

// One turn, from the byte at `at`: as many bytes as are wanted and at hand, or one byte that is looked at.
fn take_turn(f: &mut FrameBytes, got: u32, device: bool, bytes: &[u8], at: usize) -> Turn
    requires { (at < length bytes.now) × Well 52 device f.old got }
    ensures { Turned 52 device f.old got bytes.now at f.new result.got result.taken result.end }
{
    let want = wanted(f, got);
    if want == 0 {
        let s = push(f, got, device, bytes[at]);
        return Turn {
            got: s.got,
            taken: 1,
            end: s.end,
        };
    }
    let m = least(want, bytes.len() - at);
    fill(f, got as usize, bytes, at, m as usize);
    Turn {
        got: got + m,
        taken: m,
        end: None,
    }
}

// A match by name: what `ended` of the definitions says of each, and the edit mismatch_told_good turns one of them.
fn told(k: Kind) -> Stop
    ensures { said_of result ≡ ended k }
{
    match k {
        Kind::Unsupported => Stop::Unsupported,
        Kind::PayloadOverflow => Stop::PayloadOverflow,
        Kind::Overheard => Stop::Overheard,
        Kind::CrcMismatch => Stop::CrcMismatch,
        Kind::Good => Stop::Good,
    }
}

fn pass(f: &mut FrameBytes, start: usize, device: bool, bytes: &[u8]) -> Passed
    requires { Well 52 device f.old start }
    ensures { seen f.new result.got result.taken result.stop ≡
        out_of 52 f.old (length bytes.now) (read_frame 52 device (begun 52 f.old start ++ bytes.now)) }
{
    let mut got = start as u32;
    // A turn takes as many bytes as it can, so there is no count of turns to go over.
    let mut i: usize = 0;
    while i < bytes.len() {
        let t = take_turn(f, got, device, bytes, i);
        i += t.taken as usize;
        got = t.got;
        if let Some(kind) = t.end {
            return Passed {
                got: 0,
                taken: i,
                stop: told(kind),
            };
        }
    }
    Passed {
        got: got as usize,
        taken: i,
        stop: Stop::Going,
    }
}

// The frame handed in is no true beginning: nothing is taken.
fn refused(got: usize) -> Passed
    ensures { result ≡ record { got = got; taken = 0; stop = Refused } }
{
    Passed {
        got: got,
        taken: 0,
        stop: Stop::Refused,
    }
}

// Takes bytes until the first frame has ended, into a lent slice that holds a frame of which `got` bytes have begun: nothing is copied but the bytes. A
// device overhears what is no request; the desk reads every status.
pub fn read_part(f: &mut [u8], got: usize, device: bool, bytes: &[u8]) -> Passed
    ensures { seen f.new result.got result.taken result.stop ≡ part_of 52 device f.old got bytes.now }
{
    match f.as_mut_array::<FRAME>() {
        Some(frame) => read_in(frame, got, device, bytes),
        None => refused(got),
    }
}

// The same of a frame's array.
pub fn read_in(f: &mut FrameBytes, got: usize, device: bool, bytes: &[u8]) -> Passed
    ensures { seen f.new result.got result.taken result.stop ≡ read_of 52 device f.old got bytes.now }
{
    if frame::is_beginning(f, got, device) {
        f[0] = Sync::VALID.0;
        f[1] = Sync::VALID.1;
        return pass(f, got, device, bytes);
    }
    refused(got)
}

fn read_frame(frame: Frame, device: bool, bytes: &[u8]) -> Taken
    ensures { seen result.frame.bytes result.frame.got result.taken result.stop ≡ read_of 52 device frame.bytes frame.got bytes.now }
{
    let mut s = frame;
    let p = read_in(&mut s.bytes, frame.got, device, bytes);
    s.got = p.got;
    Taken {
        frame: s,
        taken: p.taken,
        stop: p.stop,
    }
}

// Reads as the desk does, the frame by value.
pub fn read(frame: Frame, bytes: &[u8]) -> Taken
    ensures { seen result.frame.bytes result.frame.got result.taken result.stop ≡ read_of 52 false frame.bytes frame.got bytes.now }
{
    read_frame(frame, false, bytes)
}

// Reads as a device does, the frame by value.
pub fn read_request(frame: Frame, bytes: &[u8]) -> Taken
    ensures { seen result.frame.bytes result.frame.got result.taken result.stop ≡ read_of 52 true frame.bytes frame.got bytes.now }
{
    read_frame(frame, true, bytes)
}
