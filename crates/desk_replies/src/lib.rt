// What the desk hears: the Rust's `read` (tinyboot, lib/protocol/src/frame.rs, MIT OR Apache-2.0), fed in parts, and what the frame that it read says. Ours:
// the desk side has no upstream file.

#![tactic(auto)]

ghost use Rattle.std.specs.Prelude.{◌≡◌, length, take, drop, eqb, leb, ◌&&◌};
ghost use Rattle.wire_frames.specs.Fields.{len_of, data_of};
ghost use Rattle.wire_frames.specs.Stored.{said_of};
ghost use Rattle.desk_replies.specs.Replies.{
  head_of,
  contents_of,
  good_of,
  heard_by,
  hear_of,
  hear_part_of,
  contents_to,
  told_of,
  hearing_to,
};

use wire_frames::frame::{FRAME, Frame, FrameBytes, Stop};
use wire_info::InfoData;
use wire_numbers::le;

// The numbers of a frame's header.
#[derive(Clone, Copy, Debug, PartialEq, Eq)]
pub struct Head {
    pub cmd: u8,
    pub status: u8,
    pub addr: u32,
    pub flags: u8,
    pub len: u16,
}

// The contents of a reply: Info's numbers, the CRC of a Verify, the id of who was selected, or bytes. The last two stand in the frame: `data_of` hands them
// back.
#[derive(Clone, Copy)]
pub enum Contents {
    Info { info: InfoData },
    Verify { crc: u16 },
    Select,
    Plain,
}

// What a call heard: no frame has ended; a good request; a good reply; a frame that ended otherwise, with this status; or the frame handed in was no true
// beginning, and nothing has changed.
#[derive(Clone, Copy)]
pub enum Heard {
    Nothing,
    Request { head: Head },
    Reply { head: Head, contents: Contents },
    Faulty { status: u8 },
    Refused,
}

// What a call on a lent frame gives: how many bytes have begun, how many were taken, what was heard.
#[derive(Clone, Copy)]
pub struct Part {
    pub got: usize,
    pub taken: usize,
    pub heard: Heard,
}

// The same with the frame by value.
#[derive(Clone, Copy)]
pub struct Taken {
    pub frame: Frame,
    pub taken: usize,
    pub heard: Heard,
}

// The data of a frame with this header, as the very part of it, where it is so long.
pub fn data_of<'a>(f: &'a [u8], head: Head) -> &'a [u8]
    ensures { result.now ≡ take head.len (drop 10 f.now) }
{
    let len = head.len as usize;
    if f.len() < 10 {
        return &f[..0];
    }
    if f.len() - 10 < len {
        return &f[10..];
    }
    &f[10..10 + len]
}

fn numbers(f: &FrameBytes) -> Head
    ensures { result ≡ head_of f.now }
{
    Head {
        cmd: f[2],
        status: f[3],
        addr: le::read24(f[4], f[5], f[6]),
        flags: f[7],
        len: le::read16(f[8], f[9]),
    }
}

fn info_bytes(f: &FrameBytes) -> [u8; 18]
    ensures { result ≡ take 18 (drop 10 f.now) }
{
    let mut b = [0u8; 18];
    b.copy_from_slice(&f[10..28]);
    b
}

// Whether data of this length are a selected device's id.
fn is_id(cmd: u8, len: u16) -> bool
    ensures { result ≡ (eqb cmd 5 && (leb 1 len && leb len 16)) }
{
    cmd == 5 && 1 <= len && len <= 16
}

fn is_sized(cmd: u8, len: u16, want: u8, size: u16) -> bool
    ensures { result ≡ (eqb cmd want && eqb len size) }
{
    cmd == want && len == size
}

// The contents by command and length.
fn typed(f: &FrameBytes, cmd: u8, len: u16) -> Contents
    requires { len ≡ len_of f.now }
    ensures { contents_to result (data_of f.now) ≡ contents_of cmd len (data_of f.now) }
{
    if is_sized(cmd, len, 0, InfoData::SIZE) {
        let b = info_bytes(f);
        return Contents::Info {
            info: InfoData::from_bytes(b),
        };
    }
    if is_sized(cmd, len, 3, 2) {
        return Contents::Verify {
            crc: le::read16(f[10], f[11]),
        };
    }
    if is_id(cmd, len) {
        return Contents::Select;
    }
    Contents::Plain
}

// A good frame: of status 0 it is a request.
fn good(f: &FrameBytes) -> Heard
    ensures { told_of result f.now ≡ good_of f.now }
{
    let head = numbers(f);
    if head.status == 0 {
        return Heard::Request { head };
    }
    let contents = typed(f, head.cmd, head.len);
    Heard::Reply { head, contents }
}

fn told(f: &FrameBytes, stop: Stop) -> Heard
    ensures { told_of result f.now ≡ heard_by (said_of stop) f.now }
{
    match stop {
        Stop::Refused => Heard::Refused,
        Stop::Going => Heard::Nothing,
        Stop::Unsupported => Heard::Faulty { status: 5 },
        Stop::PayloadOverflow => Heard::Faulty { status: 6 },
        Stop::Overheard => Heard::Faulty { status: 0 },
        Stop::CrcMismatch => Heard::Faulty { status: 3 },
        Stop::Good => good(f),
    }
}

// Takes bytes until the first frame has ended, into a lent slice that holds a frame of which `got` bytes have begun. Bytes that were not taken are handed in
// again, before any others. After a frame has ended it stands in the slice until the next call.
pub fn hear_part(f: &mut [u8], got: usize, bytes: &[u8]) -> Part
    ensures { hearing_to f.new result.got result.taken result.heard ≡ hear_part_of 52 f.old got bytes.now }
{
    if let Some(frame) = f.as_mut_array::<FRAME>() {
        return hear_in(frame, got, bytes);
    }
    Part {
        got,
        taken: 0,
        heard: Heard::Refused,
    }
}

// The same of a frame's array.
pub fn hear_in(f: &mut FrameBytes, got: usize, bytes: &[u8]) -> Part
    ensures { hearing_to f.new result.got result.taken result.heard ≡ hear_of 52 f.old got bytes.now }
{
    let read = wire_reader::read_in(f, got, false, bytes);
    Part {
        got: read.got,
        taken: read.taken,
        heard: told(f, read.stop),
    }
}

// The same with the frame by value.
pub fn hear(frame: Frame, bytes: &[u8]) -> Taken
    ensures { hearing_to result.frame.bytes result.frame.got result.taken result.heard ≡ hear_of 52 frame.bytes frame.got bytes.now }
{
    let mut frame = frame;
    let part = hear_in(&mut frame.bytes, frame.got, bytes);
    frame.got = part.got;
    Taken {
        frame,
        taken: part.taken,
        heard: part.heard,
    }
}
