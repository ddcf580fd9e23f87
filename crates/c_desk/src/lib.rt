// The desk's calls for programs in C or Rust: each takes and leaves plain bytes. Ours: the Rust has no such interface.

#![tactic(auto)]

pub mod captures;

ghost use Rattle.std.specs.Prelude.{◌≡◌, ◌≤◌, ◌^◌, ◌∷◌, [], eqb, length};
ghost use Rattle.laws.specs.Over.{over};
ghost use Rattle.laws.specs.Pick.{pick};
ghost use Rattle.laws.specs.Low.{low_bytes};
ghost use Rattle.wire_numbers.specs.declared.Cmd.{Cmd};
ghost use Rattle.desk_requests.specs.Requests.{asks, written_number, request_of};
ghost use Rattle.c_desk.specs.Desk.{blank_head, asked, after_hear, c_asked, unheard_of, c_heard};
ghost use Rattle.c_desk.specs.Inner.{heard_number, heard_head, contents_kind, heard_kind, laid_bytes};

use desk_replies::{Contents, Head, Heard};
use desk_requests::RequestError;
use wire_frames::frame;
use wire_numbers::{ResetFlags, le};

// How many bytes tell what was heard.
pub const HEARD_SIZE: usize = 24;

// The bytes, over the start of a room that holds them.
fn lay_over(bytes: &[u8], room: &mut [u8])
    requires { length bytes.now ≤ length room.old }
    ensures { room.new ≡ over bytes.now room.old }
{
    room[..bytes.len()].copy_from_slice(bytes);
}

fn number(w: Result<usize, RequestError>) -> u8
    ensures { result ≡ written_number w }
{
    match w {
        Ok(_) => 0,
        Err(RequestError::NoRoom) => 14,
        Err(RequestError::TooLarge) => 20,
    }
}

// The six requests, each of its own numbers: 0, or the number of a refusal, and then nothing is written.
pub fn tinyboot_request_info(room: &mut [u8]) -> u8
    ensures { asked result room.new ≡ c_asked (request_of 52 (asks Cmd.Info 0 0) [] room.old) }
{
    number(desk_requests::info(room))
}

pub fn tinyboot_request_erase(addr: u32, count: u16, room: &mut [u8]) -> u8
    ensures { asked result room.new ≡ c_asked (request_of 52 (asks Cmd.Erase 0 addr) (low_bytes 2 count) room.old) }
{
    number(desk_requests::erase(addr, count, room))
}

pub fn tinyboot_request_write(addr: u32, flush: u8, bytes: &[u8], room: &mut [u8]) -> u8
    ensures { asked result room.new ≡
        c_asked (request_of 52 (asks Cmd.Write (pick (eqb flush 0) 0 (2 ^ 7)) addr) bytes.now room.old) }
{
    number(desk_requests::write(addr, flush != 0, bytes, room))
}

pub fn tinyboot_request_verify(size: u32, room: &mut [u8]) -> u8
    ensures { asked result room.new ≡ c_asked (request_of 52 (asks Cmd.Verify 0 size) [] room.old) }
{
    number(desk_requests::verify(size, room))
}

pub fn tinyboot_request_reset(flags: u8, addr: u32, room: &mut [u8]) -> u8
    ensures { asked result room.new ≡ c_asked (request_of 52 (asks Cmd.Reset flags addr) [] room.old) }
{
    number(desk_requests::reset(ResetFlags { bits: flags }, addr, room))
}

pub fn tinyboot_request_select(seed: u8, count: u8, prefix: &[u8], room: &mut [u8]) -> u8
    ensures { asked result room.new ≡
        c_asked (request_of 52 (asks Cmd.Select 0 0) (seed ∷ count ∷ prefix.now) room.old) }
{
    number(desk_requests::select(seed, count, prefix, room))
}

fn heard_number(h: Heard) -> u8
    ensures { result ≡ heard_number h }
{
    match h {
        Heard::Nothing => 0,
        Heard::Request { .. } => 1,
        Heard::Reply { .. } => 2,
        Heard::Faulty { .. } => 3,
        Heard::Refused => 11,
    }
}

// A frame's numbers where there is none but a status.
fn blank(status: u8) -> Head
    ensures { result ≡ blank_head status }
{
    Head {
        cmd: 0,
        status,
        addr: 0,
        flags: 0,
        len: 0,
    }
}

fn head_of(h: Heard) -> Head
    ensures { result ≡ heard_head h }
{
    match h {
        Heard::Nothing | Heard::Refused => blank(0),
        Heard::Request { head } | Heard::Reply { head, .. } => head,
        Heard::Faulty { status } => blank(status),
    }
}

fn contents_kind(c: Contents) -> u8
    ensures { result ≡ contents_kind c }
{
    match c {
        Contents::Info { .. } => 1,
        Contents::Verify { .. } => 2,
        Contents::Select => 3,
        Contents::Plain => 0,
    }
}

fn kind_of(h: Heard) -> u8
    ensures { result ≡ heard_kind h }
{
    match h {
        Heard::Reply { contents, .. } => contents_kind(contents),
        Heard::Nothing | Heard::Request { .. } | Heard::Faulty { .. } | Heard::Refused => 0,
    }
}

// A place or a number of bytes, low byte first.
fn place_bytes(at: usize) -> [u8; 8]
    ensures { result ≡ low_bytes 8 at }
{
    [
        (at % 256) as u8,
        (at / 256 % 256) as u8,
        (at / 256 / 256 % 256) as u8,
        (at / 256 / 256 / 256 % 256) as u8,
        (at / 256 / 256 / 256 / 256 % 256) as u8,
        (at / 256 / 256 / 256 / 256 / 256 % 256) as u8,
        (at / 256 / 256 / 256 / 256 / 256 / 256 % 256) as u8,
        (at / 256 / 256 / 256 / 256 / 256 / 256 / 256 % 256) as u8,
    ]
}

// What was heard, in 24 bytes.
fn heard_bytes(h: Heard, got: usize, taken: usize) -> [u8; HEARD_SIZE]
    ensures { result ≡ laid_bytes h got taken }
{
    let f = head_of(h);
    let a = le::bytes32(f.addr);
    let l = le::bytes16(f.len);
    let t = place_bytes(taken);
    [
        heard_number(h),
        f.cmd,
        f.status,
        f.flags,
        a[0],
        a[1],
        a[2],
        a[3],
        l[0],
        l[1],
        (got % 256) as u8,
        (got / 256 % 256) as u8,
        kind_of(h),
        0,
        0,
        0,
        t[0],
        t[1],
        t[2],
        t[3],
        t[4],
        t[5],
        t[6],
        t[7],
    ]
}

// The refusal of a call that has no room to tell what was heard.
fn unheard(f: &[u8], got: usize) -> u8
    ensures { result ≡ unheard_of 52 f.now got }
{
    if frame::begins(f, got, false) { 14 } else { 11 }
}

// Takes bytes until the first frame has ended, into a frame of which `got` bytes have begun, and lays what was heard.
pub fn tinyboot_hear(f: &mut [u8], got: usize, bytes: &[u8], heard: &mut [u8]) -> u8
    ensures { after_hear result f.new heard.new ≡
        c_heard 52 f.old got bytes.now heard.old }
{
    if heard.len() < HEARD_SIZE {
        return unheard(f, got);
    }
    let p = desk_replies::hear_part(f, got, bytes);
    let h = p.heard;
    let new = heard_bytes(h, p.got, p.taken);
    lay_over(&new, heard);
    heard_number(h)
}
