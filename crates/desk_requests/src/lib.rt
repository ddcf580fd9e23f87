// The desk's requests, written as tinyboot's `send` writes a frame (lib/protocol/src/frame.rs, MIT OR Apache-2.0); ours: the desk side has no upstream file.

#![tactic(auto)]

ghost use Rattle.std.specs.Prelude.{◌≡◌, ◌||◌, ◌+◌, ◌≤◌, ◌<◌, ◌^◌, ◌++◌, ◌∷◌, [], length, replicate, ltb, leb};
ghost use Rattle.std.proofs.Math.Seq.{paste};
ghost use Rattle.laws.specs.Pick.{pick};
ghost use Rattle.laws.specs.Low.{low_bytes};
ghost use Rattle.laws.specs.Over.{over};
ghost use Rattle.wire_numbers.specs.declared.Cmd.{Cmd};
ghost use Rattle.desk_requests.specs.Requests.{asks, written_to, request_of, fields_of, head_of};

use wire_frames::frame::{DEFAULT_PAYLOAD, FRAME, FrameBytes};
use wire_frames::sync::Sync;
use wire_numbers::{Cmd, ResetFlags, WriteFlags, le};

// A request but for its data: the command, and the header's numbers that are the desk's to choose.
#[derive(Clone, Copy, Debug, PartialEq, Eq)]
pub struct Request {
    pub cmd: Cmd,
    pub flags: u8,
    pub addr: u32,
}

// Why nothing is written: the room is below a full frame; or the data are above the capacity or the address above 24 bits.
#[derive(Clone, Copy, Debug, PartialEq, Eq)]
pub enum RequestError {
    NoRoom,
    TooLarge,
}

// The first ten bytes of a request with n bytes of data.
fn header(request: Request, n: u16) -> [u8; 10]
    ensures { result ≡ head_of request n }
{
    let cmd = request.cmd;
    let a = le::bytes24(request.addr);
    let l = le::bytes16(n);
    [
        Sync::VALID.0,
        Sync::VALID.1,
        cmd.to_u8(),
        0,
        a[0],
        a[1],
        a[2],
        request.flags,
        l[0],
        l[1],
    ]
}

// All of src, from `at` on.
fn put(f: &mut [u8], at: usize, src: &[u8])
    requires { at + length src.now ≤ length f.old }
    ensures { f.new ≡ paste f.old at src.now (length src.now) }
{
    f[at..at + src.len()].copy_from_slice(src);
}

// Whether data of two parts, or an address, are more than a frame has place for.
fn too_large(own: usize, rest: usize, addr: u32) -> bool
    ensures { result ≡ (ltb 52 (own + rest) || leb (256 ^ 3) addr) }
{
    DEFAULT_PAYLOAD < own || DEFAULT_PAYLOAD - own < rest || 0x100_0000 <= addr
}

// A frame's bytes with the request in them, its data in two parts.
fn framed(request: Request, own: &[u8], rest: &[u8]) -> FrameBytes
    requires { length own.now + length rest.now ≤ 52 }
    ensures { result ≡ over (fields_of request (own.now ++ rest.now)) (replicate 64 0) }
{
    let mut f = [0u8; FRAME];
    let n = own.len() + rest.len();
    let h = header(request, n as u16);
    put(&mut f, 0, &h);
    put(&mut f, 10, own);
    put(&mut f, 10 + own.len(), rest);
    f
}

// Writes a request whose data are two parts, one after the other.
fn write_parts(
    request: Request,
    own: &[u8],
    rest: &[u8],
    room: &mut [u8],
) -> Result<usize, RequestError>
    ensures { written_to result room.new ≡ request_of 52 request (own.now ++ rest.now) room.old }
{
    let large = too_large(own.len(), rest.len(), request.addr);
    if room.len() < FRAME {
        return Err(RequestError::NoRoom);
    }
    if large {
        return Err(RequestError::TooLarge);
    }
    let mut f = framed(request, own, rest);
    Ok(wire_sender::send(&mut f, room))
}

// Writes any request into a lent room, and answers how many bytes it has.
pub fn write_request(request: Request, data: &[u8], room: &mut [u8]) -> Result<usize, RequestError>
    ensures { written_to result room.new ≡ request_of 52 request «data».now room.old }
{
    write_parts(request, &data[..0], data, room)
}

// A request with no data.
fn bare(request: Request, room: &mut [u8]) -> Result<usize, RequestError>
    ensures { written_to result room.new ≡ request_of 52 request [] room.old }
{
    write_request(request, b"", room)
}

// A request whose data begin with two bytes of its own.
fn led(
    request: Request,
    first: u8,
    second: u8,
    rest: &[u8],
    room: &mut [u8],
) -> Result<usize, RequestError>
    ensures { written_to result room.new ≡ request_of 52 request (first ∷ second ∷ rest.now) room.old }
{
    let own = [first, second];
    write_parts(request, &own, rest, room)
}

fn write_flags(flush: bool) -> u8
    ensures { result ≡ pick flush (2 ^ 7) 0 }
{
    if flush { WriteFlags::FLUSH } else { 0 }
}

// The six requests, each of its own numbers (01, Commands). Info has none.
pub fn info(room: &mut [u8]) -> Result<usize, RequestError>
    ensures { written_to result room.new ≡ request_of 52 (asks Cmd.Info 0 0) [] room.old }
{
    bare(
        Request {
            cmd: Cmd::Info,
            flags: 0,
            addr: 0,
        },
        room,
    )
}

// So many bytes, from an address on.
pub fn erase(addr: u32, count: u16, room: &mut [u8]) -> Result<usize, RequestError>
    ensures { written_to result room.new ≡ request_of 52 (asks Cmd.Erase 0 addr) (low_bytes 2 count) room.old }
{
    let c = le::bytes16(count);
    let request = Request {
        cmd: Cmd::Erase,
        flags: 0,
        addr,
    };
    led(request, c[0], c[1], b"", room)
}

// Data, to an address; flushed, the run ends with them.
pub fn write(addr: u32, flush: bool, data: &[u8], room: &mut [u8]) -> Result<usize, RequestError>
    ensures { written_to result room.new ≡
        request_of 52 (asks Cmd.Write (pick flush (2 ^ 7) 0) addr) «data».now room.old }
{
    let request = Request {
        cmd: Cmd::Write,
        flags: write_flags(flush),
        addr,
    };
    write_request(request, data, room)
}

// The image of so many bytes.
pub fn verify(size: u32, room: &mut [u8]) -> Result<usize, RequestError>
    ensures { written_to result room.new ≡ request_of 52 (asks Cmd.Verify 0 size) [] room.old }
{
    bare(
        Request {
            cmd: Cmd::Verify,
            flags: 0,
            addr: size,
        },
        room,
    )
}

// What of the address counts, its flags say.
pub fn reset(flags: ResetFlags, addr: u32, room: &mut [u8]) -> Result<usize, RequestError>
    ensures { written_to result room.new ≡ request_of 52 (asks Cmd.Reset flags.bits addr) [] room.old }
{
    bare(
        Request {
            cmd: Cmd::Reset,
            flags: flags.bits,
            addr,
        },
        room,
    )
}

// Whose id begins with so many bits of the prefix; the seed picks the wait before a reply.
pub fn select(seed: u8, count: u8, prefix: &[u8], room: &mut [u8]) -> Result<usize, RequestError>
    ensures { written_to result room.new ≡
        request_of 52 (asks Cmd.Select 0 0) (seed ∷ count ∷ prefix.now) room.old }
{
    let request = Request {
        cmd: Cmd::Select,
        flags: 0,
        addr: 0,
    };
    led(request, seed, count, prefix, room)
}
