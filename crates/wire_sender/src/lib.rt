// Translated from tinyboot, lib/protocol/src/frame.rs (MIT OR Apache-2.0): its `send`; changed: the whole is written into a lent room.

#![tactic(auto)]

ghost use Rattle.std.specs.Prelude.{◌≡◌, ◌≤◌, length, take};
ghost use Rattle.laws.specs.Over.{over};
ghost use Rattle.wire_sender.specs.Sent.{sealed, sent, send_of};

use wire_frames::frame::{DEFAULT_PAYLOAD, FrameBytes};
use wire_frames::sync::Sync;
use wire_numbers::{crc, le};

// The first k bytes, into a room that holds them.
fn copy_out(f: &[u8], k: usize, room: &mut [u8])
    requires { (k ≤ length f.now) × (k ≤ length room.old) }
    ensures { room.new ≡ over (take k f.now) room.old }
{
    room[..k].copy_from_slice(&f[..k]);
}

// AA 55 at the start and the CRC right after n bytes of payload, for one write of the whole.
fn seal(f: &mut FrameBytes, n: usize)
    requires { n ≤ 52 }
    ensures { f.new ≡ sealed n f.old }
{
    f[0] = Sync::VALID.0;
    f[1] = Sync::VALID.1;
    let m = 10 + n;
    let c = le::bytes16(crc::crc16(crc::CRC_INIT, &f[..m]));
    f[m] = c[0];
    f[m + 1] = c[1];
}

// Sends a frame into a lent room: how many bytes. A length above the capacity, or a room too small, sends nothing and changes nothing.
pub fn send(f: &mut FrameBytes, room: &mut [u8]) -> usize
    ensures { sent result f.new room.new ≡ send_of 52 f.old room.old }
{
    let n = le::read16(f[8], f[9]) as usize;
    if DEFAULT_PAYLOAD < n {
        return 0;
    }
    let k = 12 + n;
    if room.len() < k {
        return 0;
    }
    seal(f, n);
    copy_out(f, k, room);
    k
}
