// Translated from tinyboot, lib/core/src/addressing.rs (MIT OR Apache-2.0); changed.

#![tactic(auto)]

ghost use Rattle.std.specs.Prelude.{◌≡◌, ◌&&◌, ◌%◌, ◌^◌, ◌≤◌, ◌<◌, eqb, length, take};
ghost use Rattle.cmd_select.specs.Select.{seed_of, bit_count_of, prefix_of, matches, slot_of, copied, select_of, choice_of};

use wire_frames::frame::FrameBytes;
use wire_numbers::crc;

// Largest unique id, in bytes.
pub const MAX_UID_LEN: usize = 16;

// The difference so far, and that of one byte of the id and of the prefix in its n low bits. The mask is u32: of a byte a shift by 8 is refused.
fn differ(diff: u32, u: u8, p: u8, n: u32) -> u32
    requires { n ≤ 8 }
    ensures { eqb result 0 ≡ (eqb diff 0 && eqb (u % 2 ^ n) (p % 2 ^ n)) }
{
    diff | (((u ^ p) as u32) & (0xFFu32 >> (8 - n)))
}

// One pass compares the prefix and copies the id over it for the reply: a byte of the prefix is read before the byte two places before it is
// written. Bits left after the id mean a prefix longer than the id, which matches nothing.
fn pass(uid: &[u8], f: &mut FrameBytes) -> bool
    requires { length uid.now ≤ 16 }
    ensures { (result ≡ matches (bit_count_of f.old) uid.now (prefix_of f.old)) ×
        (f.new ≡ copied uid.now f.old) }
{
    let mut rem = u32::from(f[11]);
    let mut diff: u32 = 0;
    for (i, &u) in uid.iter().enumerate() {
        let n = rem.min(8);
        diff = differ(diff, u, f[12 + i], n);
        f[10 + i] = u;
        rem -= n;
    }
    diff | rem == 0
}

// The seed picks a window of the id's hash, not the CRC's start: CRC is linear, so two ids' CRCs differ by the same bits whatever the start, and a
// pair that drew one slot would draw it for every seed.
fn slot(seed: u8, uid: &[u8]) -> u8
    ensures { result ≡ slot_of seed uid.now }
{
    let hash = crc::crc16(crc::CRC_INIT, uid);
    let window = hash >> (seed % 16);
    (window % 16) as u8
}

// The seed, read before the id is copied over it. One byte, by a name as the header's fields have theirs.
fn seed_of(f: &FrameBytes) -> u8
    ensures { result ≡ seed_of f.now }
{
    f[10]
}

// The wait before the reply of an id that matches, in byte-times.
fn select_uid(uid: &[u8], f: &mut FrameBytes) -> Option<u8>
    requires { length uid.now ≤ 16 }
    ensures { choice_of result f.new ≡ select_of uid.now f.old }
{
    let seed = seed_of(f);
    if pass(uid, f) {
        return Some(slot(seed, uid));
    }
    None
}

// Handles `Select`: the data area holds seed, bit count, prefix, as it stands, and the id is copied over it, match or not. The id is the first
// `len` bytes of `id`, all 16 if `len` is above 16. A match selects the device, which replies with its id after a wait of so many byte-times; without one it is
// deselected, and silent. A length of 0, the unaddressed device's, never gets here; of no id at all a count of 0 matches.
pub fn select(id: [u8; 16], len: usize, f: &mut FrameBytes) -> Option<u8>
    ensures { choice_of result f.new ≡ select_of (take len id) f.old }
{
    select_uid(&id[..len.min(MAX_UID_LEN)], f)
}
