// Translated from tinyboot, lib/core/src/protocol.rs (MIT OR Apache-2.0); changed.

#![tactic(auto)]

ghost use Rattle.std.specs.Prelude.{◌≡◌};
ghost use Rattle.wire_numbers.specs.Names.{status_number};
ghost use Rattle.cmd_verify.specs.Verify.{key_at, key_fits, verified_to, verify_of};

use store_flash::cells::{first, four_at};
use store_record::boot_meta_store;
use store_record::traits::BootState;
use wire_frames::fields;
use wire_frames::frame::FrameBytes;
use wire_numbers::{COMPAT_UNSET, Status, crc};

// How a Verify went, and the CRC that it replies: 0 where it is refused.
#[derive(Clone, Copy)]
pub struct Verdict {
    pub status: Status,
    pub crc: u16,
}

// Six bytes before the end: the image's tail starts word-aligned, so an image with a key ends 2 bytes past a word, its key just before its version. Of
// fewer than six bytes it wraps above every capacity.
fn key_place(size: u32) -> u32
    ensures { result ≡ key_at size }
{
    std::num::wrapping_sub_u32(size, 6)
}

// Whether the image is for this device. A test a line, each with its way out: CONTRIBUTING.md reads the proof of it aloud, and one expression is no plainer.
fn key_fits(key: u32, capacity: usize, flash: &[u8], size: u32) -> bool
    ensures { result ≡ key_fits key capacity flash.now size }
{
    if key == COMPAT_UNSET {
        return true;
    }
    let at = key_place(size);
    if at % 4 != 0 {
        return false;
    }
    if capacity <= at as usize {
        return false;
    }
    four_at(flash, at) == key
}

// The address is the size. Nothing is compared with the CRC: the host does that.
#[tactic(auto, unfolding(crate::specs::Verify::verify_of))]
pub fn cmd_verify(
    key: u32,
    capacity: usize,
    f: &FrameBytes,
    flash: &[u8],
    meta: &mut [u8],
) -> Verdict
    ensures { verified_to (status_number result.status) result.crc meta.new ≡
        verify_of key capacity f.now flash.now meta.old }
{
    if !boot_meta_store::is_updating(meta) {
        return Verdict {
            status: Status::Unsupported,
            crc: 0,
        };
    }
    let size = fields::addr(f);
    if size == 0 {
        return Verdict {
            status: Status::AddrOutOfBounds,
            crc: 0,
        };
    }
    if capacity < size as usize {
        return Verdict {
            status: Status::AddrOutOfBounds,
            crc: 0,
        };
    }
    if !key_fits(key, capacity, flash, size) {
        return Verdict {
            status: Status::Incompatible,
            crc: 0,
        };
    }
    let crc = crc::crc16(crc::CRC_INIT, first(flash, size as usize));
    boot_meta_store::refresh(meta, crc, BootState::Validating, size);
    Verdict {
        status: Status::Ok,
        crc: crc,
    }
}
