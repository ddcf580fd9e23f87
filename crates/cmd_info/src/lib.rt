// Translated from tinyboot, lib/core/src/protocol.rs (MIT OR Apache-2.0); changed.

#![tactic(auto)]

ghost use Rattle.std.specs.Prelude.{◌≡◌};
ghost use Rattle.cmd_info.specs.Info.{app_version, info_told, info_of, info_laid};

use store_flash::cells::byte_at;
use store_record::boot_meta_store;
use wire_frames::frame::{DEFAULT_PAYLOAD, FrameBytes};
use wire_info::InfoData;
use wire_numbers::le;

// The mode: an app would answer another.
const MODE: u8 = 0;

// The app's version: the two bytes before the stored size.
#[tactic(auto, unfolding(crate::specs::Info::app_version))]
fn app_version(capacity: usize, flash: &[u8], meta: &[u8]) -> u16
    ensures { result ≡ app_version capacity flash.now meta.now }
{
    let size = boot_meta_store::app_size(meta) as usize;
    if size < 2 {
        return 0xFFFF;
    }
    if capacity < size {
        return 0xFFFF;
    }
    le::read16(byte_at(flash, size - 2), byte_at(flash, size - 1))
}

// The reply's bytes over the data area.
fn lay(f: &mut FrameBytes, new: &[u8; 18])
    ensures { f.new ≡ info_laid f.old new.now }
{
    f[10..28].copy_from_slice(new);
}

// The reply to Info of a device of this payload capacity, mode and app version, in the frame's data area. The setup's four numbers come one by one, since a
// bootloader and an app keep them in structs of their own, which stand above this crate.
pub fn tell(
    payload: u16,
    mode: u8,
    app_version: u16,
    capacity: usize,
    erase_size: usize,
    version: u16,
    key: u32,
    f: &mut FrameBytes,
    meta: &[u8],
)
    ensures { f.new ≡ info_laid f.old
        (info_told payload mode app_version capacity erase_size version key meta.now) }
{
    let info = InfoData {
        capacity: (capacity % 0x1_0000_0000) as u32,
        erase_size: (erase_size % 0x1_0000) as u16,
        boot_version: version,
        app_version: app_version,
        mode: mode,
        boot_baud: boot_meta_store::baud(meta),
        compat: key,
        max_payload: payload,
    };
    let new = info.to_bytes();
    lay(f, &new);
}

#[tactic(auto, unfolding(crate::specs::Info::info_of))]
pub fn cmd_info(
    capacity: usize,
    erase_size: usize,
    version: u16,
    key: u32,
    f: &mut FrameBytes,
    flash: &[u8],
    meta: &[u8],
)
    ensures { f.new ≡ info_laid f.old
        (info_of 52 capacity erase_size version key flash.now meta.now) }
{
    let app = app_version(capacity, flash, meta);
    tell(
        DEFAULT_PAYLOAD as u16,
        MODE,
        app,
        capacity,
        erase_size,
        version,
        key,
        f,
        meta,
    );
}
