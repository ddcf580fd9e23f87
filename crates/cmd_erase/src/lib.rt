// Translated from tinyboot, lib/core/src/protocol.rs (MIT OR Apache-2.0); changed.

#![tactic(auto)]

ghost use Rattle.std.specs.Prelude.{◌≡◌};
ghost use Rattle.wire_numbers.specs.Names.{status_number};
ghost use Rattle.cmd_erase.specs.Erase.{byte_count_of, range_fits, readied, erased_to, erase_of};

use store_flash::storage;
use store_record::boot_meta_store;
use store_record::traits::BootState;
use wire_frames::fields;
use wire_frames::frame::FrameBytes;
use wire_numbers::{Status, le};

// How many bytes, also of a frame with less data.
fn byte_count(f: &FrameBytes) -> u16
    ensures { result ≡ byte_count_of f.now }
{
    le::read16(f[10], f[11])
}

// Whole erase blocks, at least one, within the capacity.
#[tactic(auto, unfolding(crate::specs::Erase::range_fits))]
fn in_range(erase_size: usize, capacity: usize, f: &FrameBytes) -> bool
    ensures { result ≡ range_fits erase_size capacity f.now }
{
    let addr = fields::addr(f) as usize;
    let count = byte_count(f) as usize;
    0 < erase_size
        && addr % erase_size == 0
        && count % erase_size == 0
        && count != 0
        && addr + count <= capacity
}

// The record says Updating before a cell is erased.
#[tactic(auto, unfolding(crate::specs::Erase::readied))]
fn ready(meta: &mut [u8])
    ensures { meta.new ≡ readied meta.old }
{
    let state = boot_meta_store::boot_state(meta);
    match state {
        BootState::Idle => boot_meta_store::advance(meta),
        BootState::Validating => {
            boot_meta_store::refresh(meta, 0xFFFF, BootState::Updating, 0xFFFF_FFFF)
        }
        BootState::Updating => {}
    }
}

// A range that does not fit changes nothing, the record neither.
#[tactic(auto, unfolding(crate::specs::Erase::erase_of))]
pub fn cmd_erase(
    erase_size: usize,
    capacity: usize,
    f: &FrameBytes,
    flash: &mut [u8],
    meta: &mut [u8],
) -> Status
    ensures { erased_to (status_number result) flash.new meta.new ≡
        erase_of 64 erase_size capacity f.now flash.old meta.old }
{
    if !in_range(erase_size, capacity, f) {
        return Status::AddrOutOfBounds;
    }
    ready(meta);
    let addr = fields::addr(f) as usize;
    let count = byte_count(f) as usize;
    match storage::erase(flash, addr, addr + count) {
        Ok(()) => Status::Ok,
        Err(_) => Status::WriteError,
    }
}
