// Translated from tinyboot, ch32/src/platform/storage.rs (MIT OR Apache-2.0); changed: the flash is a lent array, and the tests that the Rust makes
// only in a debug build are made always.

ghost use Rattle.std.specs.Prelude.{◌≡◌, ◌+◌, ◌-◌, ◌≤◌, length, take};
ghost use Rattle.store_flash.specs.Flash.{written, erased, leaves, page_written, pages_erased};

use crate::cells::first;

pub const PAGE_SIZE: usize = 64;

// No write is pending: the next may start at any page. No address is that large.
pub const NONE_PENDING: u32 = 0xFFFF_FFFF;

// A page under way.
pub type Page = [u8; PAGE_SIZE];

// Why the storage refused a write or an erase: it then changes no cell.
#[derive(Clone, Copy, Debug, PartialEq, Eq)]
pub enum FlashError {
    NotAligned,
    OutOfBounds,
}

// The cells from at on: a write can only clear bits. It counts in 32 bits, at most a page: a usize has 64, which a 32-bit controller reckons in two words.
fn program(flash: &mut [u8], at: usize, bytes: &[u8])
    requires { (at + length bytes.now ≤ length flash.old) × (length bytes.now ≤ 64) }
    ensures { flash.new ≡ written flash.old at bytes.now }
{
    for j in 0..bytes.len() as u32 {
        flash[at + j as usize] &= bytes[j as usize];
    }
}

fn blank(flash: &mut [u8], from: usize, to: usize)
    requires { to ≤ length flash.old }
    ensures { flash.new ≡ erased flash.old from (to - from) }
{
    for k in from..to {
        flash[k] = 0xFF;
    }
}

// At most a page, from the start of a page.
#[tactic(auto, unfolding(crate::specs::Flash::page_written))]
pub fn write(flash: &mut [u8], offset: usize, bytes: &[u8]) -> Result<(), FlashError>
    ensures { leaves result flash.new ≡ page_written 64 flash.old offset bytes.now }
{
    if offset % PAGE_SIZE != 0 {
        return Err(FlashError::NotAligned);
    }
    let n = bytes.len();
    if PAGE_SIZE < n {
        return Err(FlashError::NotAligned);
    }
    // offset + n itself may not fit a usize
    if flash.len() < n {
        return Err(FlashError::OutOfBounds);
    }
    if flash.len() - n < offset {
        return Err(FlashError::OutOfBounds);
    }
    program(flash, offset, bytes);
    Ok(())
}

// The same of the first n bytes, or of all where there are fewer.
pub fn write_part(flash: &mut [u8], offset: usize, bytes: &[u8], n: usize) -> Result<(), FlashError>
    ensures { leaves result flash.new ≡ page_written 64 flash.old offset (take n bytes.now) }
{
    let part = first(bytes, n);
    write(flash, offset, part)
}

// Whole pages.
#[tactic(auto, unfolding(crate::specs::Flash::pages_erased))]
pub fn erase(flash: &mut [u8], from: usize, to: usize) -> Result<(), FlashError>
    ensures { leaves result flash.new ≡ pages_erased 64 flash.old from to }
{
    if from % PAGE_SIZE != 0 {
        return Err(FlashError::NotAligned);
    }
    if to % PAGE_SIZE != 0 {
        return Err(FlashError::NotAligned);
    }
    if flash.len() < to {
        return Err(FlashError::OutOfBounds);
    }
    blank(flash, from, to);
    Ok(())
}
