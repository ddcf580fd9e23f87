// Translated from tinyboot, lib/core/src/protocol.rs (MIT OR Apache-2.0); changed.

#![tactic(auto)]

ghost use Rattle.std.specs.Prelude.{◌≡◌, ◌+◌, ◌^◌, ◌≤◌, ◌<◌, length, take, drop};
ghost use Rattle.std.proofs.Math.Seq.{paste};
ghost use Rattle.laws.specs.Pick.{pick};
ghost use Rattle.wire_numbers.specs.Names.{status_number};
ghost use Rattle.store_flash.specs.Flash.{none_pending};
ghost use Rattle.wire_frames.specs.Fields.{data_of, Ok, WriteError};
ghost use Rattle.cmd_write.specs.Write.{running, page_out, poured, flushed, write_fits, begin, written_of, wrote_to, write_of};

use store_flash::storage;
use store_flash::storage::{NONE_PENDING, PAGE_SIZE, Page};
use store_record::boot_meta_store;
use wire_frames::frame::FrameBytes;
use wire_numbers::{Status, WriteFlags, le};

// The page in 32 bits, in which a run counts: a usize has 64, which a 32-bit controller reckons in two words.
const PAGE: u32 = PAGE_SIZE as u32;

// How far a run is: how many bytes of the page are filled, the address of the next byte, and whether the storage refused a page.
#[derive(Clone, Copy)]
struct Run {
    fill: u32,
    next: u32,
    failed: bool,
}

// What a Write leaves beside the flash and the page.
#[derive(Clone, Copy)]
pub struct Ran {
    pub status: Status,
    pub fill: usize,
    pub next: u32,
}

// The first n bytes of the page are written, to where they belong before the next byte.
fn page_out(w: Run, n: u32, page: &Page, flash: &mut [u8]) -> Run
    requires { n ≤ w.next }
    ensures { running flash.new page.now result.fill result.next result.failed ≡
        page_out 64 n (running flash.old page.now w.fill w.next w.failed) }
{
    let stored = storage::write_part(flash, (w.next - n) as usize, page, n as usize);
    Run {
        fill: 0,
        next: w.next,
        failed: w.failed || stored.is_err(),
    }
}

// m bytes from the i-th on, laid in the page from a place on.
fn lay(page: &mut Page, at: u32, d: &[u8], i: u32, m: u32)
    requires { (at + m ≤ 64) × (i + m ≤ length d.now) × (length d.now ≤ 54) }
    ensures { page.new ≡ paste page.old at (drop i d.now) m }
{
    page[at as usize..(at + m) as usize].copy_from_slice(&d[i as usize..(i + m) as usize]);
}

// m bytes more, from the i-th on, for which the page has room. Page and flash stand beside the run, which goes by value.
fn took(w: Run, d: &[u8], i: u32, m: u32, page: &mut Page, flash: &mut [u8]) -> Run
    requires { (0 < m) × (w.fill + m ≤ 64) × (i + m ≤ length d.now) × (w.fill ≤ w.next) × (w.next < 2 ^ 25) × (length d.now ≤ 54) }
    ensures { running flash.new page.new result.fill result.next result.failed ≡
        poured 64 (running flash.old page.old w.fill w.next w.failed) (take m (drop i d.now)) }
{
    lay(page, w.fill, d, i, m);
    let more = Run {
        fill: w.fill + m,
        next: w.next + m,
        failed: w.failed,
    };
    if more.fill == PAGE {
        return page_out(more, PAGE, page, flash);
    }
    more
}

// The run ends: no write is pending.
fn over(w: Run) -> Run
    ensures { (result.fill ≡ 0) × (result.next ≡ none_pending) × (result.failed ≡ w.failed) }
{
    Run {
        fill: 0,
        next: NONE_PENDING,
        failed: w.failed,
    }
}

// What is left of the page is written, and the run ends.
#[tactic(auto, unfolding(crate::specs::Write::flushed))]
fn flush(w: Run, page: &Page, flash: &mut [u8]) -> Run
    requires { w.fill ≤ w.next }
    ensures { running flash.new page.now result.fill result.next result.failed ≡
        flushed 64 (running flash.old page.now w.fill w.next w.failed) }
{
    if w.fill == 0 {
        return over(w);
    }
    over(page_out(w, w.fill, page, flash))
}

// A frame of a length above 54 has no more data than that.
fn data_of<'a>(f: &'a FrameBytes) -> &'a [u8]
    ensures { result.now ≡ data_of f.now }
{
    let len = le::read16(f[8], f[9]) as usize;
    if len < 54 {
        return &f[10..10 + len];
    }
    &f[10..]
}

// Where a write may stand: with none pending at a page's start, else where the last one ended.
#[tactic(auto, unfolding(crate::specs::Write::write_fits))]
fn fits(capacity: usize, f: &FrameBytes, next: u32) -> bool
    ensures { result ≡ write_fits 64 capacity f.now next }
{
    let addr = le::read24(f[4], f[5], f[6]);
    let len = le::read16(f[8], f[9]);
    // apart from the place: one expression with the choice below in it is no plainer
    if capacity < (addr + len as u32) as usize {
        return false;
    }
    if next == NONE_PENDING {
        return addr % PAGE == 0;
    }
    addr == next
}

fn status_of(failed: bool) -> Status
    ensures { status_number result ≡ pick failed WriteError Ok }
{
    if failed {
        Status::WriteError
    } else {
        Status::Ok
    }
}

// The data: what the page has room for, and then what is left.
fn poured(d: &[u8], start: Run, page: &mut Page, flash: &mut [u8]) -> Run
    requires { (length d.now ≤ 54) × (start.fill < 64) × (start.fill ≤ start.next) × (start.next < 2 ^ 24) }
    ensures { running flash.new page.new result.fill result.next result.failed ≡
        poured 64 (running flash.old page.old start.fill start.next start.failed) d.now }
{
    let mut w = start;
    let n = d.len() as u32;
    let mut i: u32 = 0;
    // a while: a turn takes as many bytes as the page has room for
    while i < n {
        let m = (n - i).min(PAGE - w.fill);
        w = took(w, d, i, m, page, flash);
        i += m;
    }
    w
}

// The bytes of a Write that fits.
#[tactic(auto, unfolding(crate::specs::Write::written_of))]
fn written(f: &FrameBytes, page: &mut Page, flash: &mut [u8]) -> Run
    ensures { running flash.new page.new result.fill result.next result.failed ≡
        written_of 64 f.now (begin 64 f.now flash.old page.old) }
{
    let addr = le::read24(f[4], f[5], f[6]);
    let start = Run {
        fill: addr % PAGE,
        next: addr,
        failed: false,
    };
    let flags = WriteFlags { bits: f[7] };
    let w = poured(data_of(f), start, page, flash);
    if flags.flush() {
        return flush(w, page, flash);
    }
    w
}

// What is taken stays in the page until that is full, or until a Write ends the run. A refusal changes nothing. The run's page, fill and end come one by one:
// the state that holds them stands above this crate.
#[tactic(auto, unfolding(crate::specs::Write::write_of))]
pub fn cmd_write(
    capacity: usize,
    f: &FrameBytes,
    page: &mut Page,
    fill: usize,
    next: u32,
    flash: &mut [u8],
    meta: &[u8],
) -> Ran
    ensures { wrote_to (status_number result.status) flash.new page.new result.fill result.next ≡
        write_of 64 capacity f.now flash.old page.old fill next meta.now }
{
    if boot_meta_store::is_updating(meta) {
        if fits(capacity, f, next) {
            let w = written(f, page, flash);
            return Ran {
                status: status_of(w.failed),
                fill: w.fill as usize,
                next: w.next,
            };
        }
        return Ran {
            status: Status::AddrOutOfBounds,
            fill,
            next,
        };
    }
    Ran {
        status: Status::Unsupported,
        fill,
        next,
    }
}
