// The calls on captures: each looks at the caller's bytes, copies none of them, and tells what it found in lent bytes.
ghost use Rattle.std.specs.Prelude.{◌≡◌};
ghost use Rattle.c_desk.specs.Captures.{
  told,
  record_of,
  found_bytes,
  c_next,
  compared_number,
  which_number,
  compared_capture,
  compared_place,
  compared_bytes,
  c_compared,
};

use crate::{lay_over, place_bytes};
use desk_captures::{Compared, Fault, Record, Which, fault_number, number_of};

// How many bytes tell what stands at a place, and how two captures compare.
pub const FOUND_SIZE: usize = 24;

pub const COMPARED_SIZE: usize = 16;

// A record's numbers; 0 where none was found.
fn record_of(found: Result<Option<Record>, Fault>) -> Record
    ensures { result ≡ record_of found }
{
    match found {
        Ok(Some(record)) => record,
        Ok(None) | Err(_) => Record {
            mark: 0,
            start: 0,
            len: 0,
        },
    }
}

// What stands at a place, in 24 bytes.
fn found_bytes(found: Result<Option<Record>, Fault>, after: usize) -> [u8; FOUND_SIZE]
    ensures { result ≡ found_bytes found after }
{
    let record = record_of(found);
    let n = record.len;
    let s = place_bytes(record.start);
    let a = place_bytes(after);
    [
        number_of(found),
        record.mark,
        (n % 256) as u8,
        (n / 256 % 256) as u8,
        0,
        0,
        0,
        0,
        s[0],
        s[1],
        s[2],
        s[3],
        s[4],
        s[5],
        s[6],
        s[7],
        a[0],
        a[1],
        a[2],
        a[3],
        a[4],
        a[5],
        a[6],
        a[7],
    ]
}

// Lays what stands at a place of a capture.
pub fn tinyboot_capture_next(capture: &[u8], at: usize, found: &mut [u8]) -> u8
    ensures { told result found.new ≡ c_next capture.now at found.old }
{
    if found.len() < FOUND_SIZE {
        return 14;
    }
    let f = desk_captures::next_at(capture, at);
    let new = found_bytes(f, desk_captures::after(capture, at));
    lay_over(&new, found);
    number_of(f)
}

fn compared_number(c: Compared) -> u8
    ensures { result ≡ compared_number c }
{
    match c {
        Compared::Alike => 0,
        Compared::Differs { .. } => 1,
        Compared::Fault { fault, .. } => fault_number(fault),
    }
}

fn which_number(which: Which) -> u8
    ensures { result ≡ which_number which }
{
    match which {
        Which::First => 1,
        Which::Second => 2,
    }
}

fn compared_capture(c: Compared) -> u8
    ensures { result ≡ compared_capture c }
{
    match c {
        Compared::Alike | Compared::Differs { .. } => 0,
        Compared::Fault { which, .. } => which_number(which),
    }
}

fn compared_place(c: Compared) -> usize
    ensures { result ≡ compared_place c }
{
    match c {
        Compared::Alike => 0,
        Compared::Differs { at } | Compared::Fault { at, .. } => at,
    }
}

// How two captures compare, in 16 bytes.
fn compared_bytes(c: Compared) -> [u8; COMPARED_SIZE]
    ensures { result ≡ compared_bytes c }
{
    let p = place_bytes(compared_place(c));
    [
        compared_number(c),
        compared_capture(c),
        0,
        0,
        0,
        0,
        0,
        0,
        p[0],
        p[1],
        p[2],
        p[3],
        p[4],
        p[5],
        p[6],
        p[7],
    ]
}

// Compares two captures, and lays where the second differs or which fault was met.
pub fn tinyboot_capture_compare(first: &[u8], second: &[u8], compared: &mut [u8]) -> u8
    ensures { told result compared.new ≡ c_compared first.now second.now compared.old }
{
    if compared.len() < COMPARED_SIZE {
        return 14;
    }
    let c = desk_captures::compare(first, second);
    let new = compared_bytes(c);
    lay_over(&new, compared);
    compared_number(c)
}
