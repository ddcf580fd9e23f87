// The bench's captures, read where they lie: what stands at a place of the caller's bytes, each record as that very part of them, and two captures compared.
// Nothing is copied. Ours: tinyboot has no captures.

#![tactic(auto)]

ghost use Rattle.std.specs.Prelude.{◌≡◌};
ghost use Rattle.desk_captures.specs.Captures.{
  is_mark,
  next_at,
  fault_number,
  number_of,
  record_by,
  after_at,
  part_at,
  part_place,
  alike,
  compare_of,
  place_by,
  difference_place,
  difference_of,
};
ghost use Rattle.desk_captures.specs.Inner.{same_at, told_by};

// The first mark byte of a record: it went to the module, or came from it.
pub const TO_MODULE: u8 = 0x3E;

pub const FROM_MODULE: u8 = 0x3C;

// A record: its first mark byte, where its own bytes begin, after the two mark bytes, and how many there are.
#[derive(Clone, Copy, Debug, PartialEq, Eq)]
pub struct Record {
    pub mark: u8,
    pub start: usize,
    pub len: usize,
}

// Why no record stands at a place that is not the end: an unknown mark byte, a count of 0, a record cut short.
#[derive(Clone, Copy, Debug, PartialEq, Eq)]
pub enum Fault {
    UnknownMark,
    CountZero,
    CutShort,
}

// One of two captures that are compared.
#[derive(Clone, Copy, Debug, PartialEq, Eq)]
pub enum Which {
    First,
    Second,
}

// Two captures compared: the second has no record that differs; its first that does, by the place of its mark; or a fault that was met by then, of which
// capture, and the place of its mark. Three answers, and none is the failure of another: a Result would have to name one so.
#[derive(Clone, Copy, Debug, PartialEq, Eq)]
pub enum Compared {
    Alike,
    Differs {
        at: usize,
    },
    Fault {
        which: Which,
        fault: Fault,
        at: usize,
    },
}

fn is_mark(b: u8) -> bool
    ensures { result ≡ is_mark b }
{
    b == TO_MODULE || b == FROM_MODULE
}

// What stands at a place: a record; nothing, at the end and past it; or the fault of the record whose mark stands there.
pub fn next_at(capture: &[u8], at: usize) -> Result<Option<Record>, Fault>
    ensures { result ≡ next_at capture.now at }
{
    if capture.len() <= at {
        return Ok(None);
    }
    let mark = capture[at];
    if !is_mark(mark) {
        return Err(Fault::UnknownMark);
    }
    let left = capture.len() - at;
    if left < 2 {
        return Err(Fault::CutShort);
    }
    let len = capture[at + 1] as usize;
    if len < 1 {
        return Err(Fault::CountZero);
    }
    if left - 2 < len {
        return Err(Fault::CutShort);
    }
    Ok(Some(Record {
        mark,
        start: at + 2,
        len,
    }))
}

// A fault's number, for C and for what is printed.
pub fn fault_number(fault: Fault) -> u8
    ensures { result ≡ fault_number fault }
{
    match fault {
        Fault::UnknownMark => 24,
        Fault::CountZero => 25,
        Fault::CutShort => 26,
    }
}

// What was found, by its number: 0 the end, 1 a record, 24 to 26 a fault.
pub fn number_of(found: Result<Option<Record>, Fault>) -> u8
    ensures { result ≡ number_of found }
{
    match found {
        Ok(None) => 0,
        Ok(Some(_)) => 1,
        Err(fault) => fault_number(fault),
    }
}

// The record at a place, where one stands.
pub fn record_at(capture: &[u8], at: usize) -> Option<Record>
    ensures { result ≡ record_by (next_at capture.now at) }
{
    match next_at(capture, at) {
        Ok(record) => record,
        Err(_) => None,
    }
}

// The place of what follows the record at a place; the same place where none stands.
pub fn after(capture: &[u8], at: usize) -> usize
    ensures { result ≡ after_at capture.now at }
{
    match record_at(capture, at) {
        Some(record) => record.start + record.len,
        None => at,
    }
}

// The bytes of the record at a place, without its mark and count, as that very part of the capture; none where no record stands.
pub fn part_at<'a>(capture: &'a [u8], at: usize) -> &'a [u8]
    ensures { (result.now ≡ part_at capture.now at) × (result.ref_ptr ≡ part_place capture.entry.ref_ptr capture.now at) }
{
    match record_at(capture, at) {
        Some(record) => &capture[record.start..record.start + record.len],
        None => &capture[..0],
    }
}

pub fn same_bytes(p: &[u8], q: &[u8]) -> bool
    ensures { result ≡ alike p.now q.now }
{
    p == q
}

// Whether the same record stands at this place of both.
#[tactic(auto, unfolding(crate::specs::Inner::same_at))]
fn same_at(first: &[u8], second: &[u8], at: usize) -> bool
    ensures { result ≡ same_at first.now second.now at }
{
    let Some(f) = record_at(first, at) else {
        return false;
    };
    let Some(s) = record_at(second, at) else {
        return false;
    };
    f.mark == s.mark && same_bytes(part_at(first, at), part_at(second, at))
}

// What is told where the same record does not stand in both, of what does.
fn told(
    first: Result<Option<Record>, Fault>,
    second: Result<Option<Record>, Fault>,
    at: usize,
) -> Compared
    ensures { result ≡ told_by at first second }
{
    match (first, second) {
        (Err(fault), _) => Compared::Fault {
            which: Which::First,
            fault,
            at,
        },
        (_, Err(fault)) => Compared::Fault {
            which: Which::Second,
            fault,
            at,
        },
        (_, Ok(None)) => Compared::Alike,
        (_, Ok(Some(_))) => Compared::Differs { at },
    }
}

// Two captures compared, record by record. As far as they are the same, what comes next stands at the same place of both.
pub fn compare(first: &[u8], second: &[u8]) -> Compared
    ensures { result ≡ compare_of first.now second.now }
{
    let mut at: usize = 0;
    // a while: where the same stands ends it, and no count
    while same_at(first, second, at) {
        at = after(first, at);
    }
    told(next_at(first, at), next_at(second, at), at)
}

fn place_of(c: Compared, end: usize) -> usize
    ensures { result ≡ place_by end c }
{
    match c {
        Compared::Differs { at } => at,
        Compared::Alike | Compared::Fault { .. } => end,
    }
}

// The record of the second capture where it first differs from the first, as that very part of the second; none where `compare` tells of no such record.
pub fn difference<'a, 'b>(first: &'a [u8], second: &'b [u8]) -> &'b [u8]
    ensures result_value { result.now ≡ difference_of first.now second.now }
    ensures ref_ptr_value { result.ref_ptr ≡ part_place second.entry.ref_ptr second.now (difference_place first.now second.now) }
{
    let c = compare(first, second);
    let at = place_of(c, second.len());
    part_at(second, at)
}
