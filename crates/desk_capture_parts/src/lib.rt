// A reader that looks at the caller's capture and copies nothing: a struct of slice and place, thin over `desk_captures`. Ours: tinyboot has no captures.

#![tactic(auto)]

ghost use Rattle.std.specs.Prelude.{◌≡◌};
ghost use Rattle.desk_capture_parts.specs.Parts.{taken_of, taken_to};

use desk_captures::{Fault, Record};

// A capture and the place up to which it has been read.
#[derive(Clone, Copy)]
pub struct Capture<'a> {
    pub src: &'a [u8],
    pub at: usize,
}

// What stands at the place; the record's bytes as that very part of the capture, none where no record stands; and the place of what follows, which is the same
// place where none does.
#[derive(Clone, Copy)]
pub struct Taken<'a> {
    pub part: &'a [u8],
    pub found: Result<Option<Record>, Fault>,
    pub next: usize,
}

// A capture from its start on.
pub fn new<'a>(src: &'a [u8]) -> Capture<'a>
    ensures { (result.src ≡ src.entry) × (result.at ≡ 0) }
{
    Capture { src, at: 0 }
}

// The same capture from another place on.
pub fn moved<'a>(c: Capture<'a>, at: usize) -> Capture<'a>
    ensures { (result.src ≡ c.entry.src) × (result.at ≡ at) }
{
    Capture { src: c.src, at }
}

// One step of the reader.
pub fn take<'a>(c: Capture<'a>) -> Taken<'a>
    ensures { taken_to result ≡ taken_of c.entry.src.ref_ptr c.entry.src.now c.entry.at }
{
    let found = desk_captures::next_at(c.src, c.at);
    let part = desk_captures::part_at(c.src, c.at);
    let next = desk_captures::after(c.src, c.at);
    Taken { part, found, next }
}
