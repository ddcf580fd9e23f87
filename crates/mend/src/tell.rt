// What is said of a record: what was mended, and what a start would say.
use crate::show::Hex;
use device_early::{Outlook, early};
use device_mend::{ENTRIES, ENTRY, MendError, mend, mend_number};
use device_state::{CAREFUL, PRESENT, Setup};
use std::io::Write;
use std::{fmt, io};
use store_flash::cells::{byte_at, first, lay};
use store_record::boot_meta_store::starts_left;
use store_record::rewrite::RECORD;
use store_record::traits::BootState;
use wire_numbers::RunMode;

// A byte that has changed.
#[derive(Clone, Copy)]
struct Changed {
    place: u8,
    old: u8,
    new: u8,
}

fn name(place: u8) -> &'static str {
    match place {
        0 => "state",
        1 => "trials",
        2 | 3 => "checksum",
        _ => "size",
    }
}

fn starts(left: u32) -> &'static str {
    match left {
        1 => "one start",
        2 => "two starts",
        3 => "three starts",
        4 => "four starts",
        5 => "five starts",
        6 => "six starts",
        _ => "seven starts",
    }
}

fn state(old: u8) -> &'static str {
    match BootState::from_u8(old) {
        BootState::Updating => "Updating, as it was read before",
        _ => "Updating, since no image has the size stored",
    }
}

impl fmt::Display for Changed {
    fn fmt<W: fmt::Write>(&self, f: &mut fmt::Formatter<W>) -> fmt::Result {
        write!(f, "byte {}, {}: ", self.place, name(self.place))?;
        write!(f, "{:02X} to {:02X}, ", self.old, self.new)?;
        match self.place {
            0 => f.write_str(state(self.old)),
            1 => write!(f, "{} left as before", starts(starts_left(self.old))),
            _ => f.write_str("none stored"),
        }
    }
}

fn head(out: &mut impl Write, count: u8) -> io::Result<()> {
    match count {
        0 => writeln!(out, "nothing to mend"),
        1 => writeln!(out, "1 byte mended"),
        _ => writeln!(out, "{count} bytes mended"),
    }
}

// What a start of this kind would say now, asked to hand off.
fn outlook(setup: Setup, kind: u8, meta: &[u8]) -> &'static str {
    let mut setup = setup;
    setup.start_kind = kind;
    match early(setup, RunMode::HandOff, meta) {
        Ok(Outlook::Stays) => "stays",
        Ok(Outlook::ReadsOn) => "reads on",
        Err(_) => "is refused",
    }
}

fn done(out: &mut impl Write, setup: Setup, count: u8, meta: &[u8], list: &[u8]) -> io::Result<()> {
    head(out, count)?;
    for entry in first(list, ENTRY * count as usize).chunks(ENTRY) {
        let changed = Changed {
            place: byte_at(entry, 0),
            old: byte_at(entry, 1),
            new: byte_at(entry, 2),
        };
        writeln!(out, "{changed}")?;
    }
    writeln!(out, "record {}", Hex(meta))?;
    writeln!(out, "present start: {}", outlook(setup, PRESENT, meta))?;
    writeln!(out, "careful start: {}", outlook(setup, CAREFUL, meta))
}

// A refusal: of the setup, since record and list have the right lengths here.
fn refused(out: &mut impl Write, why: MendError) -> io::Result<()> {
    let number = mend_number(Err(why));
    writeln!(out, "not mended: no good setup ({number})")
}

// A record, mended, and what was done.
pub(crate) fn mended(
    out: &mut impl Write,
    setup: Setup,
    number: u64,
    bytes: &[u8],
) -> io::Result<()> {
    let mut meta = [0xFFu8; RECORD];
    let mut list = [0u8; ENTRY * ENTRIES];
    lay(&mut meta, bytes);
    write!(out, "line {number}: ")?;
    match mend(setup, &mut meta, &mut list) {
        Ok(count) => done(out, setup, count, &meta, &list),
        Err(why) => refused(out, why),
    }
}
