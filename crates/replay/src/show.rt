// What is printed. Bytes print themselves, as in `bench` and `mend`: a crate for these lines alone, with contracts and edits of its own, would be longer.
use desk_captures::{Fault, fault_number};
use std::io::Write;
use std::{fmt, io};

// Bytes at a line's end, two hexadecimal digits each: behind a blank, where there are any.
#[derive(Clone, Copy)]
struct Tail<'a>(&'a [u8]);

impl<'a> fmt::Display for Tail<'a> {
    fn fmt<W: fmt::Write>(&self, f: &mut fmt::Formatter<W>) -> fmt::Result {
        if !self.0.is_empty() {
            f.write_str(" ")?;
        }
        for b in self.0 {
            write!(f, "{b:02X}")?;
        }
        Ok(())
    }
}

pub(crate) fn counts(out: &mut impl Write, same: u64, more: u64) -> io::Result<()> {
    writeln!(out, "same {same}")?;
    if more > 0 {
        writeln!(out, "more {more}")?;
    }
    Ok(())
}

pub(crate) fn fault(out: &mut impl Write, fault: Fault, at: usize) -> io::Result<()> {
    writeln!(out, "fault {} at {at}", fault_number(fault))
}

// A record that is not the reply of its number, and that reply, which may be none.
pub(crate) fn differs(
    out: &mut impl Write,
    k: u64,
    at: usize,
    record: &[u8],
    reply: &[u8],
) -> io::Result<()> {
    writeln!(out, "differs {k} at {at}")?;
    writeln!(out, "capture{}", Tail(record))?;
    writeln!(out, "module{}", Tail(reply))
}
