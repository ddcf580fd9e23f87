// Why a line is none, and the words for it. docs/BENCH.md has them, in the order in which they are looked for.
use std::fmt;

#[derive(Clone, Copy, Debug, PartialEq, Eq)]
pub enum Fault {
    NoSuchLetter,
    NoDigit,
    HalfAByte,
    TooFew,
    TooMany,
    MoreThan(usize),
    PastByte(usize),
    NoSuchField,
    NoSuchMode,
    NoSuchRate,
    NoSuchCommand,
}

impl fmt::Display for Fault {
    fn fmt<W: fmt::Write>(&self, f: &mut fmt::Formatter<W>) -> fmt::Result {
        match self {
            Fault::NoSuchLetter => f.write_str("no such letter"),
            Fault::NoDigit => f.write_str("no digit"),
            Fault::HalfAByte => f.write_str("half a byte"),
            Fault::TooFew => f.write_str("too few bytes"),
            Fault::TooMany => f.write_str("too many bytes"),
            Fault::MoreThan(most) => write!(f, "more than {most}"),
            Fault::PastByte(end) => write!(f, "past byte {end}"),
            Fault::NoSuchField => f.write_str("no such field"),
            Fault::NoSuchMode => f.write_str("no such mode"),
            Fault::NoSuchRate => f.write_str("no such rate"),
            Fault::NoSuchCommand => f.write_str("no such command"),
        }
    }
}
