// One line of the input, character by character.
use arrayvec::ArrayVec;
use std::fmt;

// The most bytes that a line may have: a setup's, which may do without its last.
const SETUP: usize = 32;

// How many bytes a record has.
const RECORD: usize = 12;

// What a line is.
#[derive(Clone, Copy, Debug, PartialEq, Eq)]
pub enum Order {
    Nothing,
    Setup,
    Record,
}

// Why a line is none.
#[derive(Clone, Copy, Debug, PartialEq, Eq)]
pub enum Fault {
    NoDigit,
    HalfAByte,
    // Of so many bytes, or of more than that.
    WrongLength {
        len: usize,
        long: bool,
        is_setup: bool,
    },
}

impl fmt::Display for Fault {
    fn fmt<W: fmt::Write>(&self, f: &mut fmt::Formatter<W>) -> fmt::Result {
        match self {
            Fault::NoDigit => f.write_str("a character that is no hexadecimal digit"),
            Fault::HalfAByte => f.write_str("half a byte"),
            Fault::WrongLength {
                len,
                long,
                is_setup,
            } => {
                let more = if *long { "more than " } else { "" };
                let wanted = if *is_setup {
                    "a setup has 31 or 32"
                } else {
                    "a record has 12"
                };
                write!(f, "{more}{len} bytes, and {wanted}")
            }
        }
    }
}

#[derive(Drop)]
pub struct Line {
    // Which line of the input it is.
    pub number: u64,
    // It begins with an `s`.
    pub is_setup: bool,
    bytes: ArrayVec<u8, SETUP>,
    // The first digit of a byte.
    high: Option<u8>,
    comment: bool,
    // A character that is no digit.
    strange: bool,
    // More bytes than any line may have.
    long: bool,
}

fn is_blank(c: u8) -> bool {
    matches!(c, b' ' | b'\t' | b'\r')
}

// The value of a hexadecimal digit of either case.
fn value(c: u8) -> Option<u8> {
    match c {
        b'0'..=b'9' => Some(c - b'0'),
        b'A'..=b'F' => Some(c - b'A' + 10),
        b'a'..=b'f' => Some(c - b'a' + 10),
        _ => None,
    }
}

impl Line {
    // The first line.
    pub fn new() -> Line {
        Line {
            number: 1,
            is_setup: false,
            bytes: ArrayVec::new(),
            high: None,
            comment: false,
            strange: false,
            long: false,
        }
    }

    // The line after this one, of which nothing has been read.
    pub fn begin_next(&mut self) {
        self.number = self.number.wrapping_add(1);
        self.is_setup = false;
        self.bytes.clear();
        self.high = None;
        self.comment = false;
        self.strange = false;
        self.long = false;
    }

    pub fn bytes(&self) -> &[u8] {
        &self.bytes
    }

    fn is_empty(&self) -> bool {
        !self.is_setup && !self.strange && self.high.is_none() && self.bytes.is_empty()
    }

    // What it is, or why it is none: the first reason of docs/MEND.md that fits.
    pub fn order(&self) -> Result<Order, Fault> {
        if self.is_empty() {
            return Ok(Order::Nothing);
        }
        if self.strange {
            return Err(Fault::NoDigit);
        }
        if self.high.is_some() {
            return Err(Fault::HalfAByte);
        }
        match (self.long, self.is_setup, self.bytes.len()) {
            (false, true, 31 | SETUP) => Ok(Order::Setup),
            (false, false, RECORD) => Ok(Order::Record),
            (long, is_setup, len) => Err(Fault::WrongLength {
                len,
                long,
                is_setup,
            }),
        }
    }

    fn digit(&mut self, c: u8) {
        match (value(c), self.high) {
            (None, _) => self.strange = true,
            (Some(d), None) => self.high = Some(d),
            (Some(d), Some(high)) => {
                self.high = None;
                if self.bytes.try_push(high << 4 | d).is_err() {
                    self.long = true;
                }
            }
        }
    }

    // One character more, which does not end the line.
    pub fn read(&mut self, c: u8) {
        if self.comment || is_blank(c) {
            return;
        }
        if c == b'#' {
            self.comment = true;
        } else if c == b's' && self.is_empty() {
            self.is_setup = true;
        } else {
            self.digit(c);
        }
    }
}
