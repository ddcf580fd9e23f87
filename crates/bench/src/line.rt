// One line of the script, character by character. Blanks and comments are passed over and never kept, so they may be of any length.
ghost use Rattle.std.specs.Prelude.{◌≤◌, length};

use crate::fault::Fault;
use crate::limits::LINE;
use crate::order::Order;
use crate::{digits, limits};
use arrayvec::ArrayVec;
use std::io;
use std::io::{BufRead, BufReader, Read};
use store_flash::cells::first;

// As far as the line has been read.
#[derive(Drop)]
pub struct Line {
    // Which line of the script it is.
    pub number: u64,
    // None while there is nothing on it but blanks.
    letter: Option<u8>,
    // The bytes that it carries; of a text, its characters.
    bytes: ArrayVec<u8, LINE>,
    // How many of them count: of a text, those up to the last that is no blank.
    len: usize,
    // The first digit of a pair.
    high: Option<u8>,
    comment: bool,
    // A CR that may turn out to stand before the line's end.
    cr: bool,
    // A character that is no digit.
    strange: bool,
    // More than a line carries.
    long: bool,
}

fn is_blank(c: u8) -> bool {
    matches!(c, b' ' | b'\t')
}

impl Line {
    pub fn new() -> Line {
        Line {
            number: 0,
            letter: None,
            bytes: ArrayVec::new(),
            len: 0,
            high: None,
            comment: false,
            cr: false,
            strange: false,
            long: false,
        }
    }

    // The line of this number, of which nothing has been read.
    fn begin(&mut self, number: u64) {
        self.number = number;
        self.letter = None;
        self.bytes.clear();
        self.len = 0;
        self.high = None;
        self.comment = false;
        self.cr = false;
        self.strange = false;
        self.long = false;
    }

    // The bytes that count.
    pub fn carried(&self) -> &[u8] {
        first(&self.bytes, self.len)
    }

    // What was wrong with its characters.
    fn spoilt(&self) -> Option<Fault> {
        if self.strange {
            return Some(Fault::NoDigit);
        }
        if self.high.is_some() {
            return Some(Fault::HalfAByte);
        }
        if self.long {
            return Some(Fault::TooMany);
        }
        None
    }

    // What the line asks for, where the app runs or does not: None on an empty line.
    pub fn order(&self, runs: bool) -> Option<Result<Order, Fault>> {
        let letter = self.letter?;
        match limits::order_of(runs, letter, self.carried()) {
            Err(Fault::NoSuchLetter) => Some(Err(Fault::NoSuchLetter)),
            order => match self.spoilt() {
                Some(fault) => Some(Err(fault)),
                None => Some(order),
            },
        }
    }

    // A text keeps the blanks inside it. What stands past its last place is too much only if it is no blank.
    fn text(&mut self, c: u8) {
        let blank = is_blank(c);
        if blank && self.bytes.is_empty() {
            return;
        }
        let fits = self.bytes.try_push(c).is_ok();
        if blank {
            return;
        }
        if fits {
            self.len = self.bytes.len();
        } else {
            self.long = true;
        }
    }

    fn digit(&mut self, c: u8) {
        match (digits::value(c), self.high) {
            (None, _) => self.strange = true,
            (Some(d), None) => self.high = Some(d),
            (Some(d), Some(high)) => {
                self.high = None;
                if self.bytes.try_push(digits::byte(high, d)).is_err() {
                    self.long = true;
                }
                self.len = self.bytes.len();
            }
        }
    }

    // A character that is no CR before the line's end.
    fn step(&mut self, c: u8) {
        if self.comment {
            return;
        }
        if c == b'#' {
            self.comment = true;
            return;
        }
        match self.letter {
            Some(b't') => self.text(c),
            _ if is_blank(c) => {}
            None => self.letter = Some(c),
            Some(_) => self.digit(c),
        }
    }

    // One character more. A CR waits for the next one, and if there is one, does not stand before the line's end.
    fn read(&mut self, c: u8) {
        if self.cr {
            self.cr = false;
            self.step(b'\r');
        }
        if c == b'\r' {
            self.cr = true;
        } else {
            self.step(c);
        }
    }

    // A part of the input, up to the line's end if it is there: how much of it is used up, and whether the line has ended.
    fn scan(&mut self, part: &[u8]) -> (usize, bool)
        ensures { result.0 ≤ length part.now }
    {
        for (i, c) in part.iter().enumerate() {
            if *c == b'\n' {
                return (i + 1, true);
            }
            self.read(*c);
        }
        (part.len(), false)
    }

    // The next line, and whether it is the last. A proved loop has to end, and a line may be of any length, so the reads are counted up to a number that no
    // run comes to.
    pub fn next<R: Read>(&mut self, number: u64, input: &mut BufReader<R>) -> io::Result<bool> {
        self.begin(number);
        for _ in 0..u64::MAX {
            let part = input.fill_buf()?;
            if part.is_empty() {
                break;
            }
            let (taken, ended) = self.scan(part);
            input.consume(taken);
            if ended {
                return Ok(false);
            }
        }
        Ok(true)
    }
}
