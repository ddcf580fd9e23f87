// Bytes as they are printed. `mend` and `replay` print few, one at a time, by lines of their own: a crate for all three, with contracts and edits of its own,
// would be longer than they are.
use crate::digits::upper;
use std::{fmt, str};
use store_flash::cells::first;

// How many bytes are made text at once.
const PART: usize = 32;

// Two hexadecimal digits each.
#[derive(Clone, Copy)]
pub struct Hex<'a>(pub &'a [u8]);

// The digits of so many bytes, or of as many as there is room for.
fn lay_digits(bytes: &[u8], room: &mut [u8]) {
    for (pair, b) in room.chunks_exact_mut(2).zip(bytes) {
        pair[0] = upper(b / 16);
        pair[1] = upper(b % 16);
    }
}

impl<'a> fmt::Display for Hex<'a> {
    // A part at a time: a call of the writer for each byte costs more than all else of a line.
    fn fmt<W: fmt::Write>(&self, f: &mut fmt::Formatter<W>) -> fmt::Result {
        for part in self.0.chunks(PART) {
            let mut room = [0u8; 2 * PART];
            lay_digits(part, &mut room);
            let digits = first(&room, 2 * part.len());
            f.write_str(str::from_utf8(digits).map_err(|_| fmt::Error)?)?;
        }
        Ok(())
    }
}

// The same at a line's end: behind a blank, where there are any.
#[derive(Clone, Copy)]
pub struct Tail<'a>(pub &'a [u8]);

impl<'a> fmt::Display for Tail<'a> {
    fn fmt<W: fmt::Write>(&self, f: &mut fmt::Formatter<W>) -> fmt::Result {
        if self.0.is_empty() {
            return Ok(());
        }
        write!(f, " {}", Hex(self.0))
    }
}
