// A mend of the record lent, with what was done.
use crate::limits;
use crate::module::{Bench, lend};
use crate::show::Hex;
use device_mend::{ENTRY, MendError, mend};
use std::io;
use std::io::Write;
use store_flash::cells::first;

impl Bench {
    // The line `v`: each entry is a place, the old byte and the new one.
    pub fn mend(&mut self, most: u8, out: &mut impl Write) -> io::Result<()> {
        let mut list = [0; ENTRY * limits::MOST_ENTRIES];
        let said = mend(
            self.setup,
            lend(&mut self.record, self.lent.record),
            lend(&mut list, ENTRY * most as usize),
        );
        match said {
            Ok(count) => {
                write!(out, "mend 0")?;
                for entry in first(&list, ENTRY * count as usize).chunks(ENTRY) {
                    write!(out, " {}", Hex(entry))?;
                }
                writeln!(out)
            }
            Err(MendError::BadSetup) => writeln!(out, "mend 10"),
            Err(MendError::BadRecord) => writeln!(out, "mend 13"),
            Err(MendError::ShortList) => writeln!(out, "mend 27"),
        }
    }
}
