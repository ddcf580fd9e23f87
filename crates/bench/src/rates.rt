// The app's own calls on the record lent: the confirm, and the rate that the bootloader listens at.
use crate::module::{Bench, lend};
use app_record::{BadRecord, baud, confirm, set_baud, stored_number};
use std::io;
use std::io::Write;
use store_flash::cells::first;
use wire_rates::BaudRate;

// The rate of an index, which a line within its limits has.
pub(crate) fn rate_of(index: u8) -> BaudRate {
    BaudRate::from_u8(index).unwrap_or(BaudRate::B9600)
}

impl Bench {
    // The line `k`.
    pub fn confirm(&mut self, out: &mut impl Write) -> io::Result<()> {
        let stored = confirm(lend(&mut self.record, self.lent.record));
        writeln!(out, "confirm {}", stored_number(stored))
    }

    // The line `g`.
    pub fn store_rate(&mut self, rate: BaudRate, out: &mut impl Write) -> io::Result<()> {
        let stored = set_baud(lend(&mut self.record, self.lent.record), rate);
        writeln!(out, "baud {}", stored_number(stored))
    }

    // The line `y`: the bits per second, or the refusal's number.
    pub fn read_rate(&self, default: BaudRate, out: &mut impl Write) -> io::Result<()> {
        match baud(first(&self.record, self.lent.record), default) {
            Ok(rate) => writeln!(out, "rate {}", rate.hz()),
            Err(BadRecord) => writeln!(out, "rate 13"),
        }
    }
}
