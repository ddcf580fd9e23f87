// What `d` shows of the bench.
use crate::module::Bench;
use crate::show::{Hex, Tail};
use std::io;
use std::io::Write;
use store_flash::cells::first;
use store_flash::storage::NONE_PENDING;
use wire_numbers::crc::{CRC_INIT, crc16};

// The length of what is lent, and its CRC.
fn summed(out: &mut impl Write, name: &str, s: &[u8]) -> io::Result<()> {
    let crc = crc16(CRC_INIT, s).to_be_bytes();
    writeln!(out, "{name} {} {}", s.len(), Hex(&crc))
}

impl Bench {
    pub fn show(&self, out: &mut impl Write) -> io::Result<()> {
        let n = self.state.numbers;
        summed(out, "flash", first(&self.flash, self.lent.flash))?;
        writeln!(out, "record{}", Tail(first(&self.record, self.lent.record)))?;
        write!(out, "state {} {} ", n.got, n.fill)?;
        if n.next == NONE_PENDING {
            write!(out, "-")?;
        } else {
            write!(out, "{}", n.next)?;
        }
        writeln!(out, " {} {}", n.selected as u8, !n.closed as u8)?;
        writeln!(out, "data{}", Tail(&self.state.frame[10..62]))?;
        summed(out, "room", first(&self.room, self.lent.room))
    }
}
