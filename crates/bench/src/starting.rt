// A start of the module, and what the record alone says of one.
use crate::module::{Bench, lend};
use device_early::{EarlyError, Outlook, early};
use device_start::start;
use device_state::refusal::refusal_number;
use std::io;
use std::io::Write;
use store_flash::cells::first;
use wire_numbers::RunMode;

pub(crate) fn mode_of(b: u8) -> RunMode {
    match b {
        0 => RunMode::HandOff,
        _ => RunMode::Service,
    }
}

pub(crate) fn name(mode: RunMode) -> &'static str {
    match mode {
        RunMode::HandOff => "handoff",
        RunMode::Service => "service",
    }
}

impl Bench {
    // The line `b`: the refusal's number, or the mode.
    pub fn start(&mut self, asked: RunMode, out: &mut impl Write) -> io::Result<()> {
        let flash = first(&self.flash, self.lent.flash);
        let s = start(
            self.setup,
            asked,
            flash,
            lend(&mut self.record, self.lent.record),
        );
        let refusal = s.refusal;
        let decision = s.mode;
        self.adopt(s.state);
        match refusal {
            None => writeln!(out, "start {}", name(decision)),
            Some(why) => writeln!(out, "start {}", refusal_number(why)),
        }
    }

    // The line `e`.
    pub fn early(&self, asked: RunMode, out: &mut impl Write) -> io::Result<()> {
        match early(self.setup, asked, first(&self.record, self.lent.record)) {
            Ok(Outlook::ReadsOn) => writeln!(out, "early reads on"),
            Ok(Outlook::Stays) => writeln!(out, "early stays"),
            Err(EarlyError::BadSetup) => writeln!(out, "early 10"),
            Err(EarlyError::BadRecord) => writeln!(out, "early 13"),
        }
    }
}
