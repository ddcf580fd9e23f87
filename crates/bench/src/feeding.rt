// Bytes fed to the module, or to the app.
use crate::module::{Bench, lend};
use crate::show::Tail;
use crate::{hearing, silence, starting};
use device_feed::{Passed, feed_in};
use device_replies::numbers_of;
use std::io;
use std::io::Write;
use store_flash::cells::first;

// How many bytes a call took, and whether the rest may be handed in.
#[derive(Clone, Copy)]
struct Called {
    taken: usize,
    more: bool,
}

impl Bench {
    // The call of the one that runs, on what is lent.
    fn fed(&mut self, bytes: &[u8]) -> Passed {
        match self.app {
            Some(version) => self.app_fed(version, bytes),
            None => feed_in(
                self.setup,
                &mut self.state,
                bytes,
                lend(&mut self.flash, self.lent.flash),
                lend(&mut self.record, self.lent.record),
                lend(&mut self.room, self.lent.room),
            ),
        }
    }

    // One call and its line, and what the desk hears of a reply to it.
    fn call(&mut self, bytes: &[u8], out: &mut impl Write) -> io::Result<Called> {
        let p = self.fed(bytes);
        let taken = p.taken;
        let answer = p.answer;
        let said = numbers_of(answer);
        let mode = starting::name(starting::mode_of(said.mode));
        let reason = silence::reason(answer);
        let reply = first(&self.room, said.len);
        write!(out, "{} {taken} {} {} ", said.number, said.len, said.wait)?;
        writeln!(out, "{mode}{reason}{}", Tail(reply))?;
        if self.asks && !reply.is_empty() {
            hearing::hear(&mut self.desk, reply, out)?;
        }
        Ok(Called {
            taken,
            more: said.number < 3,
        })
    }

    // The line `o`.
    pub fn feed_once(&mut self, bytes: &[u8], out: &mut impl Write) -> io::Result<()> {
        self.call(bytes, out)?;
        Ok(())
    }

    // The line `x`: at least one call; then what it did not take is handed in again, until none is left, a restart is due, or a call refuses or takes nothing.
    pub fn feed(&mut self, bytes: &[u8], out: &mut impl Write) -> io::Result<()> {
        let mut rest = bytes;
        // Each call but the last takes a byte.
        for _ in 0..=bytes.len() {
            let c = self.call(rest, out)?;
            if c.taken == 0 || !c.more || rest.len() <= c.taken {
                break;
            }
            rest = &rest[c.taken..];
        }
        Ok(())
    }
}
