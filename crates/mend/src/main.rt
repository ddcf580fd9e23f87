// Mends records for service staff: docs/MEND.md says what it reads and prints.

#![tactic(auto)]

mod line;
mod module;
mod show;
mod tell;

use crate::line::{Line, Order};
use device_state::Setup;
use std::io;
use std::io::{BufWriter, Read, Write};

// Between two characters: the setup in force, and the line under way.
#[derive(Drop)]
struct Reader {
    setup: Setup,
    line: Line,
}

impl Reader {
    // A line as it was read: nothing, a complaint, a setup for the lines below, or a record. A bad setup is one that no module has, so that no record below
    // is judged by the one before.
    fn obey(&mut self, out: &mut impl Write) -> io::Result<()> {
        let number = self.line.number;
        match self.line.order() {
            Ok(Order::Nothing) => {}
            Ok(Order::Setup) => self.setup = module::setup_of(self.line.bytes()),
            Ok(Order::Record) => tell::mended(out, self.setup, number, self.line.bytes())?,
            Err(fault) => {
                writeln!(out, "line {number}: bad: {fault}")?;
                if self.line.is_setup {
                    self.setup.capacity = 0;
                }
            }
        }
        Ok(())
    }

    // What one read brought, line by line.
    fn read(&mut self, part: &[u8], out: &mut impl Write) -> io::Result<()> {
        for c in part {
            if *c == b'\n' {
                self.obey(out)?;
                self.line.begin_next();
            } else {
                self.line.read(*c);
            }
        }
        Ok(())
    }

    // The input to its end. A proved loop has to end, and nothing says that an input does, so the reads are counted up to a number that no run comes to. What
    // has been printed goes out before each.
    fn read_all(&mut self, input: &mut impl Read, out: &mut impl Write) -> io::Result<()> {
        let mut space = [0u8; 4096];
        for _ in 0..u64::MAX {
            out.flush()?;
            let n = input.read(&mut space)?;
            if n == 0 {
                break;
            }
            self.read(&space[..n], out)?;
        }
        self.obey(out)
    }
}

fn main(rt: HostRuntime) -> io::Result<()> {
    let mut out = BufWriter::new(rt.alloc(), io::writer(&rt))?;
    let mut reader = Reader {
        setup: module::listening(),
        line: Line::new(),
    };
    reader.read_all(&mut rt.stdin(), &mut out)?;
    out.flush()
}
