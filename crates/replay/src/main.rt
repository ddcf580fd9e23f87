// Replays a capture of the wire to a module: docs/REPLAY.md says what it reads and prints.

#![tactic(auto)]

mod judged;
mod module;
mod show;

use crate::module::Module;
use std::io;
use std::io::{BufWriter, Read, Write};

// The longest capture.
const MOST: usize = 1048576;

// What is said where the module has no reply left, and no record differs but perhaps one that it has no reply for.
fn told(out: &mut impl Write, capture: &[u8], m: Module) -> io::Result<()> {
    let j = m.judged;
    if j.differs {
        return Ok(());
    }
    if m.restarted {
        show::counts(out, j.same, j.more)?;
        return writeln!(out, "restart");
    }
    judged::rest(out, capture, j)
}

fn replayed(out: &mut impl Write, capture: &[u8]) -> io::Result<()> {
    let mut flash = [0xFFu8; 16384];
    let mut meta = [0xFFu8; 12];
    let m = module::all(out, capture, &mut flash, &mut meta)?;
    told(out, capture, m)
}

// A capture as it was read, which may be longer than any.
fn judge(out: &mut impl Write, capture: &[u8]) -> io::Result<()> {
    if MOST < capture.len() {
        return writeln!(out, "too long");
    }
    replayed(out, capture)
}

// No more is read than the longest capture and a byte.
fn main(rt: HostRuntime) -> io::Result<()> {
    let mut out = BufWriter::new(rt.alloc(), io::writer(&rt))?;
    let mut capture = Vec::new(rt.alloc());
    rt.stdin().take(MOST as u64 + 1).read_to_end(&mut capture)?;
    judge(&mut out, &capture)?;
    out.flush()
}
