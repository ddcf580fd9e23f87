// One module on the bench, driven by a script on standard input: docs/BENCH.md has its language.

#![tactic(auto)]

mod app;
mod cutting;
mod digits;
mod dump;
mod fault;
mod feeding;
mod hearing;
mod limits;
mod line;
mod mending;
mod module;
mod numbers;
mod order;
mod rates;
mod script;
mod show;
mod silence;
mod starting;
mod writing;

use crate::module::Bench;
use std::io;
use std::io::{BufReader, BufWriter};

// How much is read at once, and collected before it is written.
const BLOCK: usize = 65536;

fn main(rt: HostRuntime) -> io::Result<()> {
    let mut input = BufReader::with_capacity(rt.alloc(), BLOCK, rt.stdin())?;
    let mut out = BufWriter::with_capacity(rt.alloc(), BLOCK, io::writer(&rt))?;
    let mut bench = Bench::new(vec![in rt.alloc(); 0xFF; limits::FLASH]?);
    script::run(&mut bench, &mut input, &mut out)
}
