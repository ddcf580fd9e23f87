// Runs published vectors over the protocol crate and says which differ.

#![tactic(auto)]

use std::io;
use std::io::{BufWriter, Write};
use wire_numbers::crc::crc16;
use wire_numbers::{compat_key, pack_version, unpack_version};
use wire_rates::BaudRate;

// How many vectors ran, and how many of them differ.
#[derive(Drop)]
struct Tally {
    ran: u64,
    differ: u64,
}

// Stands for "none": no index is as large.
const NONE: u64 = 256;

// The rates in index order (tinyboot, lib/protocol/src/lib.rs, `BaudRate`).
const RATES: [u32; 14] = [
    9600, 19200, 38400, 57600, 115200, 230400, 460800, 500000, 921600, 1000000, 1500000, 2000000,
    2500000, 3000000,
];

impl Tally {
    fn count(&mut self, same: bool) {
        self.ran = self.ran.wrapping_add(1);
        self.differ = self.differ.wrapping_add(u64::from(!same));
    }

    // A vector whose source has it in hexadecimal, at so many digits.
    fn hex(
        &mut self,
        out: &mut impl Write,
        name: &str,
        got: u64,
        expected: u64,
        width: usize,
    ) -> io::Result<()> {
        let same = got == expected;
        self.count(same);
        if same {
            return writeln!(out, "ok {name}");
        }
        writeln!(
            out,
            "DIFFERS {name}: got 0x{got:0width$x}, expected 0x{expected:0width$x}"
        )
    }

    // A vector of decimal numbers; its name ends in a number.
    fn decimal(
        &mut self,
        out: &mut impl Write,
        name: &str,
        n: u64,
        got: u64,
        expected: u64,
    ) -> io::Result<()> {
        let same = got == expected;
        self.count(same);
        if same {
            return writeln!(out, "ok {name}{n}");
        }
        writeln!(out, "DIFFERS {name}{n}: got {got}, expected {expected}")
    }

    fn crc(
        &mut self,
        out: &mut impl Write,
        name: &str,
        bytes: &[u8],
        expected: u64,
    ) -> io::Result<()> {
        self.hex(out, name, crc16(0xFFFF, bytes) as u64, expected, 4)
    }

    fn fnv(
        &mut self,
        out: &mut impl Write,
        name: &str,
        bytes: &[u8],
        expected: u64,
    ) -> io::Result<()> {
        self.hex(out, name, compat_key(bytes) as u64, expected, 8)
    }
}

// The CRC RevEng catalogue, CRC-16/IBM-3740 (alias CRC-16/CCITT-FALSE): check 0x29B1, start 0xFFFF.
fn catalogue(out: &mut impl Write, t: &mut Tally) -> io::Result<()> {
    t.crc(out, "crc16 of 123456789", b"123456789", 0x29B1)?;
    t.crc(out, "crc16 of nothing", b"", 0xFFFF)?;
    // Of one letter: the Rust's answer (oracle/tests/values.scn).
    t.crc(out, "crc16 of A", b"A", 0xB915)?;
    // In two parts: the comment on crc16 in tinyboot, lib/protocol/src/crc.rs.
    let first = crc16(0xFFFF, b"1234");
    t.hex(
        out,
        "crc16 of 1234, then 56789",
        crc16(first, b"56789") as u64,
        0x29B1,
        4,
    )
}

// AUTOSAR, Specification of CRC Routines, the table of CRC16 (0x1021, start 0xFFFF, nothing reflected).
fn autosar(out: &mut impl Write, t: &mut Tally) -> io::Result<()> {
    t.crc(out, "crc16 of 00 00 00 00", b"\x00\x00\x00\x00", 0x84C0)?;
    t.crc(out, "crc16 of F2 01 83", b"\xF2\x01\x83", 0xD374)?;
    t.crc(out, "crc16 of 0F AA 00 55", b"\x0F\xAA\x00\x55", 0x2023)?;
    t.crc(out, "crc16 of 00 FF 55 11", b"\x00\xFF\x55\x11", 0xB8F9)?;
    t.crc(
        out,
        "crc16 of 33 22 55 AA BB CC DD EE FF",
        b"\x33\x22\x55\xAA\xBB\xCC\xDD\xEE\xFF",
        0xF53F,
    )?;
    t.crc(out, "crc16 of 92 6B 55", b"\x92\x6B\x55", 0x0745)?;
    t.crc(out, "crc16 of FF FF FF FF", b"\xFF\xFF\xFF\xFF", 0x1D0F)
}

// The FNV reference code, test_fnv.c, 32-bit FNV-1a.
fn reference(out: &mut impl Write, t: &mut Tally) -> io::Result<()> {
    t.fnv(out, "compat_key of nothing", b"", 0x811C9DC5)?;
    t.fnv(out, "compat_key of a", b"a", 0xE40C292C)?;
    t.fnv(out, "compat_key of b", b"b", 0xE70C2DE5)?;
    t.fnv(out, "compat_key of foo", b"foo", 0xA9F37ED7)?;
    t.fnv(out, "compat_key of foobar", b"foobar", 0xBF9CF968)
}

// 01, bench sheet 14.
fn version(out: &mut impl Write, t: &mut Tally) -> io::Result<()> {
    t.decimal(
        out,
        "pack_version of 1.2.3, sheet ",
        14,
        pack_version(1, 2, 3) as u64,
        2179,
    )?;
    let v = unpack_version(2179);
    t.decimal(out, "major of ", 2179, v.major as u64, 1)?;
    t.decimal(out, "minor of ", 2179, v.minor as u64, 2)?;
    t.decimal(out, "patch of ", 2179, v.patch as u64, 3)
}

fn index_of(found: Option<BaudRate>) -> u64 {
    found.map_or(NONE, |rate| rate.to_u8() as u64)
}

fn hz_of(found: Option<BaudRate>) -> u64 {
    found.map_or(0, |rate| rate.hz() as u64)
}

// An index to its rate, and the rate back to the index.
fn rate(out: &mut impl Write, t: &mut Tally, i: u8, hz: u32) -> io::Result<()> {
    t.decimal(
        out,
        "rate of index ",
        i as u64,
        hz_of(BaudRate::from_u8(i)),
        hz as u64,
    )?;
    t.decimal(
        out,
        "index of rate ",
        hz as u64,
        index_of(BaudRate::from_hz(hz)),
        i as u64,
    )
}

fn rates(out: &mut impl Write, t: &mut Tally) -> io::Result<()> {
    for i in 0..14u8 {
        rate(out, t, i, RATES[i as usize])?;
    }
    Ok(())
}

// 01, Record, flash, start: an index of 14 or more has no rate.
fn no_rate(out: &mut impl Write, t: &mut Tally) -> io::Result<()> {
    t.decimal(
        out,
        "no rate of index ",
        14,
        index_of(BaudRate::from_u8(14)),
        NONE,
    )?;
    t.decimal(
        out,
        "no rate of index ",
        255,
        index_of(BaudRate::from_u8(255)),
        NONE,
    )
}

fn main(rt: HostRuntime) -> io::Result<()> {
    let mut out = BufWriter::new(rt.alloc(), io::writer(&rt))?;
    let mut t = Tally { ran: 0, differ: 0 };
    catalogue(&mut out, &mut t)?;
    autosar(&mut out, &mut t)?;
    reference(&mut out, &mut t)?;
    version(&mut out, &mut t)?;
    rates(&mut out, &mut t)?;
    no_rate(&mut out, &mut t)?;
    writeln!(out, "{} vectors, {} differ", t.ran, t.differ)?;
    out.flush()
}
