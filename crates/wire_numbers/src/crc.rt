// Translated from tinyboot, lib/protocol/src/crc.rs (MIT OR Apache-2.0); changed: all steps of a byte, or of eight, at once.

ghost use Rattle.std.specs.Prelude.{◌≡◌, [], ◌∷◌};
ghost use Rattle.laws.specs.Low.{low_first};
ghost use Rattle.wire_numbers.specs.Crc.{crc_start, crc_from};
ghost use Rattle.wire_numbers.specs.CrcSteps.{crc_byte, crc_bytes, crc_long};

use crate::le::read32;

// The register's value before the first byte.
pub const CRC_INIT: u16 = 0xFFFF;

// The constant under a contract: its number is proved, not only written.
pub fn crc_start() -> u16
    ensures { result ≡ crc_start }
{
    CRC_INIT
}

// One byte more.
fn byte(crc: u16, b: u8) -> u16
    ensures { result ≡ crc_byte crc b }
{
    let v = crc ^ ((b as u16) << 8);
    let x = (v >> 8) ^ (v >> 12);
    (v << 8) ^ (x << 12) ^ (x << 5) ^ x
}

// The steps of eight bytes that were xored to the register, which stands at the high end: a division by the polynomial, which has so few terms that the
// quotient is a handful of shifts.
fn long(h: u64) -> u16
    ensures { result ≡ crc_long h }
{
    let a = h ^ (h >> 4) ^ (h >> 11) ^ (h >> 16);
    let b = a ^ (a >> 8) ^ (a >> 22) ^ (a >> 32);
    let d = b ^ (b >> 16) ^ (b >> 44);
    let e = d ^ (d >> 32);
    ((e ^ (e << 5) ^ (e << 12)) % 65536) as u16
}

// Eight bytes as one number, the first at its high end. Added in pairs: so the compiler finds that it is one load.
fn high_first(b0: u8, b1: u8, b2: u8, b3: u8, b4: u8, b5: u8, b6: u8, b7: u8) -> u64
    ensures { result ≡ low_first (b7 ∷ b6 ∷ b5 ∷ b4 ∷ b3 ∷ b2 ∷ b1 ∷ b0 ∷ []) }
{
    let v = (b0 as u64) * 0x0100_0000_0000_0000 + (b1 as u64) * 0x1_0000_0000_0000;
    let w = (b2 as u64) * 0x0100_0000_0000 + (b3 as u64) * 0x1_0000_0000;
    let x = (b4 as u64) * 0x0100_0000 + (b5 as u64) * 0x1_0000;
    let y = (b6 as u64) * 0x0100 + (b7 as u64);
    (v + w) + (x + y)
}

// Eight bytes more, each by itself: what is in registers already is not stored to be an array.
fn eight(crc: u16, b0: u8, b1: u8, b2: u8, b3: u8, b4: u8, b5: u8, b6: u8, b7: u8) -> u16
    ensures { result ≡ crc_bytes crc (b0 ∷ b1 ∷ b2 ∷ b3 ∷ b4 ∷ b5 ∷ b6 ∷ b7 ∷ []) }
{
    long(((crc as u64) << 48) ^ high_first(b0, b1, b2, b3, b4, b5, b6, b7))
}

// These bytes, one by one.
fn rest(crc: u16, bytes: &[u8]) -> u16
    ensures { result ≡ crc_bytes crc bytes.now }
{
    let mut c = crc;
    for b in bytes {
        c = byte(c, *b);
    }
    c
}

// Four bytes more.
fn four(crc: u16, b0: u8, b1: u8, b2: u8, b3: u8) -> u16
    ensures { result ≡ crc_bytes crc (b0 ∷ b1 ∷ b2 ∷ b3 ∷ []) }
{
    long(((crc as u64) << 16) ^ (read32(b3, b2, b1, b0) as u64))
}

// A few bytes. Their slice is made anew for each call: one that is handed on as it came the compiler keeps in memory.
fn few(crc: u16, bytes: &[u8]) -> u16
    ensures { result ≡ crc_bytes crc bytes.now }
{
    if bytes.len() < 4 {
        return rest(crc, &bytes[0..]);
    }
    let c = four(crc, bytes[0], bytes[1], bytes[2], bytes[3]);
    rest(c, &bytes[4..])
}

// The register `crc` after these bytes. To take up a message in parts, pass the last result on.
pub fn crc16(crc: u16, bytes: &[u8]) -> u16
    ensures { result ≡ crc_from crc bytes.now }
{
    let mut c = crc;
    let mut i = 0;
    // Eight places by their index: so the compiler makes one load of them (`high_first`), and a part by `chunks_exact` would stand behind an Option.
    while bytes.len() - i >= 8 {
        c = eight(
            c,
            bytes[i],
            bytes[i + 1],
            bytes[i + 2],
            bytes[i + 3],
            bytes[i + 4],
            bytes[i + 5],
            bytes[i + 6],
            bytes[i + 7],
        );
        i += 8;
    }
    few(c, &bytes[i..])
}

// The same, a byte at a time: for a machine of 32 bits, or where code has to be small.
pub fn crc16_by_byte(crc: u16, bytes: &[u8]) -> u16
    ensures { result ≡ crc_from crc bytes.now }
{
    rest(crc, bytes)
}
