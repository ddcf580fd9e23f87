// Numbers in the bytes of a line.
ghost use Rattle.std.specs.Prelude.{◌≡◌, ◌<◌};
ghost use Rattle.bench.specs.Numbers.{at2, at4};

use store_flash::cells::{byte_at, four_at};
use wire_numbers::le;

pub(crate) fn two(bytes: &[u8], at: usize) -> u16
    requires { at < 4096 }
    ensures { result ≡ at2 bytes.now at }
{
    le::read16(byte_at(bytes, at), byte_at(bytes, at + 1))
}

pub(crate) fn four(bytes: &[u8], at: usize) -> u32
    requires { at < 4096 }
    ensures { result ≡ at4 bytes.now at }
{
    four_at(bytes, at as u32)
}
