// Bytes of a lent slice of any length. Ours: the Rust reads the record and the flash through pointers.

ghost use Rattle.std.specs.Prelude.{◌≡◌, get_or, take, set};
ghost use Rattle.std.proofs.lemmas.List.Edits.{sets};
ghost use Rattle.store_flash.specs.Flash.{four_at};

use wire_numbers::le;

// A byte past the end reads as an erased cell.
pub fn byte_at(s: &[u8], at: usize) -> u8
    ensures { result ≡ get_or s.now at 0xFF }
{
    s.get(at).copied().unwrap_or(0xFF)
}

// Four bytes from a place on, low byte first. The place is a u32, so that the fourth is in range of a usize.
pub fn four_at(s: &[u8], at: u32) -> u32
    ensures { result ≡ four_at s.now at }
{
    let at = at as usize;
    le::read32(
        byte_at(s, at),
        byte_at(s, at + 1),
        byte_at(s, at + 2),
        byte_at(s, at + 3),
    )
}

// The first n bytes, or all of them where there are fewer.
pub fn first<'a>(s: &'a [u8], n: usize) -> &'a [u8]
    ensures { result.now ≡ take n s.now }
{
    s.get(..n).unwrap_or(s)
}

// A store past the end changes nothing.
pub fn put(s: &mut [u8], at: usize, b: u8)
    ensures { s.new ≡ set s.old at b }
{
    if at < s.len() {
        s[at] = b;
    }
}

// The bytes from the start on, as far as there is room.
pub fn lay(s: &mut [u8], new: &[u8])
    ensures { s.new ≡ sets s.old 0 new.now }
{
    for (i, &b) in new.iter().enumerate() {
        put(s, i, b);
    }
}
