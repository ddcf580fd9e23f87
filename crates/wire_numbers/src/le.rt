// Numbers of two, three and four bytes, low byte first. Ours: tinyboot reads them through unions. A function for each size: three bytes are no type of
// their own, and the builds for controllers keep `read32` apart by its name.
ghost use Rattle.std.specs.Prelude.{◌≡◌, [], ◌∷◌};
ghost use Rattle.laws.specs.Low.{low_first, low_bytes};

pub fn read16(b0: u8, b1: u8) -> u16
    ensures { result ≡ low_first (b0 ∷ b1 ∷ []) }
{
    u16::from_le_bytes([b0, b1])
}

pub fn read24(b0: u8, b1: u8, b2: u8) -> u32
    ensures { result ≡ low_first (b0 ∷ b1 ∷ b2 ∷ []) }
{
    u32::from_le_bytes([b0, b1, b2, 0])
}

pub fn read32(b0: u8, b1: u8, b2: u8, b3: u8) -> u32
    ensures { result ≡ low_first (b0 ∷ b1 ∷ b2 ∷ b3 ∷ []) }
{
    u32::from_le_bytes([b0, b1, b2, b3])
}

pub fn bytes16(v: u16) -> [u8; 2]
    ensures { result ≡ low_bytes 2 v }
{
    v.to_le_bytes()
}

pub fn bytes24(v: u32) -> [u8; 3]
    ensures { result ≡ low_bytes 3 v }
{
    let [b0, b1, b2, _] = v.to_le_bytes();
    [b0, b1, b2]
}

pub fn bytes32(v: u32) -> [u8; 4]
    ensures { result ≡ low_bytes 4 v }
{
    v.to_le_bytes()
}
