// Translated from tinyboot, lib/protocol/src/sync.rs (MIT OR Apache-2.0); changed.

ghost use Rattle.std.specs.Prelude.{◌≡◌};
ghost use Rattle.wire_frames.specs.Stored.{hunted_of};

// The two bytes that a frame starts with.
#[derive(Clone, Copy, Debug, PartialEq, Eq)]
pub struct Sync(pub u8, pub u8);

impl Sync {
    pub const VALID: Sync = Sync(0xAA, 0x55);
}

// Hunting: how many bytes of the sync word have come after one more, of which `got` had come before it. Test by test, as the definition has them.
pub fn hunted(got: usize, b: u8) -> usize
    ensures { result ≡ hunted_of got b }
{
    if got == 1 {
        if b == Sync::VALID.1 {
            return 2;
        }
        if b == Sync::VALID.0 {
            return 1;
        }
        return 0;
    }
    if b == Sync::VALID.0 {
        return 1;
    }
    0
}
