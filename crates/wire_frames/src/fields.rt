// The fields of a frame's 64 bytes. Ours: tinyboot reads the frame through a packed struct.

ghost use Rattle.std.specs.Prelude.{◌≡◌};
ghost use Rattle.wire_frames.specs.Fields.{addr_of, flags_of};

use crate::frame::FrameBytes;
use wire_numbers::le;

pub fn addr(f: &FrameBytes) -> u32
    ensures { result ≡ addr_of f.now }
{
    le::read24(f[4], f[5], f[6])
}

pub fn flags(f: &FrameBytes) -> u8
    ensures { result ≡ flags_of f.now }
{
    f[7]
}
