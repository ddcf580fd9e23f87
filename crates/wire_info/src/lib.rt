// Translated from tinyboot, lib/protocol/src/frame.rs (MIT OR Apache-2.0): its `InfoData`; changed: read and laid byte by byte.

#![tactic(auto)]

ghost use Rattle.std.specs.Prelude.{◌≡◌};
ghost use Rattle.wire_info.specs.Info.{info_bytes, info_laid_by, info_read};

use wire_numbers::le;

// What Info replies.
#[derive(Clone, Copy, Debug, PartialEq, Eq)]
pub struct InfoData {
    pub capacity: u32,
    pub erase_size: u16,
    pub boot_version: u16,
    pub app_version: u16,
    pub mode: u8,
    pub boot_baud: u8,
    pub compat: u32,
    pub max_payload: u16,
}

impl InfoData {
    // Bytes on the wire.
    pub const SIZE: u16 = 18;

    // The constant under a contract: its number is proved, not only written.
    pub fn wire_len() -> u16
        ensures { result ≡ info_bytes }
    {
        Self::SIZE
    }

    pub fn to_bytes(self) -> [u8; 18]
        ensures { result ≡ info_laid_by self }
    {
        let c = le::bytes32(self.capacity);
        let e = le::bytes16(self.erase_size);
        let v = le::bytes16(self.boot_version);
        let a = le::bytes16(self.app_version);
        let k = le::bytes32(self.compat);
        let p = le::bytes16(self.max_payload);
        [
            c[0],
            c[1],
            c[2],
            c[3],
            e[0],
            e[1],
            v[0],
            v[1],
            a[0],
            a[1],
            self.mode,
            self.boot_baud,
            k[0],
            k[1],
            k[2],
            k[3],
            p[0],
            p[1],
        ]
    }

    pub fn from_bytes(b: [u8; 18]) -> InfoData
        ensures { result ≡ info_read b }
    {
        InfoData {
            capacity: le::read32(b[0], b[1], b[2], b[3]),
            erase_size: le::read16(b[4], b[5]),
            boot_version: le::read16(b[6], b[7]),
            app_version: le::read16(b[8], b[9]),
            mode: b[10],
            boot_baud: b[11],
            compat: le::read32(b[12], b[13], b[14], b[15]),
            max_payload: le::read16(b[16], b[17]),
        }
    }
}
