// Translated from tinyboot, lib/protocol/src/lib.rs (MIT OR Apache-2.0); changed.

#![tactic(auto)]

pub mod crc;
pub mod le;

ghost use Rattle.std.specs.Prelude.{◌≡◌, ◌*◌, ◌%◌, ◌^◌};
ghost use Rattle.std.specs.Option.{option_map};
ghost use Rattle.wire_numbers.specs.Names.{
  cmd_number,
  cmd_lookup,
  status_number,
  status_lookup,
  mode_number,
};
ghost use Rattle.wire_numbers.specs.Flags.{bit_of, bit_set};
ghost use Rattle.wire_numbers.specs.Version.{packed, unpacked};
ghost use Rattle.wire_numbers.specs.Key.{fnv_step, key_of};

use std::num::wrapping_add_u32;

// Flags of a Write.
#[derive(Clone, Copy, Debug, PartialEq, Eq)]
pub struct WriteFlags {
    pub bits: u8,
}

impl WriteFlags {
    // The rest of the page is written too, and the run ends.
    pub const FLUSH: u8 = 0x80;

    pub fn flush(self) -> bool
        ensures { result ≡ bit_set 7 self.bits }
    {
        self.bits & Self::FLUSH != 0
    }
}

// Flags of a Reset.
#[derive(Clone, Copy, Debug, PartialEq, Eq)]
pub struct ResetFlags {
    pub bits: u8,
}

// How a restart goes on.
#[derive(Clone, Copy, Debug, PartialEq, Eq)]
pub enum RunMode {
    HandOff,
    Service,
}

// A flag is asked by its name, here and of a Write, as upstream does: one question by the mask would put the masks into every caller.
impl ResetFlags {
    // Service follows, not the app.
    pub const BOOTLOADER: u8 = 1;
    // The low address byte is the baud from now on.
    pub const BAUD: u8 = 2;
    // The second address byte is the place in the row from now on. Ours: tinyboot ignores this bit.
    pub const POSITION: u8 = 4;

    pub fn bootloader(self) -> bool
        ensures { result ≡ bit_set 0 self.bits }
    {
        self.bits & Self::BOOTLOADER != 0
    }

    pub fn baud(self) -> bool
        ensures { result ≡ bit_set 1 self.bits }
    {
        self.bits & Self::BAUD != 0
    }

    pub fn position(self) -> bool
        ensures { result ≡ bit_set 2 self.bits }
    {
        self.bits & Self::POSITION != 0
    }

    pub fn run_mode(self) -> RunMode
        ensures { mode_number result ≡ bit_of 0 self.bits }
    {
        if self.bootloader() {
            RunMode::Service
        } else {
            RunMode::HandOff
        }
    }
}

// A version of 16 bits in its parts.
#[derive(Clone, Copy, Debug, PartialEq, Eq)]
pub struct Version {
    pub major: u8,
    pub minor: u8,
    pub patch: u8,
}

pub fn pack_version(major: u8, minor: u8, patch: u8) -> u16
    ensures { result ≡ packed major minor patch }
{
    ((major as u16) << 11) | ((minor as u16) << 6) | (patch as u16)
}

pub fn unpack_version(v: u16) -> Version
    ensures { result ≡ unpacked v }
{
    Version {
        major: (v >> 11) as u8,
        minor: ((v >> 6) % 32) as u8,
        patch: (v % 64) as u8,
    }
}

// Commands, host to device.
#[derive(Clone, Copy, Debug, PartialEq, Eq)]
pub enum Cmd {
    Info,
    Erase,
    Write,
    Verify,
    Reset,
    Select,
}

impl Cmd {
    pub fn to_u8(self) -> u8
        ensures { result ≡ cmd_number self }
    {
        match self {
            Cmd::Info => 0,
            Cmd::Erase => 1,
            Cmd::Write => 2,
            Cmd::Verify => 3,
            Cmd::Reset => 4,
            Cmd::Select => 5,
        }
    }

    pub fn from_u8(b: u8) -> Option<Cmd>
        ensures { option_map cmd_number result ≡ cmd_lookup b }
    {
        match b {
            0 => Some(Cmd::Info),
            1 => Some(Cmd::Erase),
            2 => Some(Cmd::Write),
            3 => Some(Cmd::Verify),
            4 => Some(Cmd::Reset),
            5 => Some(Cmd::Select),
            _ => None,
        }
    }
}

// How a reply went; a request has one too.
#[derive(Clone, Copy, Debug, PartialEq, Eq)]
pub enum Status {
    Request,
    Ok,
    WriteError,
    CrcMismatch,
    AddrOutOfBounds,
    Unsupported,
    PayloadOverflow,
    Incompatible,
}

impl Status {
    pub fn to_u8(self) -> u8
        ensures { result ≡ status_number self }
    {
        match self {
            Status::Request => 0,
            Status::Ok => 1,
            Status::WriteError => 2,
            Status::CrcMismatch => 3,
            Status::AddrOutOfBounds => 4,
            Status::Unsupported => 5,
            Status::PayloadOverflow => 6,
            Status::Incompatible => 7,
        }
    }

    pub fn from_u8(b: u8) -> Option<Status>
        ensures { option_map status_number result ≡ status_lookup b }
    {
        match b {
            0 => Some(Status::Request),
            1 => Some(Status::Ok),
            2 => Some(Status::WriteError),
            3 => Some(Status::CrcMismatch),
            4 => Some(Status::AddrOutOfBounds),
            5 => Some(Status::Unsupported),
            6 => Some(Status::PayloadOverflow),
            7 => Some(Status::Incompatible),
            _ => None,
        }
    }
}

// The key that fits every image: the device then compares none.
pub const COMPAT_UNSET: u32 = 0xFFFF_FFFF;

// The product with the prime, 2^24 + 2^8 + 2^7 + 2^4 + 2 + 1: by shifts and wrapping sums, since the smallest controller has no multiplier.
fn times_prime(h: u32) -> u32
    ensures { result ≡ h * 0x01000193 % 2 ^ 32 }
{
    let a = wrapping_add_u32(h << 24, h << 8);
    let b = wrapping_add_u32(h << 7, h << 4);
    let c = wrapping_add_u32(h << 1, h);
    wrapping_add_u32(wrapping_add_u32(a, b), c)
}

fn fnv_step(h: u32, b: u8) -> u32
    ensures { result ≡ fnv_step h b }
{
    times_prime(h ^ (b as u32))
}

// The key of a name: its FNV-1a hash, and never COMPAT_UNSET.
#[tactic(auto, unfolding(crate::specs::Key::key_of))]
pub fn compat_key(name: &[u8]) -> u32
    ensures { result ≡ key_of name.now }
{
    let mut h: u32 = 0x811C_9DC5;
    for &b in name {
        h = fnv_step(h, b);
    }
    if h == COMPAT_UNSET { h - 1 } else { h }
}
