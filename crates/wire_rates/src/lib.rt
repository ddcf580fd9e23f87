// The rates of the wire. Translated from tinyboot, lib/protocol/src/lib.rs (MIT OR Apache-2.0); changed.

#![tactic(auto)]

ghost use Rattle.std.specs.Prelude.{◌≡◌, ◌==◌, find};
ghost use Rattle.std.specs.Option.{option_map};
ghost use Rattle.wire_rates.specs.declared.BaudRate.{BaudRate};
ghost use Rattle.wire_rates.specs.Baud.{baud_index, baud_lookup, hz_of, hz_lookup};

// UART rates. A rate stands for its index on the wire and in the record.
#[derive(Clone, Copy, Debug, PartialEq, Eq)]
pub enum BaudRate {
    B9600,
    B19200,
    B38400,
    B57600,
    B115200,
    B230400,
    B460800,
    B500000,
    B921600,
    B1000000,
    B1500000,
    B2000000,
    B2500000,
    B3000000,
}

impl BaudRate {
    // Every rate, in index order.
    pub const ALL: [BaudRate; 14] = [
        BaudRate::B9600,
        BaudRate::B19200,
        BaudRate::B38400,
        BaudRate::B57600,
        BaudRate::B115200,
        BaudRate::B230400,
        BaudRate::B460800,
        BaudRate::B500000,
        BaudRate::B921600,
        BaudRate::B1000000,
        BaudRate::B1500000,
        BaudRate::B2000000,
        BaudRate::B2500000,
        BaudRate::B3000000,
    ];

    // Bits per second. This table and the next stand apart: one of pairs would be searched for what a match names at once.
    pub fn hz(self) -> u32
        ensures { result ≡ hz_of self }
    {
        match self {
            BaudRate::B9600 => 9600,
            BaudRate::B19200 => 19200,
            BaudRate::B38400 => 38400,
            BaudRate::B57600 => 57600,
            BaudRate::B115200 => 115_200,
            BaudRate::B230400 => 230_400,
            BaudRate::B460800 => 460_800,
            BaudRate::B500000 => 500_000,
            BaudRate::B921600 => 921_600,
            BaudRate::B1000000 => 1_000_000,
            BaudRate::B1500000 => 1_500_000,
            BaudRate::B2000000 => 2_000_000,
            BaudRate::B2500000 => 2_500_000,
            BaudRate::B3000000 => 3_000_000,
        }
    }

    pub fn to_u8(self) -> u8
        ensures { result ≡ baud_index self }
    {
        match self {
            BaudRate::B9600 => 0,
            BaudRate::B19200 => 1,
            BaudRate::B38400 => 2,
            BaudRate::B57600 => 3,
            BaudRate::B115200 => 4,
            BaudRate::B230400 => 5,
            BaudRate::B460800 => 6,
            BaudRate::B500000 => 7,
            BaudRate::B921600 => 8,
            BaudRate::B1000000 => 9,
            BaudRate::B1500000 => 10,
            BaudRate::B2000000 => 11,
            BaudRate::B2500000 => 12,
            BaudRate::B3000000 => 13,
        }
    }

    // The rate with an index.
    pub fn from_u8(v: u8) -> Option<BaudRate>
        ensures { option_map baud_index result ≡ baud_lookup v }
    {
        Self::ALL.get(v as usize).copied()
    }

    // The rate of so many bits per second.
    pub fn from_hz(hz: u32) -> Option<BaudRate>
        ensures { option_map baud_index result ≡ hz_lookup hz }
    {
        first_of(&Self::ALL, hz)
    }
}

// The first of these rates that has so many bits per second.
fn first_of(rates: &[BaudRate], hz: u32) -> Option<BaudRate>
    ensures { result ≡ find (λ (r : BaudRate). hz_of r == hz) rates.now }
{
    rates.iter().copied().find(|rate| rate.hz() == hz)
}
