// Translated from tinyboot, lib/core/src/traits.rs (MIT OR Apache-2.0); changed.

ghost use Rattle.std.specs.Prelude.{◌≡◌};
ghost use Rattle.store_record.specs.State.{state_byte, state_read, app_present};

use store_flash::cells::four_at;

// The stages of an update. Each byte is the one before with a 1 cleared: x & x >> 1.
#[derive(Clone, Copy, Debug, PartialEq, Eq)]
pub enum BootState {
    Idle,
    Updating,
    Validating,
}

impl BootState {
    // A byte that is none of the three reads as Updating: what is not known to be whole does not start.
    #[tactic(auto, unfolding(crate::specs::State::state_read))]
    pub fn from_u8(v: u8) -> BootState
        ensures { state_byte result ≡ state_read v }
    {
        match v {
            0xFF => BootState::Idle,
            0x3F => BootState::Validating,
            _ => BootState::Updating,
        }
    }

    pub fn to_u8(self) -> u8
        ensures { result ≡ state_byte self }
    {
        match self {
            BootState::Idle => 0xFF,
            BootState::Updating => 0x7F,
            BootState::Validating => 0x3F,
        }
    }
}

// Whether the first word is programmed: the only sign of an app where no CRC is stored.
pub fn app_present(flash: &[u8]) -> bool
    ensures { result ≡ app_present flash.now }
{
    4 <= flash.len() && four_at(flash, 0) != 0xFFFF_FFFF
}
