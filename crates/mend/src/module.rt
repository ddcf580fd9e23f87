// The setup of the module whose records are mended.

use device_state::{PRESENT, Setup};
use store_flash::cells::{byte_at, four_at};
use store_flash::storage::PAGE_SIZE;
use wire_numbers::{COMPAT_UNSET, le};

// Until a line sets one up: as `listen`'s.
pub(crate) fn listening() -> Setup {
    Setup {
        erase_size: PAGE_SIZE,
        capacity: 16384,
        id: [0u8; 16],
        id_len: 0,
        version: 0,
        key: COMPAT_UNSET,
        start_kind: PRESENT,
    }
}

// The setup that 31 or 32 bytes stand for, as `bench` has it: with 31 its start is the present one. The id counts for nothing here.
pub(crate) fn setup_of(bytes: &[u8]) -> Setup {
    Setup {
        erase_size: four_at(bytes, 0) as usize,
        capacity: four_at(bytes, 4) as usize,
        id: [0u8; 16],
        id_len: byte_at(bytes, 8) as usize,
        version: le::read16(byte_at(bytes, 25), byte_at(bytes, 26)),
        key: four_at(bytes, 27),
        start_kind: bytes.get(31).copied().unwrap_or(PRESENT),
    }
}
