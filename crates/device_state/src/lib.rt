// Translated from tinyboot, lib/core/src/protocol.rs (MIT OR Apache-2.0); changed: the dispatcher's fields are a state, by value or lent, and what its types
// fix at build time is a setup.

#![tactic(auto)]

pub mod refusal;

use store_flash::storage::Page;
use wire_frames::frame::FrameBytes;

// The numbers that a device is built with. An id of length 0 is an unaddressed device; id bytes past the length count for
// nothing: C hands an id as sixteen bytes and a length.
#[derive(Clone, Copy)]
pub struct Setup {
    pub erase_size: usize,
    pub capacity: usize,
    pub id: [u8; 16],
    pub id_len: usize,
    pub version: u16,
    pub key: u32,
    pub start_kind: u8,
}

// The kinds of start. Where no checksum is stored, the present one asks for the sign of an app, and the careful one stays.
pub const PRESENT: u8 = 0;

pub const CAREFUL: u8 = 1;

// What a device keeps between calls beside its two arrays: how many bytes of a frame have begun; of the run of writes, how much of its page is filled and the
// next address (NONE_PENDING with none pending); the selection; whether a restart is due.
#[derive(Clone, Copy)]
pub struct Numbers {
    pub got: usize,
    pub fill: usize,
    pub next: u32,
    pub selected: bool,
    pub closed: bool,
}

// All that a device keeps between calls: the bytes of a frame, the page of a run of writes, and the numbers.
#[derive(Clone, Copy)]
pub struct State {
    pub frame: FrameBytes,
    pub page: Page,
    pub numbers: Numbers,
}
