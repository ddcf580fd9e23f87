// What stands in the bytes of a setup, and numbers of several bytes.
ghost use Rattle.std.specs.Prelude.{◌≡◌, ◌≢◌, ◌≤◌, ◌+◌, length, MatchOption};
ghost use Rattle.std.specs.Array.{IsWholeChunk};
ghost use Rattle.laws.specs.Low.{low_first};
ghost use Rattle.c_layout.specs.Layout.{part, setup_size, setup_from};
ghost use Rattle.c_app.specs.App.{app_setup_size, app_setup_from};

use app_state::AppSetup;
use c_app::{APP_SETUP_SIZE, holds_app_setup};
use c_layout::{SETUP_SIZE, holds_setup};
use device_state::Setup;
use wire_numbers::le;

// The bytes of a setup, where they are as many as one has; so short that a call is longer. The next is its twin for the app: one function over the size would
// be handed what the test said, and each caller's proof would carry that fact besides.
#[inline(always)]
pub(crate) fn whole(setup: &[u8]) -> Option<&[u8; SETUP_SIZE]>
    ensures cases { MatchOption result (length setup.now ≢ setup_size) (λ s. IsWholeChunk setup.now s.now setup_size) }
{
    if !holds_setup(setup) {
        return None;
    }
    setup.as_array::<SETUP_SIZE>()
}

#[inline(always)]
pub(crate) fn whole_app(setup: &[u8]) -> Option<&[u8; APP_SETUP_SIZE]>
    ensures cases { MatchOption result (length setup.now ≢ app_setup_size) (λ s. IsWholeChunk setup.now s.now app_setup_size) }
{
    if !holds_app_setup(setup) {
        return None;
    }
    setup.as_array::<APP_SETUP_SIZE>()
}

pub(crate) fn two(s: &[u8], at: usize) -> u16
    requires { at + 2 ≤ length s.now }
    ensures { result ≡ low_first (part at 2 s.now) }
{
    le::read16(s[at], s[at + 1])
}

pub(crate) fn four(s: &[u8], at: usize) -> u32
    requires { at + 4 ≤ length s.now }
    ensures { result ≡ low_first (part at 4 s.now) }
{
    le::read32(s[at], s[at + 1], s[at + 2], s[at + 3])
}

fn id_from(setup: &[u8]) -> [u8; 16]
    requires { 25 ≤ length setup.now }
    ensures { result ≡ part 9 16 setup.now }
{
    let mut id = [0u8; 16];
    id.copy_from_slice(&setup[9..25]);
    id
}

// This and the next fill two structs, which differ in the last field: a struct of the six that both have would be one name more in each rule (app_state).
pub(crate) fn setup_from(setup: &[u8; SETUP_SIZE]) -> Setup
    ensures { result ≡ setup_from setup.now }
{
    Setup {
        erase_size: four(setup, 0) as usize,
        capacity: four(setup, 4) as usize,
        id: id_from(setup),
        id_len: usize::from(setup[8]),
        version: two(setup, 25),
        key: four(setup, 27),
        start_kind: setup[31],
    }
}

pub(crate) fn app_setup_from(setup: &[u8; APP_SETUP_SIZE]) -> AppSetup
    ensures { result ≡ app_setup_from setup.now }
{
    AppSetup {
        erase_size: four(setup, 0) as usize,
        capacity: four(setup, 4) as usize,
        id: id_from(setup),
        id_len: usize::from(setup[8]),
        version: two(setup, 25),
        key: four(setup, 27),
        app_version: two(setup, 31),
    }
}
