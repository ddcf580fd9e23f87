// The device for programs in C or Rust: each call takes and leaves plain bytes. Ours: the Rust has no such interface.
// Names and parameters are those of include/tinyboot.h: each buffer is a parameter of its own there, so that no struct gathers them here.

#![tactic(auto)]

mod feeding;
mod layout;
mod state;

ghost use Rattle.std.specs.Prelude.{◌≡◌};
ghost use Rattle.wire_numbers.specs.Crc.{crc_from};
ghost use Rattle.wire_numbers.specs.Key.{key_of};
ghost use Rattle.app_record.specs.Changes.{leaves, confirm_of};
ghost use Rattle.c_layout.specs.Layout.{state_size};
ghost use Rattle.c_app.specs.Calls.{after_app, c_app_new, c_set_baud, c_baud, c_position};
ghost use Rattle.c_start.specs.Start.{after_new, c_new, after_start};
ghost use Rattle.tinyboot_c.specs.Calls.{after_feed, c_fed, c_started, c_early, c_app_fed, after_mend, c_mended};

use crate::layout::{app_setup_from, setup_from, whole, whole_app};
use c_app::{app_fed_in, app_new_in, baud_in, confirm_in, position_in, set_baud_in};
use c_layout::{STATE_SIZE, holds_state, refuse};
use c_start::{early_in, new_in, start_in};
use device_mend::{mend, mend_number};
use device_state::refusal::{Refusal, refusal_number};
use wire_numbers::compat_key;
use wire_numbers::crc::crc16;

// How many bytes a state takes.
pub fn tinyboot_state_size() -> usize
    ensures { result ≡ state_size 52 64 }
{
    STATE_SIZE
}

// The register `crc` after these bytes, for hosts that make frames.
pub fn tinyboot_crc16(crc: u16, bytes: &[u8]) -> u16
    ensures { result ≡ crc_from crc bytes.now }
{
    crc16(crc, bytes)
}

// The key of a name, for who sets up a module or makes an image for it.
pub fn tinyboot_key(name: &[u8]) -> u32
    ensures { result ≡ key_of name.now }
{
    compat_key(name)
}

// An open new state, where the buffer is as long as a state. C calls it and the app's by their two names.
pub fn tinyboot_new_state(state: &mut [u8]) -> u8
    ensures { after_new result state.new ≡ c_new 52 64 state.old }
{
    new_in(state)
}

// Takes the bytes up to the end of the first frame in them, and carries that frame out.
pub fn tinyboot_feed(
    setup: &[u8],
    state: &mut [u8],
    bytes: &[u8],
    flash: &mut [u8],
    meta: &mut [u8],
    reply: &mut [u8],
    answer: &mut [u8],
) -> u8
    ensures { after_feed result state.new flash.new meta.new reply.new answer.new ≡
        c_fed 52 64 setup.now state.old bytes.now flash.old meta.old reply.old
        answer.old }
{
    let Some(setup) = whole(setup) else {
        return refuse(answer, refusal_number(Refusal::BadSetup));
    };
    let Some(state) = state.as_mut_array::<STATE_SIZE>() else {
        return refuse(answer, feeding::stateless(setup));
    };
    if !holds_state(state) {
        return refuse(answer, feeding::stateless(setup));
    }
    feeding::fed_in_room(setup, state, bytes, flash, meta, reply, answer)
}

// A restart, or the first start: mode 0 asks for the app, every other for Service.
pub fn tinyboot_start(
    mode: u8,
    setup: &[u8],
    state: &mut [u8],
    flash: &[u8],
    meta: &mut [u8],
    answer: &mut [u8],
) -> u8
    ensures { after_start result state.new meta.new answer.new ≡
        c_started 52 64 mode setup.now state.old flash.now meta.old answer.old }
{
    let Some(setup) = whole(setup) else {
        return refuse(answer, refusal_number(Refusal::BadSetup));
    };
    start_in(mode, setup_from(setup), state, flash, meta, answer)
}

// Whether a start that asks for this mode will stay, from the record alone: nothing is written.
pub fn tinyboot_early(mode: u8, setup: &[u8], meta: &[u8]) -> u8
    ensures { result ≡ c_early 64 mode setup.now meta.now }
{
    let Some(setup) = whole(setup) else {
        return refusal_number(Refusal::BadSetup);
    };
    early_in(mode, setup_from(setup), meta)
}

// Takes the bytes up to the end of the first frame in them, and answers that frame as the running app.
pub fn tinyboot_app_feed(
    setup: &[u8],
    state: &mut [u8],
    bytes: &[u8],
    meta: &mut [u8],
    reply: &mut [u8],
    answer: &mut [u8],
) -> u8
    ensures { after_app result state.new meta.new reply.new answer.new ≡
        c_app_fed 52 64 setup.now state.old bytes.now meta.old reply.old answer.old }
{
    let Some(setup) = whole_app(setup) else {
        return refuse(answer, refusal_number(Refusal::BadSetup));
    };
    app_fed_in(app_setup_from(setup), state, bytes, meta, reply, answer)
}

// A new state of the app, where the buffer is as long as one.
pub fn tinyboot_app_new_state(state: &mut [u8]) -> u8
    ensures { after_new result state.new ≡ c_app_new 52 state.old }
{
    app_new_in(state)
}

// The app on trial stays.
pub fn tinyboot_confirm(meta: &mut [u8]) -> u8
    ensures { leaves result meta.new ≡ confirm_of meta.old }
{
    confirm_in(meta)
}

// The stored rate in bits per second, or the one with this index where none is stored.
pub fn tinyboot_baud(meta: &[u8], default_index: u8) -> u32
    ensures { result ≡ c_baud meta.now default_index }
{
    baud_in(meta, default_index)
}

// Stores the rate with this index.
pub fn tinyboot_set_baud(meta: &mut [u8], index: u8) -> u8
    ensures { leaves result meta.new ≡ c_set_baud meta.old index }
{
    set_baud_in(meta, index)
}

// The place in the row.
pub fn tinyboot_position(meta: &[u8]) -> u16
    ensures { result ≡ c_position meta.now }
{
    position_in(meta)
}

// A record put in order: how many bytes of it have changed, each listed by place, old and new byte; or the refusal.
pub fn tinyboot_mend(setup: &[u8], meta: &mut [u8], list: &mut [u8]) -> u8
    ensures { after_mend result meta.new list.new ≡ c_mended 64 setup.now meta.old list.old }
{
    let Some(setup) = whole(setup) else {
        return refusal_number(Refusal::BadSetup);
    };
    mend_number(mend(setup_from(setup), meta, list))
}
