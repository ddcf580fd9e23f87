// A feed of buffers that hold a setup and a state. The state's arrays stay where they stand.
ghost use Rattle.std.specs.Prelude.{◌≡◌, length, ltb, true, if◌then◌else◌};
ghost use Rattle.device_feed.specs.Feed.{fed_of};
ghost use Rattle.c_layout.specs.Layout.{answer_size, setup_from, holds_state};
ghost use Rattle.tinyboot_c.specs.Calls.{world_from, after_feed, c_fed};
ghost use Rattle.tinyboot_c.specs.Inner.{ByteFed, stateless, laid};

use crate::layout::{four, setup_from};
use crate::state::{lay_numbers, numbers_from};
use c_layout::{ANSWER_SIZE, GOT, SETUP_SIZE, STATE_SIZE, lay_answer};
use device_in_place::{byte_on, feed_on};
use device_replies::{numbers_of, unsaid};
use device_state::Setup;
use device_state::refusal::{Refusal, refusal_number, set_up};

// Where the bytes hold no state: the setup's numbers are tried before it.
pub(crate) fn stateless(setup: &[u8; SETUP_SIZE]) -> u8
    ensures { result ≡ stateless 64 (setup_from setup.now) }
{
    if set_up(setup_from(setup)) {
        return refusal_number(Refusal::BadState);
    }
    refusal_number(Refusal::BadSetup)
}

// How much of the room for a reply is lent on: with none for an answer there is none.
fn room_for(reply: usize, answer: usize) -> usize
    ensures { result ≡ (if ltb answer answer_size then 0 else reply) }
{
    if answer < ANSWER_SIZE { 0 } else { reply }
}

// A piece of one byte that is only stored, and whether it is: with most bytes there is nothing else to do. It stores between its tests, so they stand apart.
fn fed_byte(
    setup: &[u8; SETUP_SIZE],
    state: &mut [u8; STATE_SIZE],
    bytes: &[u8],
    flash: usize,
    meta: usize,
    room: usize,
) -> bool
    requires { holds_state 52 64 state.old ≡ true }
    ensures { ByteFed setup.now state.old bytes.now flash meta room state.new result }
{
    if bytes.len() != 1 {
        return false;
    }
    let n = numbers_from(state);
    let erase = four(setup, 0) as usize;
    let capacity = four(setup, 4) as usize;
    let id_len = usize::from(setup[8]);
    let start_kind = setup[31];
    if byte_on(
        erase, capacity, id_len, start_kind, n, state, bytes[0], flash, meta, room,
    ) {
        state[GOT] = (n.got + 1) as u8;
        return true;
    }
    false
}

// Any bytes.
fn fed_piece(
    setup: Setup,
    state: &mut [u8; STATE_SIZE],
    bytes: &[u8],
    flash: &mut [u8],
    meta: &mut [u8],
    reply: &mut [u8],
    answer: &mut [u8],
) -> u8
    ensures { after_feed result state.new flash.new meta.new reply.new answer.new ≡
        laid (fed_of 52 64 setup (world_from 52 64 state.old flash.old meta.old) bytes.now
        reply.old) answer.old }
{
    let mut n = numbers_from(state);
    let p = feed_on(setup, &mut n, state, bytes, flash, meta, reply);
    lay_numbers(state, n);
    lay_answer(answer, numbers_of(p.answer), p.taken)
}

fn fed(
    setup: &[u8; SETUP_SIZE],
    state: &mut [u8; STATE_SIZE],
    bytes: &[u8],
    flash: &mut [u8],
    meta: &mut [u8],
    reply: &mut [u8],
    answer: &mut [u8],
) -> u8
    requires { holds_state 52 64 state.old ≡ true }
    ensures { after_feed result state.new flash.new meta.new reply.new answer.new ≡
        laid (fed_of 52 64 (setup_from setup.now) (world_from 52 64 state.old flash.old meta.old)
        bytes.now reply.old) answer.old }
{
    if fed_byte(setup, state, bytes, flash.len(), meta.len(), reply.len()) {
        return lay_answer(answer, unsaid(0), 1);
    }
    let s = setup_from(setup);
    fed_piece(s, state, bytes, flash, meta, reply, answer)
}

// A feed that lends on no room for a reply where there is none for an answer.
pub(crate) fn fed_in_room(
    setup: &[u8; SETUP_SIZE],
    state: &mut [u8; STATE_SIZE],
    bytes: &[u8],
    flash: &mut [u8],
    meta: &mut [u8],
    reply: &mut [u8],
    answer: &mut [u8],
) -> u8
    requires { holds_state 52 64 state.old ≡ true }
    ensures { after_feed result state.new flash.new meta.new reply.new answer.new ≡
        c_fed 52 64 setup.now state.old bytes.now flash.old meta.old reply.old answer.old }
{
    let room = room_for(reply.len(), answer.len());
    fed(setup, state, bytes, flash, meta, &mut reply[..room], answer)
}
