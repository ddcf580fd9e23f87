// The running app's calls on a C program's state, record and answer, of a setup by value. Ours: the Rust has no such interface.

#![tactic(auto)]

ghost use Rattle.std.specs.Prelude.{◌≡◌, ◌≤◌, ◌++◌, eqb, length};
ghost use Rattle.app_state.specs.Refusals.{app_set_up};
ghost use Rattle.app_record.specs.Changes.{leaves, confirm_of};
ghost use Rattle.app_client.specs.Feed.{app_fed_of};
ghost use Rattle.c_layout.specs.Layout.{part, answer_size};
ghost use Rattle.c_start.specs.Start.{after_new};
ghost use Rattle.c_app.specs.App.{app_setup_size, holds_app, app_numbers_from, app_from, app_number_bytes, app_bytes};
ghost use Rattle.c_app.specs.Calls.{after_app, app_roomless, app_world_from, app_called, app_fed_in, c_app_new, c_set_baud};
ghost use Rattle.c_app.specs.Calls.{c_baud, c_position};

use app_client::app_feed_in;
use app_record::{BadRecord, baud, confirm, position, set_baud, stored_number};
use app_state::{AppNumbers, AppSetup, AppState, app_new, app_refuses};
use c_layout::{ANSWER_SIZE, flag, lay_answer, refuse};
use device_replies::numbers_of;
use device_state::PRESENT;
use device_state::refusal::{Refusal, fits, refusal_number};
use wire_frames::frame::{FRAME, FrameBytes};
use wire_rates::BaudRate;

// How many bytes a setup and a state take.
pub const APP_SETUP_SIZE: usize = 33;

pub const APP_STATE_SIZE: usize = GOT + 3;

// Where a state's numbers stand: behind its frame.
const GOT: usize = FRAME;

const SELECTED: usize = GOT + 1;

const CLOSED: usize = GOT + 2;

// Whether these bytes are as many as a setup's.
pub fn holds_app_setup(setup: &[u8]) -> bool
    ensures { result ≡ eqb (length setup.now) app_setup_size }
{
    setup.len() == APP_SETUP_SIZE
}

// Whether these bytes, as many as a state's, are one: flags that are 0 or 1. A device's state (c_layout) has its flags at other places.
#[tactic(auto, unfolding(crate::specs::App::holds_app))]
fn holds_app(state: &[u8; APP_STATE_SIZE]) -> bool
    ensures { result ≡ holds_app 52 state.now }
{
    state[SELECTED] < 2 && state[CLOSED] < 2
}

// As of a device's state, but for the run of writes, which an app has not, and at other places.
fn numbers_from(s: &[u8; APP_STATE_SIZE]) -> AppNumbers
    ensures { result ≡ app_numbers_from 52 s.now }
{
    AppNumbers {
        got: usize::from(s[GOT]),
        selected: s[SELECTED] == 1,
        closed: s[CLOSED] == 1,
    }
}

fn frame_from(s: &[u8; APP_STATE_SIZE]) -> FrameBytes
    ensures { result ≡ part 0 64 s.now }
{
    let mut f = [0u8; FRAME];
    f.copy_from_slice(&s[..FRAME]);
    f
}

// The state that these bytes stand for.
fn app_from(s: &[u8; APP_STATE_SIZE]) -> AppState
    ensures { result ≡ app_from 52 s.now }
{
    AppState {
        frame: frame_from(s),
        numbers: numbers_from(s),
    }
}

// What a state has beside its frame, laid where it stands.
fn lay_numbers(s: &mut [u8; APP_STATE_SIZE], n: AppNumbers)
    ensures { s.new ≡ part 0 64 s.old ++ app_number_bytes n }
{
    s[GOT] = (n.got % 256) as u8;
    s[SELECTED] = flag(n.selected);
    s[CLOSED] = flag(n.closed);
}

// A state, laid over bytes that are as many.
fn lay_app(s: &mut [u8; APP_STATE_SIZE], app: &AppState)
    ensures { s.new ≡ app_bytes app.now }
{
    lay_numbers(s, app.numbers);
    s[..FRAME].copy_from_slice(&app.frame);
}

// A new state, where the buffer is as long as one: a device's new state (c_start) has another length and other bytes.
pub fn app_new_in(state: &mut [u8]) -> u8
    ensures { after_new result state.new ≡ c_app_new 52 state.old }
{
    let Some(state) = state.as_mut_array::<APP_STATE_SIZE>() else {
        return refusal_number(Refusal::BadState);
    };
    lay_app(state, &app_new());
    0
}

fn app_set_up(setup: AppSetup) -> bool
    ensures { result ≡ app_set_up 64 setup }
{
    fits(setup.erase_size, setup.capacity, setup.id_len, PRESENT)
}

// With no room for an answer: as if there were none for a reply.
fn unanswered(setup: AppSetup, state: &[u8; APP_STATE_SIZE], meta: usize) -> u8
    ensures { result ≡ app_roomless 52 64 setup (app_from 52 state.now) meta }
{
    let app = app_from(state);
    match app_refuses(setup, &app.frame, app.numbers, meta, 0) {
        Ok(()) => 0,
        Err(refusal) => refusal_number(refusal),
    }
}

// The state is taken out, and laid back.
fn fed(
    setup: AppSetup,
    state: &mut [u8; APP_STATE_SIZE],
    bytes: &[u8],
    meta: &mut [u8],
    reply: &mut [u8],
    answer: &mut [u8],
) -> u8
    requires { answer_size ≤ length answer.old }
    ensures { after_app result state.new meta.new reply.new answer.new ≡
        app_called (app_fed_of 52 64 setup (app_world_from 52 state.old meta.old) bytes.now reply.old)
        answer.old }
{
    let mut app = app_from(state);
    let p = app_feed_in(setup, &mut app, bytes, meta, reply);
    lay_app(state, &app);
    lay_answer(answer, numbers_of(p.answer), p.taken)
}

// A feed, where the bytes hold a state; the setup's numbers are tried before that.
pub fn app_fed_in(
    setup: AppSetup,
    state: &mut [u8],
    bytes: &[u8],
    meta: &mut [u8],
    reply: &mut [u8],
    answer: &mut [u8],
) -> u8
    ensures { after_app result state.new meta.new reply.new answer.new ≡
        app_fed_in 52 64 setup state.old bytes.now meta.old reply.old answer.old }
{
    if !app_set_up(setup) {
        return refuse(answer, refusal_number(Refusal::BadSetup));
    }
    match state.as_mut_array::<APP_STATE_SIZE>() {
        Some(state) if holds_app(state) => {
            if answer.len() < ANSWER_SIZE {
                return unanswered(setup, state, meta.len());
            }
            fed(setup, state, bytes, meta, reply, answer)
        }
        _ => refuse(answer, refusal_number(Refusal::BadState)),
    }
}

// The app on trial stays.
pub fn confirm_in(meta: &mut [u8]) -> u8
    ensures { leaves result meta.new ≡ confirm_of meta.old }
{
    stored_number(confirm(meta))
}

// A rate by its index, stored.
#[tactic(auto, unfolding(crate::specs::Calls::c_set_baud))]
pub fn set_baud_in(meta: &mut [u8], index: u8) -> u8
    ensures { leaves result meta.new ≡ c_set_baud meta.old index }
{
    let Some(rate) = BaudRate::from_u8(index) else {
        return refusal_number(Refusal::BadSetup);
    };
    stored_number(set_baud(meta, rate))
}

// The stored rate in bits per second; `default` is the index of the build's own.
#[tactic(auto, unfolding(crate::specs::Calls::c_baud))]
pub fn baud_in(meta: &[u8], default: u8) -> u32
    ensures { result ≡ c_baud meta.now default }
{
    let Some(rate) = BaudRate::from_u8(default) else {
        return u32::from(refusal_number(Refusal::BadSetup));
    };
    match baud(meta, rate) {
        Ok(rate) => rate.hz(),
        Err(BadRecord) => u32::from(refusal_number(Refusal::BadRecord)),
    }
}

// The place in the row.
pub fn position_in(meta: &[u8]) -> u16
    ensures { result ≡ c_position meta.now }
{
    match position(meta) {
        Ok(place) => place as u16,
        Err(BadRecord) => 256 + u16::from(refusal_number(Refusal::BadRecord)),
    }
}
