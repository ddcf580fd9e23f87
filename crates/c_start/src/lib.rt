// A start of a setup by value on a C program's state, record and answer; and a new state. Ours: the Rust has no such interface. What C lends comes one by one,
// as in its header.

#![tactic(auto)]

ghost use Rattle.std.specs.Prelude.{◌≡◌, true, ◌≤◌, length};
ghost use Rattle.wire_numbers.specs.Names.{mode_number};
ghost use Rattle.laws.specs.Over.{over};
ghost use Rattle.device_state.specs.Refusals.{set_up};
ghost use Rattle.device_early.specs.Early.{early_of};
ghost use Rattle.c_layout.specs.Layout.{state_size, answer_size, state_bytes, answer_bytes};
ghost use Rattle.device_start.specs.Starts.{new_state, start_refusal, started_of};
ghost use Rattle.c_start.specs.Start.{after_new, c_new, asked, start_told, or_no_room, after_start, start_called, start_in};

use c_layout::{ANSWER_SIZE, STATE_SIZE, lay_answer, new_bytes, refuse};
use device_early::{early, outlook_number};
use device_replies::{Said, mode_number};
use device_start::start;
use device_state::Setup;
use device_state::refusal::{Refusal, of_lengths, refusal_number, set_up};
use wire_numbers::RunMode;

// A new state, laid over bytes that are as many as a state's.
fn lay_new(s: &mut [u8], closed: bool)
    requires { length s.old ≡ state_size 52 64 }
    ensures { s.new ≡ state_bytes (new_state 52 64 closed) }
{
    let new = new_bytes(closed);
    s.copy_from_slice(&new);
}

// An open new state, where the buffer is as long as a state: an app's new state (c_app) has another length and other bytes.
pub fn new_in(state: &mut [u8]) -> u8
    ensures { after_new result state.new ≡ c_new 52 64 state.old }
{
    if state.len() != STATE_SIZE {
        return refusal_number(Refusal::BadState);
    }
    lay_new(state, false);
    0
}

fn mode_of(mode: u8) -> RunMode
    ensures { mode_number result ≡ asked mode }
{
    if mode == 0 {
        return RunMode::HandOff;
    }
    RunMode::Service
}

// Whether a start that asks for this mode will stay, as far as the record tells.
pub fn early_in(mode: u8, setup: Setup, meta: &[u8]) -> u8
    ensures { result ≡ early_of 64 setup (asked mode) meta.now }
{
    outlook_number(early(setup, mode_of(mode), meta))
}

// With no room for an answer, of a good setup: what else refuses a start, or that there is no room.
fn unanswered(setup: Setup, flash: usize, meta: usize) -> u8
    requires { set_up 64 setup ≡ true }
    ensures { result ≡ or_no_room (start_refusal 64 setup flash meta) }
{
    match of_lengths(setup.capacity, flash, meta, 0, false) {
        Ok(()) => 0,
        Err(refusal) => refusal_number(refusal),
    }
}

// A start's answer has no reply.
fn lay_start(a: &mut [u8], number: u8, mode: RunMode) -> u8
    requires { answer_size ≤ length a.old }
    ensures { (result ≡ number) ×
        (a.new ≡ over (answer_bytes (start_told number (mode_number mode)) 0) a.old) }
{
    let said = Said {
        number: number,
        mode: mode_number(mode),
        len: 0,
        wait: 0,
        why: 0,
    };
    lay_answer(a, said, 0)
}

fn started(
    mode: u8,
    setup: Setup,
    state: &mut [u8],
    flash: &[u8],
    meta: &mut [u8],
    answer: &mut [u8],
) -> u8
    requires state_len { length state.old ≡ state_size 52 64 }
    requires answer_size_in_bounds { answer_size ≤ length answer.old }
    ensures { after_start result state.new meta.new answer.new ≡
        start_called (started_of 52 64 setup (asked mode) flash.now meta.old) state.old answer.old }
{
    let s = start(setup, mode_of(mode), flash, meta);
    let decision = s.mode;
    let Some(refusal) = s.refusal else {
        let new = s.state;
        lay_new(state, new.numbers.closed);
        return lay_start(answer, 0, decision);
    };
    lay_start(answer, refusal_number(refusal), decision)
}

// A start, where the buffer is as long as a state; the setup's numbers are tried before that.
pub fn start_in(
    mode: u8,
    setup: Setup,
    state: &mut [u8],
    flash: &[u8],
    meta: &mut [u8],
    answer: &mut [u8],
) -> u8
    ensures { after_start result state.new meta.new answer.new ≡
        start_in 52 64 mode setup state.old flash.now meta.old answer.old }
{
    if !set_up(setup) {
        return refuse(answer, refusal_number(Refusal::BadSetup));
    }
    if state.len() != STATE_SIZE {
        return refuse(answer, refusal_number(Refusal::BadState));
    }
    if answer.len() < ANSWER_SIZE {
        return unanswered(setup, flash.len(), meta.len());
    }
    started(mode, setup, state, flash, meta, answer)
}
