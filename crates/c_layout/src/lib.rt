// Where a setup, a state and an answer stand in the bytes that a program in C lends, as far as it needs no more than that. Ours: the Rust has no such
// interface.

#![tactic(auto)]

ghost use Rattle.std.specs.Prelude.{◌≡◌, ◌++◌, ◌∷◌, [], ◌≤◌, eqb, length};
ghost use Rattle.std.proofs.Math.Seq.{paste};
ghost use Rattle.laws.specs.Low.{low_bytes};
ghost use Rattle.device_start.specs.Starts.{new_state};
ghost use Rattle.device_replies.specs.Answers.{mute};
ghost use Rattle.device_replies.specs.Inner.{told_by};
ghost use Rattle.c_layout.specs.Layout.{setup_size, holds_state, flag_byte, number_bytes, state_bytes, answered};

use device_replies::{Said, unsaid};
use device_state::Numbers;
use store_flash::storage::PAGE_SIZE;
use wire_frames::frame::FRAME;

// How many bytes a setup, a state and an answer take.
pub const SETUP_SIZE: usize = 32;

pub const STATE_SIZE: usize = NEXT + 8;

pub const ANSWER_SIZE: usize = 16;

// Where a state's numbers stand: behind its frame and its page.
pub const NEXT: usize = FRAME + PAGE_SIZE;

pub const GOT: usize = NEXT + 4;

pub const FILL: usize = NEXT + 5;

pub const SELECTED: usize = NEXT + 6;

pub const CLOSED: usize = NEXT + 7;

// Whether these bytes are as many as a setup's.
pub fn holds_setup(setup: &[u8]) -> bool
    ensures { result ≡ eqb (length setup.now) setup_size }
{
    setup.len() == SETUP_SIZE
}

// Whether these bytes are a state's: as many, and flags that are 0 or 1. An app's state (c_app) has its flags at other places.
#[tactic(auto, unfolding(crate::specs::Layout::holds_state))]
pub fn holds_state(state: &[u8]) -> bool
    ensures { result ≡ holds_state 52 64 state.now }
{
    state.len() == STATE_SIZE && state[SELECTED] < 2 && state[CLOSED] < 2
}

// A flag's byte.
pub fn flag(b: bool) -> u8
    ensures { result ≡ flag_byte b }
{
    u8::from(b)
}

// What a state has beside its arrays, in 8 bytes.
pub fn number_bytes(n: Numbers) -> [u8; 8]
    ensures { result ≡ number_bytes n }
{
    [
        (n.next % 256) as u8,
        (n.next / 256 % 256) as u8,
        (n.next / 256 / 256 % 256) as u8,
        (n.next / 256 / 256 / 256 % 256) as u8,
        (n.got % 256) as u8,
        (n.fill % 256) as u8,
        flag(n.selected),
        flag(n.closed),
    ]
}

// The bytes of a new state: AA 55 in an empty frame, an empty page, and no write pending.
pub fn new_bytes(closed: bool) -> [u8; STATE_SIZE]
    ensures { result ≡ state_bytes (new_state 52 64 closed) }
{
    let mut new = [0u8; STATE_SIZE];
    new[0] = 0xAA;
    new[1] = 0x55;
    new[NEXT] = 0xFF;
    new[NEXT + 1] = 0xFF;
    new[NEXT + 2] = 0xFF;
    new[NEXT + 3] = 0xFF;
    new[CLOSED] = flag(closed);
    new
}

// What a call said, in the first half of an answer. Byte by byte, as the second half is: arrays of eight, copied to their places, are 278 bytes more of any
// setup's code on rv32ec (4,572 for 4,294).
fn lay_said(a: &mut [u8], said: Said)
    requires { 16 ≤ length a.old }
    ensures { a.new ≡
        paste a.old 0 (said.number ∷ said.mode ∷ (low_bytes 2 said.len ++ (said.wait ∷ said.why ∷ 0 ∷ 0 ∷ []))) 8 }
{
    a[0] = said.number;
    a[1] = said.mode;
    a[2] = (said.len % 256) as u8;
    a[3] = (said.len / 256 % 256) as u8;
    a[4] = said.wait;
    a[5] = said.why;
    a[6] = 0;
    a[7] = 0;
}

// How many bytes were taken, in the second.
fn lay_taken(a: &mut [u8], taken: usize)
    requires { 16 ≤ length a.old }
    ensures { a.new ≡ paste a.old 8 (low_bytes 8 taken) 8 }
{
    a[8] = (taken % 256) as u8;
    a[9] = (taken / 256 % 256) as u8;
    a[10] = (taken / 256 / 256 % 256) as u8;
    a[11] = (taken / 256 / 256 / 256 % 256) as u8;
    a[12] = (taken / 256 / 256 / 256 / 256 % 256) as u8;
    a[13] = (taken / 256 / 256 / 256 / 256 / 256 % 256) as u8;
    a[14] = (taken / 256 / 256 / 256 / 256 / 256 / 256 % 256) as u8;
    a[15] = (taken / 256 / 256 / 256 / 256 / 256 / 256 / 256 % 256) as u8;
}

// The answer laid where there is room for one, byte by byte, and its number.
pub fn lay_answer(a: &mut [u8], said: Said, taken: usize) -> u8
    ensures { (result ≡ said.number) × (a.new ≡ answered (told_by said) taken a.old) }
{
    if a.len() < ANSWER_SIZE {
        return said.number;
    }
    lay_said(a, said);
    lay_taken(a, taken);
    said.number
}

// A refusal takes nothing.
pub fn refuse(a: &mut [u8], number: u8) -> u8
    ensures { (result ≡ number) × (a.new ≡ answered (mute number) 0 a.old) }
{
    let said = unsaid(number);
    lay_answer(a, said, 0)
}
