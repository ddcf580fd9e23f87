// `feed` on a state whose two arrays stand in one lent slice: the frame's bytes first, then the page's. A frame is read in place, and only one that has ended
// is taken out for the dispatcher: so a call on a few bytes copies nothing but these.

#![tactic(auto)]

ghost use Rattle.std.specs.Prelude.{◌≡◌, true, false, ◌++◌, ◌+◌, ◌≤◌, length, take, drop};
ghost use Rattle.wire_frames.specs.Stored.{well_of, seen, read_of};
ghost use Rattle.device_state.specs.Refusals.{well_formed, refusal_told};
ghost use Rattle.device_dispatcher.specs.Dispatch.{dispatch_of};
ghost use Rattle.device_feed.specs.Feed.{ended_by, taken_of};
ghost use Rattle.device_in_place.specs.On.{rest_in, world_in, on_by, fed_on};
ghost use Rattle.device_in_place.specs.Byte.{plain_at, laid_to, lay_byte_of, clear_of, byte_on};
ghost use Rattle.device_in_place.specs.Inner.{called_on, refusal_on};

use device_feed::{Passed, kind_of};
use device_replies::Answer;
use device_state::refusal::Refusal;
use device_state::{Numbers, Setup, State, refusal};
use store_flash::storage::{PAGE_SIZE, Page};
use wire_frames::frame;
use wire_frames::frame::{FRAME, FrameBytes, Kind};
use wire_numbers::le;

// Both arrays. Here too what is lent comes one by one, as C hands it over (device_feed).
const STATE: usize = FRAME + PAGE_SIZE;

// An array's bytes from a place on.
fn taken_out(s: &[u8], at: usize) -> FrameBytes
    requires { at + 64 ≤ length s.now }
    ensures { result ≡ take 64 (drop at s.now) }
{
    let mut a = [0u8; FRAME];
    a.copy_from_slice(&s[at..at + FRAME]);
    a
}

// Both arrays, laid where they were taken out.
fn put_back(s: &mut [u8], f: &FrameBytes, page: &Page)
    requires { 128 ≤ length s.old }
    ensures { s.new ≡ f.now ++ (page.now ++ rest_in 52 64 s.old) }
{
    s[..FRAME].copy_from_slice(f);
    s[FRAME..STATE].copy_from_slice(page);
}

// A frame that has ended in this way after so many bytes, carried out.
fn ended(
    setup: Setup,
    kind: Kind,
    taken: usize,
    n: &mut Numbers,
    s: &mut [u8],
    flash: &mut [u8],
    meta: &mut [u8],
    reply: &mut [u8],
) -> Passed
    requires { 128 ≤ length s.old }
    ensures { called_on result n.new s.new flash.new meta.new reply.new ≡
        on_by (rest_in 52 64 s.old)
        (ended_by taken (dispatch_of 52 64 setup kind (world_in 52 64 s.old n.old flash.old meta.old) reply.old)) }
{
    let mut state = State {
        frame: taken_out(s, 0),
        page: taken_out(s, FRAME),
        numbers: *n,
    };
    let answer = device_dispatcher::dispatch(setup, kind, &mut state, flash, meta, reply);
    put_back(s, &state.frame, &state.page);
    *n = state.numbers;
    Passed {
        taken: taken,
        answer: answer,
    }
}

fn read(s: &mut [u8], got: usize, bytes: &[u8]) -> frame::Passed
    requires { 64 ≤ length s.old }
    ensures { (seen (take 64 s.new) result.got result.taken result.stop ≡ read_of 52 true (take 64 s.old) got bytes.now) ×
        (drop 64 s.new ≡ drop 64 s.old) }
{
    wire_reader::read_part(&mut s[..FRAME], got, true, bytes)
}

// A call that is not refused.
fn pass(
    setup: Setup,
    n: &mut Numbers,
    s: &mut [u8],
    bytes: &[u8],
    flash: &mut [u8],
    meta: &mut [u8],
    reply: &mut [u8],
) -> Passed
    requires { (128 ≤ length s.old) × (well_of 52 true (take 64 s.old) n.old.got ≡ true) }
    ensures { called_on result n.new s.new flash.new meta.new reply.new ≡
        on_by (rest_in 52 64 s.old)
        (taken_of 52 64 setup (world_in 52 64 s.old n.old flash.old meta.old) bytes.now reply.old) }
{
    let p = read(s, n.got, bytes);
    n.got = p.got;
    // made once, and replaced: of a struct that each way out makes the compiler keeps parts in memory
    let mut r = Passed {
        taken: p.taken,
        answer: Answer::Quiet,
    };
    if let Some(kind) = kind_of(p.stop) {
        r = ended(setup, kind, p.taken, n, s, flash, meta, reply);
    }
    r
}

// Whether the slice, and what stands beside it, holds a well-formed state.
#[tactic(auto, unfolding(device_state::specs::Refusals::well_formed))]
fn well_formed(setup: Setup, s: &[u8], n: Numbers) -> bool
    requires { 64 ≤ length s.now }
    ensures { result ≡ well_formed 52 64 setup (take 64 s.now) n }
{
    refusal::run_fits(setup.capacity, n.fill, n.next) && frame::begins(&s[..FRAME], n.got, true)
}

// Whether a call is refused, and how: a slice that is too short holds no state.
#[tactic(auto, unfolding(crate::specs::Inner::refusal_on, device_state::specs::Refusals::refusal_of))]
fn refuses(
    setup: Setup,
    s: &[u8],
    n: Numbers,
    flash: usize,
    meta: usize,
    room: usize,
) -> Result<(), Refusal>
    ensures { refusal_told result ≡ refusal_on 52 64 setup s.now n flash meta room }
{
    if !refusal::set_up(setup) {
        return Err(Refusal::BadSetup);
    }
    if s.len() < STATE || !well_formed(setup, s, n) {
        return Err(Refusal::BadState);
    }
    refusal::of_lengths(setup.capacity, flash, meta, room, n.closed)
}

// The call: `feed_in` with both arrays in one slice, and the numbers lent beside it.
pub fn feed_on(
    setup: Setup,
    n: &mut Numbers,
    s: &mut [u8],
    bytes: &[u8],
    flash: &mut [u8],
    meta: &mut [u8],
    reply: &mut [u8],
) -> Passed
    ensures { called_on result n.new s.new flash.new meta.new reply.new ≡
        fed_on 52 64 setup s.old n.old bytes.now flash.old meta.old reply.old }
{
    let mut r = Passed {
        taken: 0,
        answer: Answer::Quiet,
    };
    match refuses(setup, s, *n, flash.len(), meta.len(), reply.len()) {
        Ok(()) => r = pass(setup, n, s, bytes, flash, meta, reply),
        Err(refusal) => r.answer = Answer::Refused(refusal),
    }
    r
}

// Whether the byte at this place is only stored: past the sync word it is one of the header but for its last, or one of the data.
// A frame's places are small, and 32 bits are what a controller compares at once.
fn is_plain(f: &[u8], got: u32) -> bool
    requires { length f.now ≡ 64 }
    ensures { result ≡ plain_at f.now got }
{
    (2..9).contains(&got) || got > 9 && got < 10 + le::read16(f[8], f[9]) as u32
}

// Stores one byte more where that is all there is to do, and says whether it did. Most bytes of a stream are such ones: to take them one at a time costs
// little.
fn lay_byte(f: &mut [u8], got: usize, device: bool, b: u8) -> bool
    ensures { laid_to result f.new ≡ lay_byte_of 52 device f.old got b }
{
    if frame::begins(f, got, device) && is_plain(f, got as u32) {
        f[got] = b;
        return true;
    }
    false
}

// Whether nothing but the frame can refuse a call.
#[tactic(auto, using(device_state::proofs::Told::told_ok))]
fn clear(
    erase: usize,
    capacity: usize,
    id_len: usize,
    start_kind: u8,
    n: Numbers,
    flash: usize,
    meta: usize,
    room: usize,
) -> bool
    ensures { result ≡ clear_of 52 64 erase capacity id_len start_kind n flash meta room }
{
    refusal::fits(erase, capacity, id_len, start_kind)
        && refusal::run_fits(capacity, n.fill, n.next)
        && refusal::of_lengths(capacity, flash, meta, room, n.closed).is_ok()
}

// A call on one byte where that byte is only stored, and whether it is: else nothing is done, and `feed_on` is to be called. Of the numbers only `got`
// moves on, by 1. Of the setup it takes what it tests, so that no id is copied for a byte.
pub fn byte_on(
    erase: usize,
    capacity: usize,
    id_len: usize,
    start_kind: u8,
    n: Numbers,
    s: &mut [u8],
    b: u8,
    flash: usize,
    meta: usize,
    room: usize,
) -> bool
    ensures { laid_to result s.new ≡ byte_on 52 64 erase capacity id_len start_kind n s.old b flash meta room }
{
    if clear(erase, capacity, id_len, start_kind, n, flash, meta, room) && STATE <= s.len() {
        return lay_byte(&mut s[..FRAME], n.got, true, b);
    }
    false
}
