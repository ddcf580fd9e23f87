// The module, set up as `listen`'s, and what it is fed.
use crate::judged;
use crate::judged::Judged;
use desk_captures::{TO_MODULE, after, part_at, record_at};
use device_feed::feed_in;
use device_replies::Answer;
use device_state::{PRESENT, Setup, State};
use std::io;
use std::io::Write;
use store_flash::cells::first;
use store_flash::storage::PAGE_SIZE;
use wire_frames::frame::FRAME;
use wire_numbers::COMPAT_UNSET;

// How far it has come: its state, what became of its replies, how many bytes the last call took, and whether a restart is due.
#[derive(Drop)]
pub struct Module {
    pub state: State,
    pub judged: Judged,
    pub taken: usize,
    pub restarted: bool,
}

fn listening() -> Setup {
    Setup {
        erase_size: PAGE_SIZE,
        capacity: 16384,
        id: [0u8; 16],
        id_len: 0,
        version: 0,
        key: COMPAT_UNSET,
        start_kind: PRESENT,
    }
}

// One call, as far as the end of a frame. The module is lent, so that no record and no call copies it; flash and record are lent beside it.
fn call(
    out: &mut impl Write,
    m: &mut Module,
    capture: &[u8],
    bytes: &[u8],
    flash: &mut [u8; 16384],
    meta: &mut [u8; 12],
) -> io::Result<()> {
    let mut reply = [0u8; FRAME];
    let fed = feed_in(listening(), &mut m.state, bytes, flash, meta, &mut reply);
    m.taken = fed.taken;
    match fed.answer {
        Answer::Reply { len, .. } => {
            judged::hold(out, &mut m.judged, capture, first(&reply, len))?;
        }
        Answer::Restart { len, .. } => {
            judged::hold(out, &mut m.judged, capture, first(&reply, len))?;
            m.restarted = true;
        }
        _ => {}
    }
    Ok(())
}

// Whether the module is fed on.
fn goes_on(m: &Module) -> bool {
    !m.restarted && !m.judged.differs
}

// The bytes of a record, frame by frame.
fn record(
    out: &mut impl Write,
    m: &mut Module,
    capture: &[u8],
    bytes: &[u8],
    flash: &mut [u8; 16384],
    meta: &mut [u8; 12],
) -> io::Result<()> {
    let mut at: usize = 0;
    // a while: a step is what the call took
    while at < bytes.len() {
        call(out, m, capture, &bytes[at..], flash, meta)?;
        if !goes_on(m) || m.taken == 0 || bytes.len() - at < m.taken {
            break;
        }
        at += m.taken;
    }
    Ok(())
}

fn new() -> Module {
    Module {
        state: device_start::new_state(false),
        judged: judged::new(),
        taken: 0,
        restarted: false,
    }
}

// The capture to its end, its fault, a restart, or a record that differs.
pub(crate) fn all(
    out: &mut impl Write,
    capture: &[u8],
    flash: &mut [u8; 16384],
    meta: &mut [u8; 12],
) -> io::Result<Module> {
    let mut m = new();
    let mut at: usize = 0;
    while let Some(found) = record_at(capture, at) {
        if found.mark == TO_MODULE {
            record(out, &mut m, capture, part_at(capture, at), flash, meta)?;
        }
        if !goes_on(&m) {
            break;
        }
        at = after(capture, at);
    }
    Ok(m)
}
