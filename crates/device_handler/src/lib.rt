// Translated from tinyboot, lib/core/src/protocol.rs (MIT OR Apache-2.0); changed: a command answers its reply's status and length, and who calls it lays them
// in the header.

#![tactic(auto)]

ghost use Rattle.std.specs.Prelude.{◌≡◌, List, ℕ, eqb};
ghost use Rattle.wire_numbers.specs.Names.{status_number, cmd_number};
ghost use Rattle.cmd_write.specs.Write.{write_of};
ghost use Rattle.cmd_verify.specs.Verify.{verify_of};
ghost use Rattle.device_handler.specs.Handling.{handled_by, handled_of, crc_laid, after_verify, after_write};
ghost use Rattle.device_handler.specs.Inner.{bare_to, loaded_to, restart_to, handled_to};

use device_state::{Setup, State};
use wire_frames::frame::FrameBytes;
use wire_info::InfoData;
use wire_numbers::{Cmd, Status, le};

// What a command leaves beside what it is lent: the reply's status and length, and whether a restart is due after it.
#[derive(Clone, Copy, Debug, PartialEq, Eq)]
pub struct Handled {
    pub status: Status,
    pub len: u16,
    pub restart: bool,
}

// Whether a command was carried out.
pub fn is_ok(status: Status) -> bool
    ensures { result ≡ eqb (status_number status) 1 }
{
    status == Status::Ok
}

// A reply of no payload.
pub fn bare(status: Status) -> Handled
    ensures { result ≡ bare_to status }
{
    Handled {
        status: status,
        len: 0,
        restart: false,
    }
}

// A reply whose payload of so many bytes stands in the data area.
pub fn loaded(len: u16) -> Handled
    ensures { result ≡ loaded_to len }
{
    Handled {
        status: Status::Ok,
        len: len,
        restart: false,
    }
}

// A Reset's reply: an accepted one restarts.
fn restart(status: Status) -> Handled
    ensures { result ≡ restart_to status }
{
    Handled {
        restart: is_ok(status),
        ..bare(status)
    }
}

// The CRC that a Verify replies.
fn lay_crc(f: &mut FrameBytes, crc: u16)
    ensures { f.new ≡ crc_laid crc f.old }
{
    let c = le::bytes16(crc);
    f[10] = c[0];
    f[11] = c[1];
}

// A Verify that is refused has no payload.
fn check(setup: Setup, state: &mut State, flash: &[u8], meta: &mut [u8]) -> Handled
    ensures { handled_to result state.new flash.now meta.new ≡
        after_verify (record { state = state.old; flash = flash.now; meta = meta.old })
        (verify_of setup.key setup.capacity state.old.frame flash.now meta.old) }
{
    let v = cmd_verify::cmd_verify(setup.key, setup.capacity, &state.frame, flash, meta);
    if is_ok(v.status) {
        lay_crc(&mut state.frame, v.crc);
        return loaded(2);
    }
    bare(v.status)
}

// A Write: the run of writes has moved on.
fn write(setup: Setup, state: &mut State, flash: &mut [u8], meta: &[u8]) -> Handled
    ensures { handled_to result state.new flash.new meta.now ≡
        after_write (record { state = state.old; flash = flash.old; meta = meta.now })
        (write_of 64 setup.capacity state.old.frame flash.old state.old.page state.old.numbers.fill state.old.numbers.next meta.now) }
{
    let n = state.numbers;
    let w = cmd_write::cmd_write(
        setup.capacity,
        &state.frame,
        &mut state.page,
        n.fill,
        n.next,
        flash,
        meta,
    );
    state.numbers.fill = w.fill;
    state.numbers.next = w.next;
    bare(w.status)
}

// A command carried out. On an unaddressed device Select is none; an addressed one has taken it before.
fn carry(setup: Setup, cmd: Cmd, state: &mut State, flash: &mut [u8], meta: &mut [u8]) -> Handled
    ensures { handled_to result state.new flash.new meta.new ≡
        handled_by (cmd_number cmd) 52 64 setup (record { state = state.old; flash = flash.old; meta = meta.old }) }
{
    match cmd {
        Cmd::Info => {
            cmd_info::cmd_info(
                setup.capacity,
                setup.erase_size,
                setup.version,
                setup.key,
                &mut state.frame,
                flash,
                meta,
            );
            loaded(InfoData::SIZE)
        }
        Cmd::Erase => {
            let f = &state.frame;
            let status = cmd_erase::cmd_erase(setup.erase_size, setup.capacity, f, flash, meta);
            bare(status)
        }
        Cmd::Write => write(setup, state, flash, meta),
        Cmd::Verify => check(setup, state, flash, meta),
        Cmd::Reset => restart(cmd_reset::cmd_reset(&state.frame, flash, meta)),
        Cmd::Select => bare(Status::Unsupported),
    }
}

// A good request: the command that its header names.
pub fn handle(setup: Setup, state: &mut State, flash: &mut [u8], meta: &mut [u8]) -> Handled
    ensures { handled_to result state.new flash.new meta.new ≡
        handled_of 52 64 setup (record { state = state.old; flash = flash.old; meta = meta.old }) }
{
    match Cmd::from_u8(state.frame[2]) {
        Some(cmd) => carry(setup, cmd, state, flash, meta),
        None => bare(Status::Unsupported),
    }
}
