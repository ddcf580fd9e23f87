// What the desk hears, in a frame of its own that it keeps from call to call.
use crate::show::Tail;
use desk_replies::{Contents, Heard, data_of, hear_in};
use std::io;
use std::io::Write;
use wire_frames::frame::Frame;
use wire_info::InfoData;

fn info(out: &mut impl Write, info: InfoData) -> io::Result<()> {
    write!(out, "info {} {} ", info.capacity, info.erase_size)?;
    write!(out, "{} {} ", info.boot_version, info.app_version)?;
    write!(out, "{} {} ", info.mode, info.boot_baud)?;
    writeln!(out, "{} {}", info.compat, info.max_payload)
}

// A call's line. The data stand in the frame, which is always a true beginning, so that no call refuses it.
fn told(out: &mut impl Write, heard: Heard, taken: usize, f: &[u8]) -> io::Result<()> {
    match heard {
        Heard::Nothing => writeln!(out, "heard 0 {taken}"),
        Heard::Request { head } => {
            let data = Tail(data_of(f, head));
            writeln!(
                out,
                "heard 1 {taken} {} {} {}{data}",
                head.cmd, head.addr, head.flags
            )
        }
        Heard::Reply { head, contents } => {
            write!(out, "heard 2 {taken} {} {} ", head.cmd, head.status)?;
            write!(out, "{} {} ", head.addr, head.flags)?;
            match contents {
                Contents::Info { info: data } => info(out, data),
                Contents::Verify { crc } => writeln!(out, "verify {crc}"),
                Contents::Select => writeln!(out, "select{}", Tail(data_of(f, head))),
                Contents::Plain => writeln!(out, "plain{}", Tail(data_of(f, head))),
            }
        }
        Heard::Faulty { status } => writeln!(out, "heard 3 {taken} {status}"),
        Heard::Refused => writeln!(out, "heard 11 {taken}"),
    }
}

// The line `h`: at least one call; then what it did not take is handed in again, until none is left.
pub(crate) fn hear(desk: &mut Frame, bytes: &[u8], out: &mut impl Write) -> io::Result<()> {
    let mut rest = bytes;
    // Each call but the last takes a byte.
    for _ in 0..=bytes.len() {
        let p = hear_in(&mut desk.bytes, desk.got, rest);
        let taken = p.taken;
        desk.got = p.got;
        told(out, p.heard, taken, &desk.bytes)?;
        if taken == 0 || rest.len() <= taken {
            break;
        }
        rest = &rest[taken..];
    }
    Ok(())
}
