// The records from the module, each held against the reply of its number.
use crate::show;
use desk_captures::{TO_MODULE, after, next_at, part_at, record_at, same_bytes};
use std::io;
use std::io::Write;

#[derive(Drop)]
pub struct Judged {
    // From where in the capture the next one is sought.
    pub at: usize,
    // How many were the reply of their number.
    pub same: u64,
    // How many replies have no record.
    pub more: u64,
    // One was not the reply of its number, and has been told.
    pub differs: bool,
}

pub(crate) fn new() -> Judged {
    Judged {
        at: 0,
        same: 0,
        more: 0,
        differs: false,
    }
}

// Where the next record from the module stands; or else the end of the capture, or its fault.
fn sought(capture: &[u8], at: usize) -> usize {
    let mut at = at;
    while let Some(record) = record_at(capture, at) {
        if record.mark != TO_MODULE {
            break;
        }
        at = after(capture, at);
    }
    at
}

// The module's next reply, held against the next record. A record is never empty.
pub(crate) fn hold(
    out: &mut impl Write,
    j: &mut Judged,
    capture: &[u8],
    reply: &[u8],
) -> io::Result<()> {
    let at = sought(capture, j.at);
    let record = part_at(capture, at);
    j.at = at;
    if record.is_empty() {
        j.more = j.more.wrapping_add(1);
        return Ok(());
    }
    let number = j.same.wrapping_add(1);
    if same_bytes(record, reply) {
        j.at = after(capture, at);
        j.same = number;
        return Ok(());
    }
    show::differs(out, number, at, record, reply)?;
    j.differs = true;
    Ok(())
}

// Where there are no more replies: a record behind the last of them is none of the module's.
pub(crate) fn rest(out: &mut impl Write, capture: &[u8], j: Judged) -> io::Result<()> {
    let at = sought(capture, j.at);
    match next_at(capture, at) {
        Ok(None) => show::counts(out, j.same, j.more),
        Ok(Some(_)) => show::differs(out, j.same.wrapping_add(1), at, part_at(capture, at), b""),
        Err(fault) => {
            show::counts(out, j.same, j.more)?;
            show::fault(out, fault, at)
        }
    }
}
