// A request that the desk writes into the room lent, and puts to the module.
use crate::module::{Bench, after, lend};
use crate::numbers;
use crate::show::Tail;
use desk_requests::{Request, RequestError, write_request};
use std::io;
use std::io::Write;
use store_flash::cells::{byte_at, first, lay};
use wire_frames::frame::{FRAME, FrameBytes};
use wire_numbers::Cmd;

// The request, before its data. Its command is one, which a line within its limits has.
fn request_of(bytes: &[u8]) -> Request {
    Request {
        cmd: Cmd::from_u8(byte_at(bytes, 0)).unwrap_or(Cmd::Info),
        flags: byte_at(bytes, 1),
        addr: numbers::four(bytes, 2),
    }
}

// A reply takes the request's room, so that it is copied first.
fn copied(request: &[u8]) -> FrameBytes {
    let mut copy = [0u8; FRAME];
    lay(&mut copy, request);
    copy
}

impl Bench {
    // The request and its line; how many bytes it has, none where it was refused.
    fn written(&mut self, bytes: &[u8], out: &mut impl Write) -> io::Result<usize> {
        let room = lend(&mut self.room, self.lent.room);
        let written = write_request(request_of(bytes), after(bytes, 6), room);
        match written {
            Ok(len) => writeln!(out, "wrote 0 {len}{}", Tail(first(&self.room, len)))?,
            Err(RequestError::NoRoom) => writeln!(out, "wrote 14")?,
            Err(RequestError::TooLarge) => writeln!(out, "wrote 20")?,
        }
        Ok(written.unwrap_or(0))
    }

    // The line `w`.
    pub fn write(&mut self, bytes: &[u8], out: &mut impl Write) -> io::Result<()> {
        self.written(bytes, out)?;
        Ok(())
    }

    // The line `u`: the request, put as by `x` with the desk at the other end.
    pub fn ask(&mut self, bytes: &[u8], out: &mut impl Write) -> io::Result<()> {
        let n = self.written(bytes, out)?;
        if n == 0 {
            return Ok(());
        }
        let request = copied(first(&self.room, n));
        self.asks = true;
        self.feed(first(&request, n), out)?;
        self.asks = false;
        Ok(())
    }
}
