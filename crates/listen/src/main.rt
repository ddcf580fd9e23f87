// Feeds an unaddressed device what stands on standard input, and prints what each frame was answered: where it ends, and the reply's status or `silent` and
// why; at the end, how many bytes of a frame have begun. A restart ends it.

#![tactic(auto)]

use device_feed::feed;
use device_replies::Answer;
use device_start::new_state;
use device_state::{PRESENT, Setup, State};
use device_turns::Silence;
use std::io;
use std::io::{BufWriter, Read, Write};
use store_flash::storage::PAGE_SIZE;
use wire_frames::frame::FRAME;
use wire_numbers::COMPAT_UNSET;

const CAPACITY: usize = 16384;

// The device, and how many bytes of the stream it has heard.
#[derive(Drop)]
struct Device {
    state: State,
    flash: Vec<u8>,
    record: [u8; 12],
    bytes: u64,
}

fn unaddressed() -> Setup {
    Setup {
        erase_size: PAGE_SIZE,
        capacity: CAPACITY,
        id: [0u8; 16],
        id_len: 0,
        version: 0,
        key: COMPAT_UNSET,
        start_kind: PRESENT,
    }
}

fn reason(why: Silence) -> &'static str {
    match why {
        Silence::OverheardReply => "overheard reply",
        Silence::UnreadableFrame => "unreadable frame",
        Silence::WrongCrc => "wrong CRC",
        Silence::NotSelected => "not selected",
        Silence::SelectWithoutMatch => "Select without a match",
    }
}

// A frame that has ended gets a line; whether the device listens on.
fn tell(out: &mut impl Write, at: u64, answer: Answer, status: u8) -> io::Result<bool> {
    match answer {
        Answer::Quiet => Ok(true),
        Answer::Silent { why } => {
            writeln!(out, "{at} silent {}", reason(why))?;
            Ok(true)
        }
        Answer::Reply { .. } => {
            writeln!(out, "{at} {status}")?;
            Ok(true)
        }
        Answer::Restart { .. } => {
            writeln!(out, "{at} {status}")?;
            Ok(false)
        }
        Answer::Refused(_) => Ok(false),
    }
}

impl Device {
    // One call, as far as the end of a frame: how many bytes it took, or None where the device listens no more.
    fn call(&mut self, bytes: &[u8], out: &mut impl Write) -> io::Result<Option<usize>> {
        let mut reply = [0u8; FRAME];
        let f = feed(
            unaddressed(),
            self.state,
            bytes,
            &mut self.flash,
            &mut self.record,
            &mut reply,
        );
        let taken = f.taken;
        let answer = f.answer;
        self.state = f.state;
        self.bytes = self.bytes.wrapping_add(taken as u64);
        let on = tell(out, self.bytes, answer, reply[3])?;
        Ok(on.then_some(taken))
    }

    // All that one read brought, frame by frame; whether the device listens on.
    fn hear(&mut self, bytes: &[u8], out: &mut impl Write) -> io::Result<bool> {
        let mut rest = bytes;
        // Each call takes a byte.
        for _ in 0..bytes.len() {
            match self.call(rest, out)? {
                None => return Ok(false),
                Some(taken) if taken < rest.len() => rest = &rest[taken..],
                Some(_) => break,
            }
        }
        Ok(true)
    }

    // The stream to its end, or to a restart. What has been printed goes out before each read. A proved loop has to end, and nothing says that a stream does,
    // so the reads are counted up to a number that no run comes to.
    fn hear_all(&mut self, input: &mut impl Read, out: &mut impl Write) -> io::Result<()> {
        let mut space = [0u8; 4096];
        for _ in 0..u64::MAX {
            out.flush()?;
            let n = input.read(&mut space)?;
            if n == 0 || !self.hear(&space[..n], out)? {
                break;
            }
        }
        Ok(())
    }
}

fn main(rt: HostRuntime) -> io::Result<()> {
    let mut out = BufWriter::new(rt.alloc(), io::writer(&rt))?;
    let mut device = Device {
        state: new_state(false),
        flash: vec![in rt.alloc(); 0xFF; CAPACITY]?,
        record: [0xFF; 12],
        bytes: 0,
    };
    writeln!(out, "end answer")?;
    device.hear_all(&mut rt.stdin(), &mut out)?;
    writeln!(out, "open {}", device.state.numbers.got)?;
    out.flush()
}
