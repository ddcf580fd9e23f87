// The desk's calls for programs in C or Rust, as an archive: each function of c_desk under its own name, with its own clause.
// Ours: the Rust has no such interface.

#![tactic(auto)]

ghost use Rattle.std.specs.Prelude.{◌≡◌, ◌^◌, ◌∷◌, [], eqb};
ghost use Rattle.laws.specs.Pick.{pick};
ghost use Rattle.laws.specs.Low.{low_bytes};
ghost use Rattle.wire_numbers.specs.declared.Cmd.{Cmd};
ghost use Rattle.desk_requests.specs.Requests.{asks, request_of};
ghost use Rattle.c_desk.specs.Desk.{asked, after_hear, c_asked, c_heard};
ghost use Rattle.c_desk.specs.Captures.{told, c_next, c_compared};

// The six requests, each of its own numbers: 0, or the number of a refusal, and then nothing is written.
#[unsafe(no_mangle)]
pub extern "C" fn tinyboot_request_info(room: &mut [u8]) -> u8
    ensures { asked result room.new ≡ c_asked (request_of 52 (asks Cmd.Info 0 0) [] room.old) }
{
    c_desk::tinyboot_request_info(room)
}

#[unsafe(no_mangle)]
pub extern "C" fn tinyboot_request_erase(addr: u32, count: u16, room: &mut [u8]) -> u8
    ensures { asked result room.new ≡ c_asked (request_of 52 (asks Cmd.Erase 0 addr) (low_bytes 2 count) room.old) }
{
    c_desk::tinyboot_request_erase(addr, count, room)
}

#[unsafe(no_mangle)]
pub extern "C" fn tinyboot_request_write(addr: u32, flush: u8, bytes: &[u8], room: &mut [u8]) -> u8
    ensures { asked result room.new ≡
        c_asked (request_of 52 (asks Cmd.Write (pick (eqb flush 0) 0 (2 ^ 7)) addr) bytes.now room.old) }
{
    c_desk::tinyboot_request_write(addr, flush, bytes, room)
}

#[unsafe(no_mangle)]
pub extern "C" fn tinyboot_request_verify(size: u32, room: &mut [u8]) -> u8
    ensures { asked result room.new ≡ c_asked (request_of 52 (asks Cmd.Verify 0 size) [] room.old) }
{
    c_desk::tinyboot_request_verify(size, room)
}

#[unsafe(no_mangle)]
pub extern "C" fn tinyboot_request_reset(flags: u8, addr: u32, room: &mut [u8]) -> u8
    ensures { asked result room.new ≡ c_asked (request_of 52 (asks Cmd.Reset flags addr) [] room.old) }
{
    c_desk::tinyboot_request_reset(flags, addr, room)
}

#[unsafe(no_mangle)]
pub extern "C" fn tinyboot_request_select(seed: u8, count: u8, prefix: &[u8], room: &mut [u8]) -> u8
    ensures { asked result room.new ≡
        c_asked (request_of 52 (asks Cmd.Select 0 0) (seed ∷ count ∷ prefix.now) room.old) }
{
    c_desk::tinyboot_request_select(seed, count, prefix, room)
}

// Takes bytes until the first frame has ended, into a frame of which `got` bytes have begun, and lays what was heard.
#[unsafe(no_mangle)]
pub extern "C" fn tinyboot_hear(f: &mut [u8], got: usize, bytes: &[u8], heard: &mut [u8]) -> u8
    ensures { after_hear result f.new heard.new ≡
        c_heard 52 f.old got bytes.now heard.old }
{
    c_desk::tinyboot_hear(f, got, bytes, heard)
}

// Lays what stands at a place of a capture.
#[unsafe(no_mangle)]
pub extern "C" fn tinyboot_capture_next(capture: &[u8], at: usize, found: &mut [u8]) -> u8
    ensures { told result found.new ≡ c_next capture.now at found.old }
{
    c_desk::captures::tinyboot_capture_next(capture, at, found)
}

// Compares two captures, and lays where the second differs or which fault was met.
#[unsafe(no_mangle)]
pub extern "C" fn tinyboot_capture_compare(first: &[u8], second: &[u8], compared: &mut [u8]) -> u8
    ensures { told result compared.new ≡ c_compared first.now second.now compared.old }
{
    c_desk::captures::tinyboot_capture_compare(first, second, compared)
}
