// The device for programs in C or Rust, as an archive: each function of tinyboot_c under its own name, with its own clause.
// Ours: the Rust has no such interface.

#![tactic(auto)]

ghost use Rattle.std.specs.Prelude.{◌≡◌};
ghost use Rattle.wire_numbers.specs.Crc.{crc_from};
ghost use Rattle.wire_numbers.specs.Key.{key_of};
ghost use Rattle.app_record.specs.Changes.{leaves, confirm_of};
ghost use Rattle.c_layout.specs.Layout.{state_size};
ghost use Rattle.c_app.specs.Calls.{after_app, c_app_new, c_set_baud, c_baud, c_position};
ghost use Rattle.c_start.specs.Start.{after_new, c_new, after_start};
ghost use Rattle.tinyboot_c.specs.Calls.{after_feed, c_fed, c_started, c_early, c_app_fed, after_mend, c_mended};

// How many bytes a state takes.
#[unsafe(no_mangle)]
pub extern "C" fn tinyboot_state_size() -> usize
    ensures { result ≡ state_size 52 64 }
{
    tinyboot_c::tinyboot_state_size()
}

// The register `crc` after these bytes, for hosts that make frames.
#[unsafe(no_mangle)]
pub extern "C" fn tinyboot_crc16(crc: u16, bytes: &[u8]) -> u16
    ensures { result ≡ crc_from crc bytes.now }
{
    tinyboot_c::tinyboot_crc16(crc, bytes)
}

// The key of a name, for who sets up a module or makes an image for it.
#[unsafe(no_mangle)]
pub extern "C" fn tinyboot_key(name: &[u8]) -> u32
    ensures { result ≡ key_of name.now }
{
    tinyboot_c::tinyboot_key(name)
}

// An open new state, where the buffer is as long as a state.
#[unsafe(no_mangle)]
pub extern "C" fn tinyboot_new_state(state: &mut [u8]) -> u8
    ensures { after_new result state.new ≡ c_new 52 64 state.old }
{
    tinyboot_c::tinyboot_new_state(state)
}

// Takes the bytes up to the end of the first frame in them, and carries that frame out.
#[unsafe(no_mangle)]
pub extern "C" fn tinyboot_feed(
    setup: &[u8],
    state: &mut [u8],
    bytes: &[u8],
    flash: &mut [u8],
    meta: &mut [u8],
    reply: &mut [u8],
    answer: &mut [u8],
) -> u8
    ensures { after_feed result state.new flash.new meta.new reply.new answer.new ≡
        c_fed 52 64 setup.now state.old bytes.now flash.old meta.old reply.old
        answer.old }
{
    tinyboot_c::tinyboot_feed(setup, state, bytes, flash, meta, reply, answer)
}

// A restart, or the first start: mode 0 asks for the app, every other for Service.
#[unsafe(no_mangle)]
pub extern "C" fn tinyboot_start(
    mode: u8,
    setup: &[u8],
    state: &mut [u8],
    flash: &[u8],
    meta: &mut [u8],
    answer: &mut [u8],
) -> u8
    ensures { after_start result state.new meta.new answer.new ≡
        c_started 52 64 mode setup.now state.old flash.now meta.old answer.old }
{
    tinyboot_c::tinyboot_start(mode, setup, state, flash, meta, answer)
}

// Whether a start that asks for this mode will stay, from the record alone: nothing is written.
#[unsafe(no_mangle)]
pub extern "C" fn tinyboot_early(mode: u8, setup: &[u8], meta: &[u8]) -> u8
    ensures { result ≡ c_early 64 mode setup.now meta.now }
{
    tinyboot_c::tinyboot_early(mode, setup, meta)
}

// Takes the bytes up to the end of the first frame in them, and answers that frame as the running app.
#[unsafe(no_mangle)]
pub extern "C" fn tinyboot_app_feed(
    setup: &[u8],
    state: &mut [u8],
    bytes: &[u8],
    meta: &mut [u8],
    reply: &mut [u8],
    answer: &mut [u8],
) -> u8
    ensures { after_app result state.new meta.new reply.new answer.new ≡
        c_app_fed 52 64 setup.now state.old bytes.now meta.old reply.old answer.old }
{
    tinyboot_c::tinyboot_app_feed(setup, state, bytes, meta, reply, answer)
}

// A new state of the app, where the buffer is as long as one.
#[unsafe(no_mangle)]
pub extern "C" fn tinyboot_app_new_state(state: &mut [u8]) -> u8
    ensures { after_new result state.new ≡ c_app_new 52 state.old }
{
    tinyboot_c::tinyboot_app_new_state(state)
}

// The app on trial stays.
#[unsafe(no_mangle)]
pub extern "C" fn tinyboot_confirm(meta: &mut [u8]) -> u8
    ensures { leaves result meta.new ≡ confirm_of meta.old }
{
    tinyboot_c::tinyboot_confirm(meta)
}

// The stored rate in bits per second, or the one with this index where none is stored.
#[unsafe(no_mangle)]
pub extern "C" fn tinyboot_baud(meta: &[u8], default_index: u8) -> u32
    ensures { result ≡ c_baud meta.now default_index }
{
    tinyboot_c::tinyboot_baud(meta, default_index)
}

// Stores the rate with this index.
#[unsafe(no_mangle)]
pub extern "C" fn tinyboot_set_baud(meta: &mut [u8], index: u8) -> u8
    ensures { leaves result meta.new ≡ c_set_baud meta.old index }
{
    tinyboot_c::tinyboot_set_baud(meta, index)
}

// The place in the row.
#[unsafe(no_mangle)]
pub extern "C" fn tinyboot_position(meta: &[u8]) -> u16
    ensures { result ≡ c_position meta.now }
{
    tinyboot_c::tinyboot_position(meta)
}

// A record put in order: how many bytes of it have changed, each listed by place, old and new byte; or the refusal.
#[unsafe(no_mangle)]
pub extern "C" fn tinyboot_mend(setup: &[u8], meta: &mut [u8], list: &mut [u8]) -> u8
    ensures { after_mend result meta.new list.new ≡ c_mended 64 setup.now meta.old list.old }
{
    tinyboot_c::tinyboot_mend(setup, meta, list)
}
