// The module on the bench, and how much of its buffers the calls are lent. What the letters do to it stands in the other files.
use crate::{limits, numbers};
use device_start::new_state;
use device_state::{PRESENT, Setup, State};
use store_flash::cells::{byte_at, lay};
use store_flash::storage::PAGE_SIZE;
use store_record::rewrite;
use wire_frames::frame::{FRAME, Frame};
use wire_numbers::COMPAT_UNSET;

// How much is lent of each buffer.
#[derive(Clone, Copy)]
pub struct Lent {
    pub flash: usize,
    pub record: usize,
    pub room: usize,
}

#[derive(Drop)]
pub struct Bench {
    pub setup: Setup,
    // The state, of the bootloader or of the app.
    pub state: State,
    // The version of the app, while it runs.
    pub app: Option<u16>,
    pub flash: Vec<u8>,
    pub record: [u8; limits::RECORD],
    pub room: [u8; limits::ROOM],
    pub lent: Lent,
    // The frame that the desk hears, and whether the module's replies are put to it.
    pub desk: Frame,
    pub asks: bool,
}

// What is lent of a buffer.
pub(crate) fn lend<'a>(buffer: &'a mut [u8], most: usize) -> &'a mut [u8] {
    let n = most.min(buffer.len());
    &mut buffer[..n]
}

// The setup of a bench that no script has set up yet. Each program says for itself what its module is, in eight numbers.
fn listening() -> Setup {
    Setup {
        erase_size: PAGE_SIZE,
        capacity: 16384,
        id: [0u8; 16],
        id_len: 0,
        version: 0,
        key: COMPAT_UNSET,
        start_kind: PRESENT,
    }
}

// The setup that 31 bytes stand for, or 32: with 31 its start is the present one.
pub(crate) fn setup_of(bytes: &[u8]) -> Setup {
    let mut id = [0u8; 16];
    lay(&mut id, after(bytes, 9));
    Setup {
        erase_size: numbers::four(bytes, 0) as usize,
        capacity: numbers::four(bytes, 4) as usize,
        id,
        id_len: byte_at(bytes, 8) as usize,
        version: numbers::two(bytes, 25),
        key: numbers::four(bytes, 27),
        start_kind: bytes.get(31).copied().unwrap_or(PRESENT),
    }
}

impl Bench {
    // A bench over a flash's buffer.
    pub fn new(flash: Vec<u8>) -> Bench {
        let setup = listening();
        let mut bench = Bench {
            setup,
            state: new_state(false),
            app: None,
            flash,
            record: [0xFF; limits::RECORD],
            room: [0; limits::ROOM],
            lent: Lent {
                flash: 0,
                record: 0,
                room: 0,
            },
            desk: Frame::new(),
            asks: false,
        };
        bench.renew(setup);
        bench
    }

    // A new bench.
    pub fn renew(&mut self, setup: Setup) {
        self.setup = setup;
        self.adopt(new_state(false));
        self.flash.fill(0xFF);
        self.record.fill(0xFF);
        self.room.fill(0);
        self.lent = Lent {
            flash: setup.capacity.min(limits::FLASH),
            record: rewrite::RECORD,
            room: FRAME,
        };
        self.desk = Frame::new();
    }

    // The bootloader's state is the bench's from now on.
    pub fn adopt(&mut self, state: State) {
        self.state = state;
        self.app = None;
    }

    // A number of the state; field 4 is whether the module is open.
    pub fn set(&mut self, field: u8, value: u32) {
        match field {
            0 => self.state.numbers.got = value as usize,
            1 => self.state.numbers.fill = value as usize,
            2 => self.state.numbers.next = value,
            3 => self.state.numbers.selected = value == 1,
            _ => self.state.numbers.closed = value == 0,
        }
    }
}

// The bytes past the first so many, which a line within its limits has.
pub(crate) fn after<'a>(s: &'a [u8], n: usize) -> &'a [u8] {
    s.get(n..).unwrap_or(s)
}

// The bytes from a place on.
pub(crate) fn poke(s: &mut [u8], at: usize, bytes: &[u8]) {
    if at <= s.len() {
        lay(&mut s[at..], bytes);
    }
}
