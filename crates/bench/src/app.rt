// The app that runs: what the wire brings is put to it, over the bench's setup, record and room. The bench keeps its frame and its numbers in the place of the
// bootloader's, which a start makes anew.
use crate::module::{Bench, lend};
use app_client::app_feed_in;
use app_state::{AppNumbers, AppSetup, AppState, app_new};
use device_feed::Passed;
use device_state::{Numbers, Setup};
use store_flash::storage::NONE_PENDING;

// The kind of start is not the app's.
fn setup_of(s: Setup, app_version: u16) -> AppSetup {
    let id = s.id;
    AppSetup {
        erase_size: s.erase_size,
        capacity: s.capacity,
        id,
        id_len: s.id_len,
        version: s.version,
        key: s.key,
        app_version,
    }
}

// An app has no run of Writes.
fn kept(n: AppNumbers) -> Numbers {
    Numbers {
        got: n.got,
        fill: 0,
        next: NONE_PENDING,
        selected: n.selected,
        closed: n.closed,
    }
}

fn numbers_of(n: Numbers) -> AppNumbers {
    AppNumbers {
        got: n.got,
        selected: n.selected,
        closed: n.closed,
    }
}

impl Bench {
    fn keep(&mut self, app: AppState) {
        let frame = app.frame;
        self.state.frame = frame;
        self.state.numbers = kept(app.numbers);
    }

    // The line `a`: from now on the app runs, with a new state.
    pub fn run_app(&mut self, version: u16) {
        self.keep(app_new());
        self.app = Some(version);
    }

    // The call, on what is lent.
    pub fn app_fed(&mut self, version: u16, bytes: &[u8]) -> Passed {
        let mut app = AppState {
            frame: self.state.frame,
            numbers: numbers_of(self.state.numbers),
        };
        let p = app_feed_in(
            setup_of(self.setup, version),
            &mut app,
            bytes,
            lend(&mut self.record, self.lent.record),
            lend(&mut self.room, self.lent.room),
        );
        self.keep(app);
        p
    }
}
