// A rewrite of the record that is cut, as when the plug is pulled.
use crate::module::{Bench, lend};
use store_flash::cells::lay;
use store_record::rewrite::{RECORD, rewrite_steps};

impl Bench {
    // The line `j`: the first so many steps, on what is lent of the record.
    pub fn cut(&mut self, bytes: &[u8], steps: u8) {
        let mut new = [0xFF; RECORD];
        lay(&mut new, bytes);
        rewrite_steps(lend(&mut self.record, self.lent.record), new, steps);
    }
}
