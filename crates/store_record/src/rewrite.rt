// Translated from tinyboot, ch32/src/platform/boot_meta_store.rs (MIT OR Apache-2.0), `write`; changed: the record is a lent array of 12 bytes, and the rewrite
// can be cut after any of its steps.

ghost use Rattle.std.specs.Prelude.{◌≡◌, ◌*◌, ◌<◌, take, drop};
ghost use Rattle.std.proofs.lemmas.List.Edits.{sets};
ghost use Rattle.store_record.specs.Cuts.{blank, cut_after};

use store_flash::cells::{lay, put};

// How many bytes a record has.
pub const RECORD: usize = 12;

pub type Record = [u8; RECORD];

// How many steps a whole rewrite has: the erase and three words.
pub const STEPS: u8 = 4;

fn erase(meta: &mut [u8])
    ensures { meta.new ≡ sets meta.old 0 blank }
{
    let erased = [0xFFu8; RECORD];
    lay(meta, &erased);
}

// Word k of the new record, in its place.
fn word(meta: &mut [u8], new: Record, k: usize)
    requires { k < 3 }
    ensures { meta.new ≡ sets meta.old (4 * k) (take 4 (drop (4 * k) new)) }
{
    let at = 4 * k;
    put(meta, at, new[at]);
    put(meta, at + 1, new[at + 1]);
    put(meta, at + 2, new[at + 2]);
    put(meta, at + 3, new[at + 3]);
}

// The first so many steps of a rewrite, as when the plug is pulled then. What has not 12 bytes is no record, and stays as it is.
pub fn rewrite_steps(meta: &mut [u8], new: Record, steps: u8)
    ensures { meta.new ≡ cut_after steps new meta.old }
{
    if meta.len() != RECORD {
        return;
    }
    if steps == 0 {
        return;
    }
    erase(meta);
    if steps < 2 {
        return;
    }
    word(meta, new, 0);
    if steps < 3 {
        return;
    }
    word(meta, new, 1);
    if steps < 4 {
        return;
    }
    word(meta, new, 2);
}
