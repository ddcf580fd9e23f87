// A record mended, and a list of what was done. Ours: the Rust reads an odd record as it stands.

#![tactic(auto)]

ghost use Rattle.std.specs.Prelude.{◌≡◌, [], ◌∷◌, ℕ, ◌-◌, ◌*◌, ◌^◌, ◌<◌, replicate};
ghost use Rattle.std.proofs.lemmas.List.Edits.{sets};
ghost use Rattle.device_mend.specs.Mend.{low_ones, missized, mended, changes, changed, leaves, mended_to, refusal_in, count_in, mend_number, mend_of};

use device_early::is_sizeless;
use device_state::{Setup, refusal};
use store_flash::cells::put;
use store_record::boot_meta_store;
use store_record::boot_meta_store::starts_left;
use store_record::rewrite::{RECORD, Record};
use store_record::traits::BootState;

// An entry of the list: place, old byte, new byte.
pub const ENTRY: usize = 3;

// How many entries a list must have room for: one for each byte of a record.
pub const ENTRIES: usize = 12;

const LIST: usize = ENTRY * ENTRIES;

// Why nothing is mended: neither record nor list has changed.
#[derive(Clone, Copy, Debug, PartialEq, Eq)]
pub enum MendError {
    BadSetup,
    BadRecord,
    ShortList,
}

// How many bytes were mended, or the refusal, in one number: no count is as high as a refusal's.
pub fn mend_number(mended: Result<u8, MendError>) -> u8
    ensures { result ≡ mend_number mended }
{
    match mended {
        Ok(count) => count,
        Err(MendError::BadSetup) => 10,
        Err(MendError::BadRecord) => 13,
        Err(MendError::ShortList) => 27,
    }
}

fn run_of(n: u32) -> u8
    requires { n < 9 }
    ensures { result ≡ 2 ^ n - 1 }
{
    ((1u32 << n) - 1) as u8
}

// Trials with as many starts left, all of them at the low end. Low ones, as nearly every record has them, are told by their count and the zeros above.
fn low_ones(trials: u8) -> u8
    ensures { result ≡ low_ones trials }
{
    let x = trials as u32;
    let ones = u32::count_ones(x);
    if u32::leading_zeros(x) + ones == 32 {
        return trials;
    }
    let left = starts_left(trials);
    run_of(left)
}

fn is_missized(capacity: usize, meta: &[u8]) -> bool
    ensures { result ≡ missized capacity meta.now }
{
    boot_meta_store::app_checksum(meta) != 0xFFFF && is_sizeless(capacity, meta)
}

// The record with no image: Updating, no checksum, no size.
fn without_image(old: Record, trials: u8) -> Record
    ensures { result ≡ sets old 0 (0x7F ∷ trials ∷ replicate {A = ℕ} 6 0xFF) }
{
    let mut new = old;
    new[0] = 0x7F;
    new[1] = trials;
    new[2] = 0xFF;
    new[3] = 0xFF;
    new[4] = 0xFF;
    new[5] = 0xFF;
    new[6] = 0xFF;
    new[7] = 0xFF;
    new
}

// The record as it is to be.
fn as_mended(capacity: usize, old: Record) -> Record
    ensures { result ≡ mended capacity old }
{
    let trials = low_ones(old[1]);
    if is_missized(capacity, &old) {
        return without_image(old, trials);
    }
    let state = BootState::from_u8(old[0]);
    let mut new = old;
    new[0] = state.to_u8();
    new[1] = trials;
    new
}

// One entry, in its place. The list is the caller's flat bytes; parts of three by an iterator are larger on controllers.
fn enter(list: &mut [u8], n: usize, k: u8, old: u8, new: u8)
    requires { n < 12 }
    ensures { list.new ≡ sets list.old (3 * n) (k ∷ old ∷ new ∷ []) }
{
    let at = ENTRY * n;
    put(list, at, k);
    put(list, at + 1, old);
    put(list, at + 2, new);
}

// An entry for each byte that differs; how many there are.
fn list_changes(old: Record, new: Record, list: &mut [u8]) -> u8
    ensures { (result ≡ changed old new) × (list.new ≡ sets list.old 0 (changes 0 old new)) }
{
    let mut n: usize = 0;
    for k in 0..RECORD {
        if old[k] != new[k] {
            enter(list, n, k as u8, old[k], new[k]);
            n += 1;
        }
    }
    n as u8
}

fn mend_record(capacity: usize, meta: &mut Record, list: &mut [u8]) -> u8
    ensures { leaves 0 result meta.new list.new ≡ mended_to capacity meta.old list.old }
{
    let old = *meta;
    let new = as_mended(capacity, old);
    *meta = new;
    list_changes(old, new, list)
}

// Mends the record, lists each byte that it has changed by place, old and new, and says how many these are. What the list has past them stays.
#[tactic(auto, unfolding(crate::specs::Mend::mend_of))]
pub fn mend(setup: Setup, meta: &mut [u8], list: &mut [u8]) -> Result<u8, MendError>
    ensures { leaves (refusal_in result) (count_in result) meta.new list.new ≡ mend_of 64 setup meta.old list.old }
{
    let capacity = setup.capacity;
    if !refusal::set_up(setup) {
        return Err(MendError::BadSetup);
    }
    let Some(record) = meta.as_mut_array::<RECORD>() else {
        return Err(MendError::BadRecord);
    };
    if list.len() < LIST {
        return Err(MendError::ShortList);
    }
    Ok(mend_record(capacity, record, list))
}
