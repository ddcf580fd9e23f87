// The rate that a record's baud stands for. After tinyboot, ch32/src/platform/boot_meta_store.rs (MIT OR Apache-2.0), whose `stored_baud` gives the index and
// leaves the rest to the chip.

#![tactic(auto)]

ghost use Rattle.std.specs.Prelude.{◌≡◌};
ghost use Rattle.wire_rates.specs.Baud.{baud_index};
ghost use Rattle.store_rate.specs.Rate.{rate_read};

use store_record::boot_meta_store;
use store_record::rewrite::RECORD;
use wire_rates::BaudRate;

// The rate of the record's baud; the build's own where its index has none, and where the bytes are no record.
#[tactic(auto, unfolding(crate::specs::Rate::rate_read))]
pub fn baud(meta: &[u8], default: BaudRate) -> BaudRate
    ensures { baud_index result ≡ rate_read meta.now (baud_index default) }
{
    if meta.len() == RECORD {
        let Some(rate) = BaudRate::from_u8(boot_meta_store::baud(meta)) else {
            return default;
        };
        return rate;
    }
    default
}
