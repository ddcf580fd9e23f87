// What a line may carry.
ghost use Rattle.std.specs.Prelude.{◌≡◌, ℕ, ◌+◌, is_ok, leb};
ghost use Rattle.bench.specs.Digits.{between};
ghost use Rattle.bench.specs.Limits.{carried, counted, settable, within, allowed};
ghost use Rattle.bench.specs.Orders.{letter_of};

use crate::fault::Fault;
use crate::numbers;
use crate::order::Order;
use store_flash::cells::byte_at;
use store_record::rewrite::STEPS;
use wire_frames::frame::FRAME;

// The lengths of the buffers: of the flash, the record and the reply room.
pub const FLASH: usize = 65600;

pub const RECORD: usize = 16;

pub const ROOM: usize = 512;

// The entries that a list for a mend may have.
pub const MOST_ENTRIES: usize = 16;

// The last mode, rate and command that there are.
const LAST_MODE: u8 = 1;

const LAST_RATE: u8 = 13;

const LAST_COMMAND: u8 = 5;

// The bytes of a line, and the characters of a text.
pub const LINE: usize = 4096;

// From how many bytes to how many a line has.
#[derive(Clone, Copy)]
struct Count {
    least: usize,
    most: usize,
}

fn from_to(least: usize, most: usize) -> Count
    ensures { (result.least ≡ least) × (result.most ≡ most) }
{
    Count { least, most }
}

#[tactic(auto, unfolding(crate::specs::Limits::carried))]
fn count_of(order: Order) -> Count
    ensures { (n : ℕ) → between result.least result.most n ≡ carried (letter_of order) n }
{
    match order {
        Order::NewBench => from_to(31, 32),
        Order::LendFlash => from_to(4, 4),
        Order::LendRecord => from_to(1, 1),
        Order::LendRoom => from_to(2, 2),
        Order::StoreFlash => from_to(4, LINE),
        Order::StoreRecord => from_to(1, 12),
        Order::SetNumber => from_to(5, 5),
        Order::StoreFrame => from_to(1, LINE),
        Order::Start => from_to(1, 1),
        Order::Feed => from_to(0, LINE),
        Order::FeedOnce => from_to(0, LINE),
        Order::Show => from_to(0, 0),
        Order::Text => from_to(0, LINE),
        Order::Cut => from_to(13, 13),
        Order::Early => from_to(1, 1),
        Order::RunApp => from_to(2, 2),
        Order::Confirm => from_to(0, 0),
        Order::StoreRate => from_to(1, 1),
        Order::ReadRate => from_to(1, 1),
        Order::Mend => from_to(1, 1),
        Order::Write => from_to(6, LINE),
        Order::Hear => from_to(0, LINE),
        Order::Ask => from_to(6, LINE),
    }
}

impl Count {
    fn admit(self, n: usize) -> Result<(), Fault>
        ensures { is_ok result ≡ between self.least self.most n }
    {
        if n < self.least {
            return Err(Fault::TooFew);
        }
        if self.most < n {
            return Err(Fault::TooMany);
        }
        Ok(())
    }
}

fn at_most(n: usize, most: usize, fault: Fault) -> Result<(), Fault>
    ensures { is_ok result ≡ leb n most }
{
    if n <= most { Ok(()) } else { Err(fault) }
}

fn no_more(n: usize, most: usize) -> Result<(), Fault>
    ensures { is_ok result ≡ leb n most }
{
    at_most(n, most, Fault::MoreThan(most))
}

// A number of a list that begins with 0 and ends with `last`; else this fault.
fn known(n: u8, last: u8, fault: Fault) -> Result<(), Fault>
    ensures { is_ok result ≡ leb n last }
{
    at_most(n as usize, last as usize, fault)
}

// So many bytes from a place on end before the buffer does.
fn ends(at: usize, n: usize, end: usize) -> Result<(), Fault>
    ensures { is_ok result ≡ leb (at + n) end }
{
    if at <= end && n <= end - at {
        return Ok(());
    }
    Err(Fault::PastByte(end))
}

// A number of the state, of which an app keeps but the first of three. A value is never cut to a flag.
fn fits(runs: bool, field: u8, value: u32) -> Result<(), Fault>
    ensures { is_ok result ≡ settable runs field value }
{
    match field {
        0 => Ok(()),
        1 | 2 => if runs {
            Err(Fault::NoSuchField)
        } else {
            Ok(())
        },
        3 | 4 => no_more(value as usize, 1),
        _ => Err(Fault::NoSuchField),
    }
}

#[tactic(auto, unfolding(crate::specs::Limits::within))]
fn numbers_fit(runs: bool, order: Order, bytes: &[u8]) -> Result<(), Fault>
    ensures { is_ok result ≡ within runs (letter_of order) bytes.now }
{
    match order {
        Order::LendFlash => no_more(numbers::four(bytes, 0) as usize, FLASH),
        Order::LendRecord => no_more(byte_at(bytes, 0) as usize, RECORD),
        Order::LendRoom => no_more(numbers::two(bytes, 0) as usize, ROOM),
        Order::StoreFlash => ends(
            numbers::four(bytes, 0) as usize,
            bytes.len().saturating_sub(4),
            FLASH,
        ),
        Order::SetNumber => fits(runs, byte_at(bytes, 0), numbers::four(bytes, 1)),
        Order::StoreFrame => ends(
            byte_at(bytes, 0) as usize,
            bytes.len().saturating_sub(1),
            FRAME,
        ),
        Order::Start => known(byte_at(bytes, 0), LAST_MODE, Fault::NoSuchMode),
        Order::Cut => no_more(byte_at(bytes, 0) as usize, STEPS as usize),
        Order::Early => known(byte_at(bytes, 0), LAST_MODE, Fault::NoSuchMode),
        Order::StoreRate => known(byte_at(bytes, 0), LAST_RATE, Fault::NoSuchRate),
        Order::ReadRate => known(byte_at(bytes, 0), LAST_RATE, Fault::NoSuchRate),
        Order::Mend => no_more(byte_at(bytes, 0) as usize, MOST_ENTRIES),
        Order::Write => known(byte_at(bytes, 0), LAST_COMMAND, Fault::NoSuchCommand),
        Order::Ask => known(byte_at(bytes, 0), LAST_COMMAND, Fault::NoSuchCommand),
        _ => Ok(()),
    }
}

// What a line of this letter and these bytes asks for, where the app runs or does not.
pub(crate) fn order_of(runs: bool, letter: u8, bytes: &[u8]) -> Result<Order, Fault>
    ensures { is_ok result ≡ allowed runs letter bytes.now }
{
    let order = Order::from_letter(letter).ok_or(Fault::NoSuchLetter)?;
    count_of(order).admit(bytes.len())?;
    numbers_fit(runs, order, bytes)?;
    Ok(order)
}
