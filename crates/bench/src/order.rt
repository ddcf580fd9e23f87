// What a line can ask for: docs/BENCH.md has each letter.
ghost use Rattle.std.specs.Prelude.{◌≡◌, ℕ, false, MatchOption};
ghost use Rattle.bench.specs.Limits.{carried};
ghost use Rattle.bench.specs.Orders.{letter_of};

#[derive(Clone, Copy, Debug, PartialEq, Eq)]
pub enum Order {
    NewBench,
    LendFlash,
    LendRecord,
    LendRoom,
    StoreFlash,
    StoreRecord,
    SetNumber,
    StoreFrame,
    Start,
    Feed,
    FeedOnce,
    Show,
    Text,
    Cut,
    Early,
    RunApp,
    Confirm,
    StoreRate,
    ReadRate,
    Mend,
    Write,
    Hear,
    Ask,
}

impl Order {
    pub fn from_letter(letter: u8) -> Option<Order>
        ensures { MatchOption result ((n : ℕ) → carried letter n ≡ false) (λ order. letter_of order ≡ letter) }
    {
        match letter {
            b's' => Some(Order::NewBench),
            b'n' => Some(Order::LendFlash),
            b'c' => Some(Order::LendRecord),
            b'm' => Some(Order::LendRoom),
            b'f' => Some(Order::StoreFlash),
            b'r' => Some(Order::StoreRecord),
            b'p' => Some(Order::SetNumber),
            b'q' => Some(Order::StoreFrame),
            b'b' => Some(Order::Start),
            b'x' => Some(Order::Feed),
            b'o' => Some(Order::FeedOnce),
            b'd' => Some(Order::Show),
            b't' => Some(Order::Text),
            b'j' => Some(Order::Cut),
            b'e' => Some(Order::Early),
            b'a' => Some(Order::RunApp),
            b'k' => Some(Order::Confirm),
            b'g' => Some(Order::StoreRate),
            b'y' => Some(Order::ReadRate),
            b'v' => Some(Order::Mend),
            b'w' => Some(Order::Write),
            b'h' => Some(Order::Hear),
            b'u' => Some(Order::Ask),
            _ => None,
        }
    }
}
