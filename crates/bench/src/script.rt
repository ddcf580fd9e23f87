// The script: a line is read whole before it acts.
use crate::fault::Fault;
use crate::line::Line;
use crate::module::{Bench, after, poke, setup_of};
use crate::order::Order;
use crate::{hearing, numbers, rates, starting};
use std::io;
use std::io::{BufReader, Read, Write};
use store_flash::cells::{byte_at, lay};

impl Bench {
    // A line of the script, within its limits.
    fn act(&mut self, order: Order, bytes: &[u8], out: &mut impl Write) -> io::Result<()> {
        match order {
            Order::NewBench => self.renew(setup_of(bytes)),
            Order::LendFlash => self.lent.flash = numbers::four(bytes, 0) as usize,
            Order::LendRecord => self.lent.record = byte_at(bytes, 0) as usize,
            Order::LendRoom => self.lent.room = numbers::two(bytes, 0) as usize,
            Order::StoreFlash => poke(
                &mut self.flash,
                numbers::four(bytes, 0) as usize,
                after(bytes, 4),
            ),
            Order::StoreRecord => lay(&mut self.record, bytes),
            Order::SetNumber => self.set(byte_at(bytes, 0), numbers::four(bytes, 1)),
            Order::StoreFrame => poke(
                &mut self.state.frame,
                byte_at(bytes, 0) as usize,
                after(bytes, 1),
            ),
            Order::Start => self.start(starting::mode_of(byte_at(bytes, 0)), out)?,
            Order::Feed => self.feed(bytes, out)?,
            Order::FeedOnce => self.feed_once(bytes, out)?,
            Order::Show => self.show(out)?,
            Order::Text => {
                out.write_all(bytes)?;
                out.write_all(b"\n")?;
            }
            Order::Cut => self.cut(after(bytes, 1), byte_at(bytes, 0)),
            Order::Early => self.early(starting::mode_of(byte_at(bytes, 0)), out)?,
            Order::RunApp => self.run_app(numbers::two(bytes, 0)),
            Order::Confirm => self.confirm(out)?,
            Order::StoreRate => self.store_rate(rates::rate_of(byte_at(bytes, 0)), out)?,
            Order::ReadRate => self.read_rate(rates::rate_of(byte_at(bytes, 0)), out)?,
            Order::Mend => self.mend(byte_at(bytes, 0), out)?,
            Order::Write => self.write(bytes, out)?,
            Order::Hear => hearing::hear(&mut self.desk, bytes, out)?,
            Order::Ask => self.ask(bytes, out)?,
        }
        Ok(())
    }

    // A line as it was read: what it asks for, or why it is none.
    fn obey(
        &mut self,
        order: Result<Order, Fault>,
        line: &Line,
        out: &mut impl Write,
    ) -> io::Result<()> {
        match order {
            Ok(order) => self.act(order, line.carried(), out),
            Err(fault) => writeln!(out, "? {} {fault}", line.number),
        }
    }
}

// The whole script. What has been printed goes out before more input is waited for. The count of lines ends the loop where no input does.
pub(crate) fn run<R: Read>(
    bench: &mut Bench,
    input: &mut BufReader<R>,
    out: &mut impl Write,
) -> io::Result<()> {
    let mut line = Line::new();
    for number in 1..=u64::MAX {
        let last = line.next(number, input)?;
        // Here and not in `obey`, whose locals cost more than an empty line.
        if let Some(order) = line.order(bench.app.is_some()) {
            bench.obey(order, &line, out)?;
        }
        if input.buffer().is_empty() {
            out.flush()?;
        }
        if last {
            break;
        }
    }
    out.flush()
}
