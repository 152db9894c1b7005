// Lists the times of a document from standard input, a time to a line. Then comes a refusal, if there is one: `refused` with its number and place. The last
// line has how many times there are and `in order`, or `lower at` and the first index, from 0, that is lower than the one before it. The document has at most
// 65,536 bytes, and 64 names may be open.
#![tactic(auto)]

use columns::column as read_column;
use columns::order::Order;
use columns::spell::spell;
use lines::line::{say, say_numbers};
use lines::whole::{more, read_full, say_refused};
use std::io;
use std::io::Write;

fn main(rt: HostRuntime) -> io::Result<()> {
    let mut input = rt.reader();
    let mut out = io::writer(&rt);
    let mut buffer = [0u8; 65536];
    let n = read_full(&mut input, &mut buffer)?;
    if more(&mut input, n)? {
        say_refused(&mut out, 16, 0)?;
        return say_order(&mut out, 0, Order::Kept);
    }
    list(&mut out, &buffer[..n])
}

// The times, the refusal and the order. The column has a slot for every five bytes: a time has as many.
fn list<W: Write>(out: &mut W, document: &[u8]) -> io::Result<()> {
    let mut stack = [0usize; 128];
    let mut times = [0usize; 13107];
    let summary = read_column(document, &mut stack, &mut times);
    let outcome = summary.outcome;
    let order = summary.order;
    say_times(out, &times[..summary.count])?;
    if outcome.is_refused() {
        let values = outcome.values();
        say_refused(out, values.number, values.place)?;
    }
    say_order(out, summary.count, order)
}

fn say_times<W: Write>(out: &mut W, times: &[usize]) -> io::Result<()> {
    let mut i = 0;
    while i < times.len() {
        say_time(out, times[i])?;
        i += 1;
    }
    Ok(())
}

fn say_time<W: Write>(out: &mut W, value: usize) -> io::Result<()> {
    let text = [
        spell(value, 0),
        spell(value, 1),
        spell(value, 2),
        spell(value, 3),
        spell(value, 4),
        b'\n',
    ];
    say(out, &text)
}

fn say_order<W: Write>(out: &mut W, count: usize, order: Order) -> io::Result<()> {
    let lower = order.number();
    let numbers = [count, lower];
    if lower == 0 {
        say_numbers(out, b"# in order\n", &numbers[..1])
    } else {
        say_numbers(out, b"# lower at #\n", &numbers)
    }
}
