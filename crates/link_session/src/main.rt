// 01's session on typed orders: the link's own opening, booking and sweeping, with no record between. It prints the same
// lines as crate `session` does from the bytes.
#![tactic(auto)]

ghost use Rattle.std.specs.Prelude.{OnOk};
ghost use Rattle.memory.specs.Holds.{Whole};
ghost use Rattle.lines.specs.Lines.{Writes};
ghost use Rattle.link_session.specs.Orders.{InBounds};

use lines::Line;
use lines::output::Output;
use rule::answer::Answer;
use rule::moments::Moment;
use ruling::bounds::Settings;
use std::io::{Result, Write};

const ROOM: u64 = 256;

// The bytes that a link with that room needs.
const NEED: usize = node::HEADER_BYTES + node::NODE_BYTES * (2 * ROOM as usize + 1);

// Room for the whole text, so that it is written in one go.
const LONGEST_TEXT: usize = 2048;

// An order on the link, with what its record would say of it.
#[derive(Clone, Copy)]
enum Order {
    Book {
        arrival: u64,
        burst: u64,
        lines: u64,
    },
    Sweep {
        moment: u64,
    },
}

// The ten orders.
const ORDERS: [Order; 10] = [
    Order::Book {
        arrival: 10,
        burst: 5,
        lines: 0,
    },
    Order::Book {
        arrival: 12,
        burst: 2,
        lines: 0,
    },
    Order::Book {
        arrival: 14,
        burst: 3,
        lines: 0,
    },
    Order::Book {
        arrival: 15,
        burst: 4,
        lines: 1,
    },
    Order::Book {
        arrival: 16,
        burst: 1,
        lines: 1,
    },
    Order::Book {
        arrival: 16,
        burst: 1,
        lines: 0,
    },
    Order::Sweep { moment: 11 },
    Order::Book {
        arrival: 9,
        burst: 1,
        lines: 0,
    },
    Order::Book {
        arrival: 19,
        burst: 2,
        lines: 0,
    },
    Order::Sweep { moment: 10 },
];

// The link's answer to an order.
fn answer(mem: &mut [u8], order: Order) -> Answer
    requires in_bounds { InBounds order }
    requires whole { Whole mem.old }
    ensures { Whole mem.new }
{
    match order {
        Order::Book {
            arrival,
            burst,
            lines,
        } => Answer::of(booking::book(mem, Moment { ticks: arrival }, burst, lines)),
        Order::Sweep { moment } => Answer::of(sweeping::sweep(mem, Moment { ticks: moment })),
    }
}

// The ten orders, and a line for each.
fn play<W: Write>(out: &mut W, mem: &mut [u8]) -> Result<()>
    requires { Whole mem.old }
    ensures { OnOk result (Writes 1280 (W.contents out.old) (W.contents out.new)) }
{
    for i in 0..ORDERS.len() {
        let answer = answer(mem, ORDERS[i]);
        Line::answer(i as u64 + 1, answer).write(out)?;
    }
    Ok(())
}

// The opening: 2 channels, leap 1000, floor 0, one line of 5, room 256. Then the orders, and the voids kept.
fn session<W: Write>(out: &mut W, mem: &mut [u8]) -> Result<()>
    ensures { OnOk result (Writes 2048 (W.contents out.old) (W.contents out.new)) }
{
    let settings = Settings {
        room: ROOM,
        channels: 2,
        leap: 1000,
        delays: &[5],
    };
    if let Err(why) = opening::open(mem, &settings, Moment { ticks: 0 }) {
        let code = why.into();
        return Line::Refusal { n: 0, code }.write(out);
    }
    let opened = Line::Opening {
        channels: 2,
        lines: 1,
    };
    opened.write(out)?;
    play(out, mem)?;
    let voids = calls::tell::tell(mem).voids;
    Line::Kept { voids }.write(out)
}

fn main() {
    let mut mem = [0u8; NEED];
    let mut out = Output::<LONGEST_TEXT>::new();
    let _ = session(&mut out, &mut mem);
    let _ = out.flush();
}
