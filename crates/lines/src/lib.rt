// The lines of 01's session (A session in full), as they are printed.
#![tactic(auto)]

pub mod output;

ghost use Rattle.std.specs.Prelude.{◌≡◌, ◌+◌, ◌≤◌, ◌++◌, ◌∷◌, [], Some, OnOk, length, drop, decimal};
ghost use Rattle.std.specs.Io.KnownBytes.{Appends};
ghost use Rattle.lines.specs.Lines.{line_of, text_of, longest_line, written, Writes};

use rule::answer::Answer;
use std::fmt;
use std::io::{self, Write};

// A line takes at most so many bytes, its newline among them.
pub const LONGEST_LINE: usize = 128;

// A line, by its letter: L, B, S, R or E. What is answered to a record has the record's number n.
#[derive(Clone, Copy)]
pub enum Line {
    Opening {
        channels: u64,
        lines: u64,
    },
    Booking {
        n: u64,
        channel: u64,
        line: u64,
        start: u64,
        finish: u64,
    },
    Sweep {
        n: u64,
        dropped: u64,
    },
    Refusal {
        n: u64,
        code: u64,
    },
    Kept {
        voids: u64,
    },
}

impl Line {
    // The line of the n-th record's answer. A booking's finish is never 0: that tells it from a sweep.
    pub fn answer(n: u64, answer: Answer) -> Line
        ensures { result ≡ line_of n answer }
    {
        match answer {
            Answer {
                code: 0,
                finish: 0,
                dropped,
                ..
            } => Line::Sweep { n, dropped },
            Answer {
                code: 0,
                channel,
                line,
                start,
                finish,
                ..
            } => Line::Booking {
                n,
                channel,
                line,
                start,
                finish,
            },
            Answer { code, .. } => Line::Refusal { n, code },
        }
    }

    // The line and a newline, as the end of a text; where they begin there. It cannot fail, whatever takes the text then.
    pub fn spell(self, text: &mut [u8]) -> usize
        requires { length text.old ≡ longest_line }
        ensures { (result ≤ longest_line) × (drop result text.new ≡ written self) }
    {
        let end = byte(text, LONGEST_LINE, b'\n');
        match self {
            Line::Opening { channels, lines } => {
                let b = number(text, end, lines);
                let a = number(text, b, channels);
                head(text, a, 0, b'L')
            }
            Line::Booking {
                n,
                channel,
                line,
                start,
                finish,
            } => {
                let d = number(text, end, finish);
                let c = number(text, d, start);
                let b = number(text, c, line);
                let a = number(text, b, channel);
                head(text, a, n, b'B')
            }
            Line::Sweep { n, dropped } => {
                let a = number(text, end, dropped);
                head(text, a, n, b'S')
            }
            Line::Refusal { n, code } => {
                let a = number(text, end, code);
                head(text, a, n, b'R')
            }
            Line::Kept { voids } => {
                let a = number(text, end, voids);
                byte(text, a, b'E')
            }
        }
    }

    // Writes the line and a newline: in one piece, which costs a third of `Display`'s pieces (docs/DESIGN-PASS.md).
    pub fn write<W: Write>(self, out: &mut W) -> io::Result<()>
        ensures text { OnOk result (Appends (W.contents out.old) (W.contents out.new) (written self)) }
        ensures short { OnOk result (Writes longest_line (W.contents out.old) (W.contents out.new)) }
    {
        let mut text = [0u8; LONGEST_LINE];
        let at = self.spell(&mut text);
        out.write_all(&text[at..])
    }
}

// A byte before a place in a text; its own place.
fn byte(text: &mut [u8], end: usize, b: u8) -> usize
    requires { (1 ≤ end) × (end ≤ length text.old) }
    ensures { (result + 1 ≡ end) × (drop result text.new ≡ b ∷ drop end text.old) }
{
    let at = end - 1;
    text[at] = b;
    at
}

// A blank and a number before a place; where they begin.
fn number(text: &mut [u8], end: usize, v: u64) -> usize
    requires { (21 ≤ end) × (end ≤ length text.old) }
    ensures { (end ≤ result + 21) × (result ≤ end) × (drop result text.new ≡ 32 ∷ decimal v ++ drop end text.old) }
{
    let at = itoa::write_digits(v, text, end);
    byte(text, at, b' ')
}

// A number, a blank and a letter before a place; where they begin.
fn head(text: &mut [u8], end: usize, n: u64, letter: u8) -> usize
    requires { (22 ≤ end) × (end ≤ length text.old) }
    ensures { (result ≤ end) × (drop result text.new ≡ decimal n ++ 32 ∷ letter ∷ drop end text.old) }
{
    let at = byte(text, end, letter);
    let blank = byte(text, at, b' ');
    itoa::write_digits(n, text, blank)
}

impl fmt::Display for Line {
    ghost output = { λ line. Some (text_of line) };

    fn fmt<W: fmt::Write>(&self, f: &mut fmt::Formatter<W>) -> fmt::Result {
        match *self {
            Line::Opening { channels, lines } => write!(f, "0 L {channels} {lines}"),
            Line::Booking {
                n,
                channel,
                line,
                start,
                finish,
            } => write!(f, "{n} B {channel} {line} {start} {finish}"),
            Line::Sweep { n, dropped } => write!(f, "{n} S {dropped}"),
            Line::Refusal { n, code } => write!(f, "{n} R {code}"),
            Line::Kept { voids } => write!(f, "E {voids}"),
        }
    }
}
