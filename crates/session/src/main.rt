// The program (01, A session in full): reads at most 32,768 bytes from standard input, an OL first, with room 256, and
// prints what each record is answered. What `serve` writes is proved, of any writer that tells its bytes (specs/Printed.antt); an output
// that fails loses it, and no more.
#![tactic(auto)]

ghost use Rattle.std.specs.Prelude.{◌*◌, ◌≤◌, OnOk, length};
ghost use Rattle.std.specs.Io.KnownBytes.{Appends};
ghost use Rattle.session.specs.Printed.{answers_written, ending_written, most_answers, Plays, Serves};

use lines::Line;
use lines::output::Output;
use running::Ran;
use std::io::{Result, Write};
use tally::Tally;

const ROOM: u64 = 256;

// The bytes that a link with that room needs.
const NEED: usize = node::HEADER_BYTES + node::NODE_BYTES * (2 * ROOM as usize + 1);

const LONGEST_INPUT: usize = 32768;

// So much text waits at most before it is written.
const LONGEST_TEXT: usize = 65536;

// The least record has eight bytes, so these are room for all of them.
const MOST_ANSWERS: usize = 4096;

// The lines of the first count answers.
fn answers<W: Write>(out: &mut W, numbers: &[u64], count: usize) -> Result<()>
    requires { 7 * count ≤ length numbers.now }
    ensures { OnOk result (Appends (W.contents out.old) (W.contents out.new) (answers_written numbers.now count)) }
{
    for i in 0..count {
        let at = 7 * i;
        let answer = seven::read(&numbers[at..at + 7]);
        Line::answer(i as u64 + 1, answer).write(out)?;
    }
    Ok(())
}

// The line of what ended a run, where it is not the end of the records.
fn ending<W: Write>(out: &mut W, ran: Ran) -> Result<()>
    requires { ran.answered ≤ most_answers }
    ensures { OnOk result (Appends (W.contents out.old) (W.contents out.new) (ending_written ran.code ran.answered)) }
{
    if ran.code == 0 {
        return Ok(());
    }
    let n = ran.answered as u64 + 1;
    Line::Refusal { n, code: ran.code }.write(out)
}

// Everything that a run answers to the records after the opening, and the voids kept.
fn play<W: Write>(out: &mut W, mem: &mut [u8], records: &[u8]) -> Result<()>
    ensures { OnOk result (Plays records.now mem.old mem.new (W.contents out.old) (W.contents out.new)) }
{
    let mut numbers = [0u64; 7 * MOST_ANSWERS];
    let ran = running::run(mem, Tally::default(), records, &mut numbers).ran;
    answers(out, &numbers, ran.answered)?;
    ending(out, ran)?;
    let voids = calls::tell::tell(mem).voids;
    Line::Kept { voids }.write(out)
}

// A session on what was read. A refused opening is answered alone.
#[tactic(auto, using(calls::proofs::Within::open_within))]
fn serve<W: Write>(out: &mut W, mem: &mut [u8], bytes: &[u8]) -> Result<()>
    ensures { OnOk result (Serves bytes.now mem.old mem.new (W.contents out.old) (W.contents out.new)) }
{
    let opened = calls::open::open(mem, ROOM, bytes);
    let code = opened.code;
    if code != 0 {
        return Line::Refusal { n: 0, code }.write(out);
    }
    let channels = digits::field(bytes, 2, 1);
    let lines = digits::field(bytes, 3, 1);
    Line::Opening { channels, lines }.write(out)?;
    play(out, mem, &bytes[opened.used..])
}

fn main() {
    let mut input = [0u8; LONGEST_INPUT];
    let n = io::read_full(0, &mut input);
    let mut mem = [0u8; NEED];
    let mut out = Output::<LONGEST_TEXT>::new();
    let _ = serve(&mut out, &mut mem, &input[..n]);
    let _ = out.flush();
}
