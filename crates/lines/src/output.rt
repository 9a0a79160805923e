// Where a session's lines go: they wait in a text, which is written to standard output where it may not take a line more, and at
// the end. No heap, and what cannot be written is lost.
ghost use Rattle.std.specs.Prelude.{◌≡◌, ◌+◌, ◌-◌, ◌≤◌, ◌++◌, [], None, IfOk, IsOk, length, take, min};
ghost use Rattle.std.specs.Io.{WritesAtMost};
ghost use Rattle.std.specs.Io.KnownBytes.{Keeps, WriteAppends};
ghost use Rattle.lines.specs.Lines.{longest_line};

use crate::LONGEST_LINE;
use std::io::{Result, Write};

#[derive(Drop)]
pub struct Output<const TEXT: usize> {
    text: [u8; TEXT],
    len: usize,
    ghost in_bounds: { len ≤ TEXT },
}

impl<const TEXT: usize> Output<TEXT> {
    ghost use Rattle.lines.specs.Waiting.{waiting, waits_on};

    pub fn new() -> Output<TEXT>
        ensures { waiting result ≡ [] }
    {
        Output {
            text: [0; TEXT],
            len: 0,
        }
    }

    // Writes out what waits.
    fn spill(&mut self)
        ensures { self.new.len ≡ 0 }
    {
        io::write_all(1, &self.text[..self.len]);
        self.len = 0;
    }

    // Room for a line.
    fn ready(&mut self)
        ensures room { longest_line ≤ TEXT → self.new.len + longest_line ≤ TEXT }
        ensures waits { waiting self.new ≡ waits_on self.old }
        ensures held { length (waiting self.new) ≡ self.new.len }
    {
        if TEXT - self.len < LONGEST_LINE {
            self.spill();
        }
    }

    // The bytes wait behind those before.
    fn keep(&mut self, bytes: &[u8])
        requires { self.old.len + length bytes.now ≤ TEXT }
        ensures { waiting self.new ≡ waiting self.old ++ bytes.now }
    {
        let end = self.len + bytes.len();
        let text = &mut self.text[..];
        text[self.len..end].copy_from_slice(bytes);
        self.len = end;
    }
}

impl<const TEXT: usize> Write for Output<TEXT> {
    ghost use Rattle.lines.specs.Waiting.{waiting, waits_on};

    // It never fails, and takes a line whole, and so much else as there is room for. What is taken waits behind what waited, or
    // that was written out.
    fn write(&mut self, buf: &[u8]) -> Result<usize>
        ensures bound { WritesAtMost result buf.now }
        ensures bytes { WriteAppends None None result buf.now }
        ensures ok { IsOk result }
        ensures took { IfOk result (λ n. n ≡ min (length buf.now) (TEXT - length (waits_on self.old))) }
        ensures whole { longest_line ≤ TEXT → length buf.now ≤ longest_line → IfOk result (λ n. n ≡ length buf.now) }
        ensures waits { IfOk result (λ n. waiting self.new ≡ waits_on self.old ++ take n buf.now) }
    {
        self.ready();
        let n = buf.len().min(TEXT - self.len);
        self.keep(&buf[..n]);
        Ok(n)
    }

    fn flush(&mut self) -> Result<()>
        ensures bytes { Keeps None None }
        ensures ok { IsOk result }
        ensures waits { waiting self.new ≡ [] }
    {
        self.spill();
        Ok(())
    }
}
