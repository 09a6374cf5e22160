// How a reply of the question program is printed: one line in bytes. Every writer says the whole slice that it leaves:
// the bytes written, and all others as they were.
#![tactic(auto)]

ghost use Rattle.std.specs.Prelude.{◌≡◌, [], ◌∷◌, ◌+◌, ◌<◌, ◌≤◌, length};
ghost use Rattle.print.specs.Decimal.{decimal};
ghost use Rattle.print.specs.Printed.{word_bytes, line_byte, printed, widest};
ghost use Rattle.print.specs.Put.{Put};

use rules::{Line, Reply, Word};

// A slice, and the place from which on it is written.
#[derive(Drop)]
pub struct Printer<'a> {
    pub out: &'a mut [u8],
    pub at: usize,
}

impl Printer<'_> {
    // ---------------- bytes, from the place on

    pub fn byte(&mut self, byte: u8)
        requires { self.old.at < length self.old.out.now }
        ensures same_slice { self.new.out.ghost_name ≡ self.old.out.ghost_name }
        ensures put { Put self.old.out.now self.old.at (byte ∷ []) self.new.out.now self.new.at }
    {
        self.out[self.at] = byte;
        self.at += 1;
    }

    pub fn bytes(&mut self, bytes: &[u8])
        requires { self.old.at + length bytes.now ≤ length self.old.out.now }
        ensures same_slice { self.new.out.ghost_name ≡ self.old.out.ghost_name }
        ensures put { Put self.old.out.now self.old.at bytes.now self.new.out.now self.new.at }
    {
        let end = self.at + bytes.len();
        let out = &mut *self.out;
        out[self.at..end].copy_from_slice(bytes);
        self.at = end;
    }

    // A number in decimal digits: those of its tenth, then its last.
    pub fn decimal(&mut self, n: u64)
        requires { self.old.at + 20 ≤ length self.old.out.now }
        ensures same_slice { self.new.out.ghost_name ≡ self.old.out.ghost_name }
        ensures put { Put self.old.out.now self.old.at (decimal n) self.new.out.now self.new.at }
    {
        if 10 <= n {
            self.decimal(n / 10);
        }
        self.byte(b'0' + (n % 10) as u8);
    }

    // ---------------- fields, each behind its tab

    fn number(&mut self, n: u64)
        requires { self.old.at + 21 ≤ length self.old.out.now }
        ensures same_slice { self.new.out.ghost_name ≡ self.old.out.ghost_name }
        ensures put { Put self.old.out.now self.old.at (9 ∷ decimal n) self.new.out.now self.new.at }
    {
        self.byte(b'\t');
        self.decimal(n);
    }

    fn word(&mut self, word: Word)
        requires { self.old.at + 10 ≤ length self.old.out.now }
        ensures same_slice { self.new.out.ghost_name ≡ self.old.out.ghost_name }
        ensures put { Put self.old.out.now self.old.at (9 ∷ word_bytes word) self.new.out.now self.new.at }
    {
        self.byte(b'\t');
        self.bytes(name(word));
    }

    fn letter(&mut self, line: Line)
        requires { self.old.at + 2 ≤ length self.old.out.now }
        ensures same_slice { self.new.out.ghost_name ≡ self.old.out.ghost_name }
        ensures put { Put self.old.out.now self.old.at (9 ∷ line_byte line ∷ []) self.new.out.now self.new.at }
    {
        self.byte(b'\t');
        self.byte(letter(line));
    }
}

fn name(word: Word) -> &'static [u8]
    ensures { result.now ≡ word_bytes word }
{
    match word {
        Word::YES => b"YES",
        Word::NO => b"NO",
        Word::INSIDE => b"INSIDE",
        Word::OUTSIDE => b"OUTSIDE",
        Word::ON => b"ON",
        Word::UNDECIDED => b"UNDECIDED",
        Word::REFUSED => b"REFUSED",
    }
}

fn letter(line: Line) -> u8
    ensures { result ≡ line_byte line }
{
    match line {
        Line::NoLine => b'-',
        Line::LineA => b'A',
        Line::LineB => b'B',
    }
}

// One whole line, with its line feed.
pub fn put_line(out: &mut [u8], at: usize, ordinal: u64, said: Reply) -> usize
    requires { at + widest ≤ length out.old }
    ensures { Put out.old at (printed ordinal said) out.new result }
{
    let mut printer = Printer { out, at };
    printer.decimal(ordinal);
    printer.word(said.word);
    printer.number(said.visits as u64);
    printer.number(said.number as u64);
    printer.letter(said.line);
    printer.number(said.place as u64);
    printer.byte(b'\n');
    printer.at
}
