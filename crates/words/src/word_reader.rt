ghost use Rattle.std.specs.Prelude.{◌≡◌, ◌+◌, ◌^◌, ◌<◌, ◌≤◌, length, drop, IfSome, IfOk};
ghost use Rattle.words.specs.Scan.{step, ended, outside, scan, begun_by, with_digit};

use crate::bytes::{Class, class_of};
use crate::token::{Span, Token, WordFault};

// Where the word reader stands: outside, or in a word or a number, with the place where it began
// and the number's value so far.
#[derive(Clone, Copy)]
enum WordReader {
    Outside,
    InWord { start: usize },
    InNumber { start: usize, value: u16 },
}

// A token and the bytes that it takes.
fn span(token: Token, start: usize, end: usize) -> Span
    ensures { result ≡ record { token = token; start = start; «end» = «end» } }
{
    Span { token, start, end }
}

// The number that the digit `b` makes of `value`, if it fits 16 bits.
fn with_digit(value: u16, b: u8) -> Option<u16>
    requires { (48 ≤ b) × (b ≤ 57) }
    ensures { result ≡ with_digit value b }
{
    u16::try_from(u32::from(value) * 10 + u32::from(b - b'0')).ok()
}

impl WordReader {
    // The byte `b` at the place `at`: the state and the byte's class together decide.
    fn step(&mut self, at: usize, b: u8) -> Result<Option<Span>, WordFault>
        requires begun { begun_by at self.old }
        requires room { at + 1 < 2 ^ 64 }
        ensures answer { result ≡ (step self.old at b).0 }
        ensures next { self.new ≡ (step self.old at b).1 }
        ensures bounds { IfOk result (λ o. IfSome o (λ l. (l.start ≤ l.«end») × (l.«end» ≤ at + 1))) }
        ensures begun { begun_by at self.new }
    {
        match (*self, class_of(b)) {
            (WordReader::Outside, Class::Separator) => Ok(None),
            (WordReader::Outside, Class::Letter) => {
                *self = WordReader::InWord { start: at };
                Ok(None)
            }
            (WordReader::Outside, Class::Digit) => {
                let value = u16::from(b - b'0');
                *self = WordReader::InNumber { start: at, value };
                Ok(None)
            }
            (WordReader::Outside, Class::Single(m)) => {
                Ok(Some(span(Token::Single(m), at, at + 1)))
            }
            (WordReader::Outside, Class::Other) => Err(WordFault::Byte(at)),
            (WordReader::InWord { start }, Class::Letter | Class::Digit) if at - start >= 32 => {
                Err(WordFault::Long(start))
            }
            (WordReader::InWord { .. }, Class::Letter | Class::Digit) => Ok(None),
            (WordReader::InNumber { start, value }, Class::Digit) => {
                let value = with_digit(value, b).ok_or(WordFault::Long(start))?;
                *self = WordReader::InNumber { start, value };
                Ok(None)
            }
            (WordReader::InWord { .. } | WordReader::InNumber { .. }, _) => {
                Ok(Some(self.end(at)))
            }
        }
    }

    // The token that ends at the place `at`.
    fn end(self, at: usize) -> Span
        requires begun { begun_by at self }
        ensures which { result ≡ ended self at }
        ensures bounds { (result.start ≤ result.«end») × (result.«end» ≤ at) }
    {
        match self {
            WordReader::Outside => span(Token::End, at, at),
            WordReader::InWord { start } => span(Token::Word, start, at),
            WordReader::InNumber { start, value } => span(Token::Number(value), start, at),
        }
    }
}

/// The next token of the text, from a place on.
pub fn next_token(text: &[u8], from: usize) -> Result<Span, WordFault>
    ensures which { result ≡ scan outside from (drop from text.now) }
    ensures bounds { from ≤ length text.now → IfOk result (λ l. (l.start ≤ l.«end») × (l.«end» ≤ length text.now)) }
{
    let mut reader = WordReader::Outside;
    // Kept: a range, whose index the loop's invariant tells of, so that no goal needs an answer. Over
    // `enumerate().skip(from)` there is no such index, and the check leaves five goals open.
    for at in from..text.len() {
        if let Some(found) = reader.step(at, text[at])? {
            return Ok(found);
        }
    }
    Ok(reader.end(text.len().max(from)))
}
