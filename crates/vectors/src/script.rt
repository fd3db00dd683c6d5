// A case as a line of text: a letter, marks up to a semicolon, a space, and the words of the case. A mark is one byte; what
// it does is told where it is read. Before it may stand a number, which is 0 without.
ghost use Rattle.std.specs.Prelude.{length};
ghost use Rattle.std.specs.Iterator.{at_most};

use records::limits::{FULL, OFFSET};

// The line of a case.
#[derive(Clone, Copy)]
pub struct Case<'a>(pub &'a [u8]);

// The bytes before a mark, all where there is none.
fn before(text: &[u8], mark: u8) -> &[u8] {
    text.split(|byte| *byte == mark).next().unwrap_or(text)
}

impl<'a> Case<'a> {
    // The letter, which says what is run.
    pub fn letter(self) -> Option<u8> {
        self.0.first().copied()
    }

    // The marks between the letter and the semicolon.
    pub fn marks(self) -> Marks<'a> {
        Marks::of(before(self.0, b';').get(1..))
    }

    // The marks between the letter and a bar, and those between the bar and the semicolon.
    pub fn two_marks(self) -> (Marks<'a>, Marks<'a>) {
        let first = before(self.0, b'|');
        let second = before(self.0, b';').get(first.len()..);
        (Marks::of(first.get(1..)), Marks::of(second))
    }

    // The text behind the letter and a space; a line of one byte is the text itself.
    pub fn text(self) -> &'a [u8] {
        self.0.get(2..).unwrap_or(self.0)
    }

    // The words.
    pub fn words(self) -> &'a [u8] {
        let at = before(self.0, b';').len() + 2;
        self.0.get(at..).unwrap_or(&[])
    }
}

// The marks of a text one after another, each with the number before it. A byte of a number comes too, and marks nothing.
#[derive(Drop)]
pub struct Marks<'a> {
    text: &'a [u8],
    number: u64,
}

impl<'a> Marks<'a> {
    fn of(text: Option<&'a [u8]>) -> Marks<'a> {
        Marks {
            text: text.unwrap_or(&[]),
            number: 0,
        }
    }
}

impl<'a> Iterator for Marks<'a> {
    type Item = (u8, u64);

    ghost remaining = { λ s. at_most (length s.text.now) };

    fn next(&mut self) -> Option<(u8, u64)> {
        let (mark, rest) = self.text.split_first()?;
        let number = self.number;
        self.text = rest;
        self.number = number_after(number, *mark);
        Some((*mark, number))
    }
}

// The 4-byte field of −x.
pub fn minus(x: u64) -> u64 {
    FULL.saturating_sub(x)
}

// A number with one more digit, or as it was where it would grow too large.
fn longer(x: u64, digit: u8) -> u64 {
    x.checked_mul(10)
        .and_then(|tens| tens.checked_add(u64::from(digit)))
        .unwrap_or(x)
}

// The number after a byte: `-` makes it the field of −x, `+` and `~` the offset numbers of x and −x, `_` is a blank's field, and what
// is no digit ends it.
pub fn number_after(x: u64, byte: u8) -> u64 {
    match byte {
        b'0'..=b'9' => longer(x, byte - b'0'),
        b'-' => minus(x),
        b'+' if x < OFFSET => OFFSET + x,
        b'~' => OFFSET.saturating_sub(x),
        b'_' => OFFSET,
        _ => 0,
    }
}
