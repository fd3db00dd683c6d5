// What the lines are made of.
use crate::script::Case;
use records::limits::OFFSET;
use std::{fmt, io};

// Printing that goes on: what cannot be written is left out.
#[derive(Drop)]
pub struct Lasting<'a, P>(pub &'a P);

impl<P: Print> Print for Lasting<'_, P> {
    fn print<D: fmt::Display + Drop>(&self, value: D) -> io::Result<()> {
        let _ = self.0.print(value);
        Ok(())
    }

    fn println<D: fmt::Display + Drop>(&self, value: D) -> io::Result<()> {
        let _ = self.0.println(value);
        Ok(())
    }

    fn write_all(&self, bytes: &[u8]) -> io::Result<()> {
        let _ = self.0.write_all(bytes);
        Ok(())
    }
}

// The start of a line: what is run, and the words of its case.
pub fn edge(rt: &impl Print, entry: &str, case: Case<'_>) -> io::Result<()> {
    print!(rt; "{entry}, ")?;
    rt.write_all(case.words())?;
    print!(rt; ": ")
}

// A lead, stamp or span, by its offset number.
#[derive(Drop)]
pub struct Minutes(pub u64);

impl fmt::Display for Minutes {
    fn fmt<W: fmt::Write>(&self, f: &mut fmt::Formatter<W>) -> fmt::Result {
        match self.0 {
            0 => write!(f, "blank"),
            k @ OFFSET.. => write!(f, "{}", k - OFFSET),
            k => write!(f, "-{}", OFFSET - k),
        }
    }
}
