// The checker on records, and its verdict in the words of the verdict program.
use crate::print::Minutes;
use checker::check::{Certified, check};
use records::class::Class;
use records::refusal::Refusal;
use std::{fmt, io};

// A class in words, and the span of least.
#[derive(Drop)]
pub struct Found {
    pub class: Class,
    pub span: u64,
}

impl fmt::Display for Found {
    fn fmt<W: fmt::Write>(&self, f: &mut fmt::Formatter<W>) -> fmt::Result {
        match self.class {
            Class::Optimal => write!(f, "least {}", Minutes(self.span)),
            Class::Unbounded => write!(f, "bottomless"),
            Class::Infeasible => write!(f, "none"),
        }
    }
}

fn accepted(rt: &impl Print, certified: Certified) -> io::Result<()> {
    let Certified { class, span } = certified;
    print!(rt; "accepted ")?;
    match Class::try_from(class) {
        Ok(class) => rt.print(Found { class, span }),
        Err(_) => Ok(()),
    }
}

// Judges both and prints the verdict.
pub fn judged(rt: &impl Print, problem: &[u8], answer: &[u8]) -> io::Result<()> {
    match check(problem, answer) {
        Ok(certified) => accepted(rt, certified),
        Err(Refusal::NotCertified) => print!(rt; "not certified"),
        Err(refusal) => print!(rt; "refused {}", refusal.number()),
    }
}
