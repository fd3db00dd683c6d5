// The bracket of the bisection, in offset numbers. Document 01, "a possible middle becomes high, another becomes low".
ghost use Rattle.std.specs.Prelude.{◌≡◌};
ghost use Rattle.definitions.specs.Bisection.{middle, next};
ghost use Rattle.search.specs.Trials.{whole_of, Trialled, bracket_of, Between};

// Between a `low` that is not possible and a `high` that is.
#[derive(Clone, Copy)]
pub struct Bracket {
    pub low: u64,
    pub high: u64,
}

impl Bracket {
    // The middle, (high + low) / 2 rounded up.
    pub fn middle(self) -> u64
        requires { Trialled self.low × Trialled self.high }
        ensures { (whole_of result ≡ middle (bracket_of self.low self.high)) × Between self.low self.high result }
    {
        (self.low + self.high + 1) / 2
    }

    // One trial's outcome at the middle gives the next bracket.
    pub fn next(self, possible: bool) -> Bracket
        requires { Trialled self.low × Trialled self.high }
        ensures { bracket_of result.low result.high ≡ next (bracket_of self.low self.high) possible }
    {
        let half = self.middle();
        if possible {
            Bracket {
                low: self.low,
                high: half,
            }
        } else {
            Bracket {
                low: half,
                high: self.high,
            }
        }
    }
}
