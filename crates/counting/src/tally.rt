// The four counts of a census.
ghost use Rattle.std.specs.Prelude.{◌+◌, ◌<◌};
ghost use Rattle.definitions.specs.Limits.{census_most};
ghost use Rattle.counting.specs.Steps.{counts_as, OneMore};

use records::class::Class;
use records::limits::{INFEASIBLE, OPTIMAL, UNBOUNDED};

// As what a problem under refusal 17 counts.
const SILENT: u64 = 17;

// How many problems are least, bottomless, none, and under refusal 17.
#[derive(Clone, Copy, Debug, PartialEq, Eq, Default)]
pub struct Tally {
    pub least: u64,
    pub bottomless: u64,
    pub none: u64,
    pub silent: u64,
}

// The tally with one problem more, by a number: that of its class, or 17; any other counts as none of the four.
pub fn one_more(tally: Tally, counted: u64) -> Tally
    requires { tally.least + tally.bottomless + tally.none + tally.silent < census_most }
    ensures { OneMore tally counted result }
{
    let mut after = tally;
    match counted {
        OPTIMAL => after.least += 1,
        UNBOUNDED => after.bottomless += 1,
        INFEASIBLE => after.none += 1,
        SILENT => after.silent += 1,
        0 | 4..=16 | 18.. => (),
    }
    after
}

impl Tally {
    // Counts one problem more, by its class, or as under refusal 17 where it has none.
    pub fn add(&mut self, counted: Option<Class>)
        requires { self.old.least + self.old.bottomless + self.old.none + self.old.silent < census_most }
        ensures { OneMore self.old (counts_as counted) self.new }
    {
        *self = one_more(*self, counted.map_or(SILENT, |class| class.number()));
    }
}
