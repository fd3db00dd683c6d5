// The search: document 01's trials in their order, counted. Document 01, "The engine" (Algorithm 1).
ghost use Rattle.std.specs.Prelude.{◌<◌};
ghost use Rattle.definitions.specs.Limits.{signed_full};
ghost use Rattle.records.specs.Classes.{class_number};
ghost use Rattle.search.specs.Trials.{top_offset, lowest_offset, PossibleBy, FoundBy};

use crate::bracket::Bracket;
use crate::trial::{LOWEST, TOP, trial};
use records::class::Class;
use records::limits::{TRIALS_INFEASIBLE, TRIALS_UNBOUNDED};

// What the trials find: the class, the least span as an offset number, 0 in the other classes, and the trials made.
#[derive(Clone, Copy)]
pub struct Found {
    pub class: Class,
    pub span: u64,
    pub trials: u64,
}

// Halvings until the bracket is 1 wide; its high is the least span.
fn halve(second: u64) -> Found
    requires { (second < signed_full) × PossibleBy second top_offset × (PossibleBy second lowest_offset → ⊥) }
    ensures { FoundBy second (class_number result.class) result.span result.trials }
{
    let mut bracket = Bracket {
        low: LOWEST,
        high: TOP,
    };
    let mut trials = TRIALS_UNBOUNDED;
    'halving: loop {
        if bracket.high - bracket.low == 1 {
            break 'halving Found {
                class: Class::Optimal,
                span: bracket.high,
                trials,
            };
        }
        bracket = bracket.next(trial(second, bracket.middle()));
        trials += 1;
    }
}

// The top, the lowest, then the halving.
pub fn search(second: u64) -> Found
    requires { second < signed_full }
    ensures { FoundBy second (class_number result.class) result.span result.trials }
{
    if !trial(second, TOP) {
        return Found {
            class: Class::Infeasible,
            span: 0,
            trials: TRIALS_INFEASIBLE,
        };
    }
    if trial(second, LOWEST) {
        return Found {
            class: Class::Unbounded,
            span: 0,
            trials: TRIALS_UNBOUNDED,
        };
    }
    halve(second)
}
