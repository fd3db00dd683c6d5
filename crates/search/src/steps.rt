// The same search one trial at a time, for a desk. Document 02, 2.11.
ghost use Rattle.std.specs.Prelude.{◌≡◌, ◌<◌};
ghost use Rattle.definitions.specs.Limits.{signed_full};
ghost use Rattle.search.specs.Underway.{class_word, class_from, at_start, found_of, closed_of, Underway, Tried};

use crate::bracket::Bracket;
use crate::search::Found;
use crate::trial::{LOWEST, TOP, trial};
use records::class::Class;

// A search under way: the trials made, the bracket, and the class, none while the search is open.
#[derive(Clone, Copy)]
pub struct Search {
    pub made: u64,
    pub bracket: Bracket,
    pub class: Option<Class>,
}

// The word that keeps a search's class in memory that C lends: its number, 0 while the search is open.
pub fn class_word(class: Option<Class>) -> u64
    ensures { result ≡ class_word class }
{
    class.map_or(0, |c| c.number())
}

// The class that a word keeps; none where it is no class's number.
pub fn class_from(word: u64) -> Option<Class>
    ensures { result ≡ class_from word }
{
    Class::try_from(word).ok()
}

// No trial is made, and the bracket is the two outer trials.
pub fn opened() -> Search
    ensures { result ≡ at_start }
{
    Search {
        made: 0,
        bracket: Bracket {
            low: LOWEST,
            high: TOP,
        },
        class: None,
    }
}

// Document 01's next trial: the top, the lowest, then the middle of the bracket.
pub fn next_trial(second: u64, search: Search) -> Search
    requires { (second < signed_full) × Underway second search }
    ensures { Tried second search result }
{
    let made = search.made + 1;
    if search.made == 0 {
        let class = (!trial(second, TOP)).then_some(Class::Infeasible);
        return Search {
            made,
            class,
            ..search
        };
    }
    if search.made == 1 {
        let class = trial(second, LOWEST).then_some(Class::Unbounded);
        return Search {
            made,
            class,
            ..search
        };
    }
    let bracket = search.bracket.next(trial(second, search.bracket.middle()));
    let class = (bracket.high - bracket.low == 1).then_some(Class::Optimal);
    Search {
        made,
        bracket,
        class,
    }
}

// What a search tells: its class, none while it is open; its high where it closed as least, else 0; and the trials made.
#[derive(Clone, Copy)]
pub struct Told {
    pub class: Option<Class>,
    pub span: u64,
    pub trials: u64,
}

// What a search tells.
pub fn found_of(search: Search) -> Told
    ensures { result ≡ found_of search }
{
    let span = match search.class {
        Some(Class::Optimal) => search.bracket.high,
        Some(Class::Unbounded | Class::Infeasible) | None => 0,
    };
    Told {
        class: search.class,
        span,
        trials: search.made,
    }
}

impl Told {
    // What was found, none while the search is open.
    pub fn closed(self) -> Option<Found>
        ensures { result ≡ closed_of self }
    {
        self.class.map(|class| Found {
            class,
            span: self.span,
            trials: self.trials,
        })
    }
}
