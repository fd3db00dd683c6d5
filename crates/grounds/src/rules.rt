// The rules picked by reached moments, ascending.
ghost use Rattle.std.specs.Prelude.{◌≤◌};
ghost use Rattle.base.specs.Decides.{Decides};
ghost use Rattle.definitions.specs.Limits.{highest_m, stride};
ghost use Rattle.definitions.specs.Reasons.{Listed};
ghost use Rattle.grounds.specs.Rules.{PickedBy};

use crate::numbers::Numbers;
use records::limits::{HIGHEST_M, ROWS, STRIDE};

// A marked moment picks the rule with this number.
fn is_picked(marks: &[u8; STRIDE], picks: &[u64; ROWS], width: usize, number: usize) -> bool
    requires { width ≤ stride }
    ensures { Decides (PickedBy marks.now picks.now width number) result }
{
    for j in 0..width {
        if marks[j] != 0 && picks[j] == number as u64 {
            return true;
        }
    }
    false
}

// The rules of 1 to m that marked moments pick, ascending.
pub fn picked_rules(
    marks: &[u8; STRIDE],
    picks: &[u64; ROWS],
    width: usize,
    m: usize,
) -> Numbers<HIGHEST_M>
    requires { (width ≤ stride) × (m ≤ highest_m) }
    ensures { Listed (PickedBy marks.now picks.now width) m result }
{
    let mut rules = Numbers::new();
    for i in 0..m {
        if is_picked(marks, picks, width, i + 1) {
            rules.push(i + 1);
        }
    }
    rules
}
