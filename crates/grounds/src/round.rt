// The binding round of an accepted answer of class 1.
ghost use Rattle.std.specs.Prelude.{◌+◌, ◌≤◌, get_or};
ghost use Rattle.definitions.specs.Limits.{highest_n, highest_m, stride};
ghost use Rattle.definitions.specs.Problem.{Problem};
ghost use Rattle.definitions.specs.Verdict.{strategy_of};
ghost use Rattle.definitions.specs.Reasons.{Round};
ghost use Rattle.records.specs.Stamps.{stamps_point};
ghost use Rattle.grounds.specs.Tables.{RightHeld};
ghost use Rattle.grounds.specs.Rounds.{FirstMet, Beginning, Binding};

use crate::numbers::Numbers;
use crate::plan::Plan;
use crate::turns::moment_turn;
use records::limits::STRIDE;

// The first planned moment of a list of leads.
fn first_planned(leads: &[u32; STRIDE], stamps: &[u64; STRIDE], width: usize) -> Option<usize>
    requires { width ≤ stride }
    ensures { FirstMet (λ l. get_or leads.now l 0) stamps.now width result }
{
    for j in 0..width {
        if leads[j] != 0 && stamps[j] != 0 {
            return Some(j);
        }
    }
    None
}

// Where the turns begin: at the anchor for start 0, else at the first planned moment of the second list.
fn beginning(plan: &Plan, start: u64) -> Option<usize>
    requires { (plan.now.n ≤ highest_n) × (plan.now.m ≤ highest_m) }
    ensures { Beginning plan.now.right.now plan.now.stamps.now plan.now.n plan.now.m start result }
{
    match start {
        0 => Some(0),
        1.. => {
            let second = plan.leads(plan.m);
            first_planned(&second, plan.stamps, plan.n + 1)
        }
    }
}

// The binding round: from where the turns begin, until a moment comes again; the part from that moment on. Public for `reasons`.
pub fn binding_round(plan: &Plan, start: u64) -> Numbers<STRIDE>
    requires { Binding plan.now.right.now plan.now.stamps.now plan.now.picks.now plan.now.n plan.now.m start }
    ensures { (p : Problem) → RightHeld p plan.now.right.now plan.now.n plan.now.m → start ≤ 1 → Round p (stamps_point plan.now.stamps.now) (strategy_of plan.now.picks.now) start result }
{
    let first = beginning(plan, start).unwrap();
    let turns = moment_turn(plan, Numbers::new(), first, plan.n + 1);
    Numbers::of(&turns.came.as_slice()[turns.back..])
}
