// The turns of the binding round: a moment yields to its pick, and a row to its first latest right moment, until a moment comes again.
ghost use Rattle.std.specs.Prelude.{◌≡◌, [], ◌∷◌, ◌++◌, ◌==◌, get_or, position};
ghost use Rattle.grounds.specs.Turns.{MomentTurn, RowTurn, CameBack};

use crate::latest::first_latest;
use crate::numbers::Numbers;
use crate::plan::Plan;
use records::limits::STRIDE;

// The moments that came, in turn, and the place of the one that comes again.
#[derive(Clone, Copy)]
pub struct Turns {
    pub came: Numbers<STRIDE>,
    pub back: usize,
}

// The first place at which a moment stands.
fn place_of(came: &[usize], j: usize) -> Option<usize>
    ensures { result ≡ position (λ k. k == j) came.now }
{
    came.iter().position(|moment| *moment == j)
}

// A moment's turn: where it has come before, the turns have come back; else it comes, and yields to its pick.
#[cycle(moment_turn_row_turn)]
pub fn moment_turn(plan: &Plan, mut came: Numbers<STRIDE>, j: usize, turns: usize) -> Turns
    requires { MomentTurn plan.now.right.now plan.now.stamps.now plan.now.picks.now plan.now.n turns came j }
    ensures { CameBack plan.now.right.now plan.now.stamps.now plan.now.picks.now plan.now.n (get_or (came ++ j ∷ []) 0 0) result }
{
    match place_of(came.as_slice(), j) {
        Some(back) => Turns { came, back },
        None => {
            came.push(j);
            row_turn(plan, came, plan.picks[j] as usize - 1, turns - 1)
        }
    }
}

// A row's turn, a rule's or the question's: it yields to its first latest right moment.
#[cycle(moment_turn_row_turn)]
fn row_turn(plan: &Plan, came: Numbers<STRIDE>, row: usize, turns: usize) -> Turns
    requires { RowTurn plan.now.right.now plan.now.stamps.now plan.now.picks.now plan.now.n turns came row }
    ensures { CameBack plan.now.right.now plan.now.stamps.now plan.now.picks.now plan.now.n (get_or came 0 0) result }
{
    let leads = plan.leads(row);
    let l = first_latest(&leads, plan.stamps, plan.n + 1);
    moment_turn(plan, came, l, turns)
}
