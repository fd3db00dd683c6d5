// The tool on bytes: the checker's refusals in their order, 14 among them, then 16; then the rules behind the accepted answer, and for a
// least span the binding round.
ghost use Rattle.definitions.specs.Problem.{Problem};
ghost use Rattle.definitions.specs.AnswerRecord.{Answer};
ghost use Rattle.definitions.specs.ProblemRecord.{meant};
ghost use Rattle.definitions.specs.Reasons.{Reasoned};
ghost use Rattle.grounds.specs.Outcome.{told_by, reasons_of, Passed, Founded, Certifies, Certified as Holding, Tells};

use crate::numbers::Numbers;
use crate::plan::Plan;
use crate::reached::reached_moments;
use crate::round::binding_round;
use crate::rules::picked_rules;
use answer_reader::answer::{Head, read_answer};
use checker::check::{Certified, check};
use problem_records::reader::read_problem;
use records::limits::{HIGHEST_M, INFEASIBLE, ROWS, STRIDE, TABLE, UNBOUNDED};
use records::problem::CHECKER_KINDS;
use records::refusal::Refusal;

// The numbers of the rules behind an answer, and for a least span the moments of the round in turn.
#[derive(Clone, Copy)]
pub struct Grounds {
    pub rules: Numbers<HIGHEST_M>,
    pub round: Option<Numbers<STRIDE>>,
}

// The rules behind an accepted answer of class 1 or 3, and for class 1 the round.
fn tell(plan: &Plan, head: Head) -> Grounds
    requires { Holding plan.now.right.now plan.now.stamps.now plan.now.picks.now plan.now.n plan.now.m head }
    ensures { (p : Problem) → (a : Answer) → Certifies p a plan.now.right.now plan.now.stamps.now plan.now.picks.now plan.now.n plan.now.m head → Tells p a (told_by result.rules result.round) }
{
    let marks = reached_moments(plan, head.start);
    let rules = picked_rules(&marks, plan.picks, plan.n + 1, plan.m);
    if head.class == INFEASIBLE {
        return Grounds { rules, round: None };
    }
    let round = Some(binding_round(plan, head.start));
    Grounds { rules, round }
}

// The reasons for an accepted answer of class 1 or 3: both records are read, which the checker has not refused.
fn read_reasons(problem: &[u8], answer: &[u8]) -> Result<Grounds, Refusal>
    requires { Founded (meant problem.now) answer.now }
    ensures { Reasoned (meant problem.now) answer.now (reasons_of result) }
{
    let mut left = [0u32; TABLE];
    let mut right = [0u32; TABLE];
    let layout = read_problem(problem, CHECKER_KINDS, &mut left, &mut right)?;
    let (n, m) = (layout.n, layout.m);
    let mut stamps = [0u64; STRIDE];
    let mut picks = [0u64; ROWS];
    let head = read_answer(answer, n, m, &mut stamps, &mut picks)?;
    let plan = Plan {
        right: &right,
        stamps: &stamps,
        picks: &picks,
        n,
        m,
    };
    Ok(tell(&plan, head))
}

// The reasons for an accepted answer of any class, a number as `Head` has it: 16 for bottomless.
pub fn accepted_reasons(problem: &[u8], answer: &[u8], class: u64) -> Result<Grounds, Refusal>
    requires { Passed (meant problem.now) answer.now class }
    ensures { Reasoned (meant problem.now) answer.now (reasons_of result) }
{
    if class == UNBOUNDED {
        return Err(Refusal::Bottomless);
    }
    read_reasons(problem, answer)
}

// The reasons for the bytes of a problem and of an answer; no bytes mean the idle day.
pub fn reasons(problem: &[u8], answer: &[u8]) -> Result<Grounds, Refusal>
    ensures { Reasoned (meant problem.now) answer.now (reasons_of result) }
{
    let Certified { class, .. } = check(problem, answer)?;
    accepted_reasons(problem, answer, class)
}
