// The engine and the checker, with results as one number: the low byte is the refusal, 0 where there is none.
ghost use Rattle.std.specs.Prelude.{◌≡◌};
ghost use Rattle.definitions.specs.ProblemRecord.{meant};
ghost use Rattle.checker.specs.Outcome.{verdict_of};
ghost use Rattle.engine.specs.Outcome.{solved_of};
ghost use Rattle.capi.specs.Numbers.{solved_number, SolvesAs, Numbered, JudgedAs, FewTrials, SmallFields};

use checker::check::{Certified, check};
use engine::solve::{Solution, solve};
use records::limits::{BYTE, FULL};
use records::refusal::Refusal;

// 256 × trials where answered, else the refusal.
#[tactic(auto, unfolding(engine::specs::Outcome::solved_of))]
fn solved_number(solved: Result<Solution, Refusal>) -> u64
    requires { FewTrials solved }
    ensures { result ≡ solved_number (solved_of solved) }
{
    match solved {
        Ok(Solution::One(one)) => BYTE * one.trials,
        Ok(Solution::All { trials, .. }) => BYTE * trials,
        Err(refusal) => refusal.number() as u64,
    }
}

// Answers a problem: the answer's record, or those of several questions one after another, stand at the start of the lent buffer. No bytes
// mean the idle day.
#[unsafe(no_mangle)]
pub extern "C" fn span_solve(problem: &[u8], answer: &mut [u8]) -> u64
    ensures { SolvesAs (meant problem.now) answer.old result answer.new }
{
    solved_number(solve(problem, answer))
}

// 256 × class + 2³² × the span's offset number where accepted, else the refusal.
fn verdict_number(verdict: Result<Certified, Refusal>) -> u64
    requires { SmallFields verdict }
    ensures { Numbered (verdict_of verdict) result }
{
    match verdict {
        Ok(accepted) => BYTE * accepted.class + FULL * accepted.span,
        Err(refused) => refused.number() as u64,
    }
}

// Judges an answer to a problem; no bytes mean the idle day.
#[unsafe(no_mangle)]
pub extern "C" fn span_check(problem: &[u8], answer: &[u8]) -> u64
    ensures { JudgedAs (meant problem.now) answer.now result }
{
    verdict_number(check(problem, answer))
}
