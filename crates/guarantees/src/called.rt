// The code's own calls of the checker and the engine: each has the value that the demands speak of. What the readers and the writer give is
// said by equations in their own contracts.
ghost use Rattle.checker.specs.Outcome.{verdict_of};
ghost use Rattle.engine.specs.Outcome.{solved_of};
ghost use Rattle.guarantees.specs.Called.{CheckCalled, SolveCalled};

use checker::check::{Certified, check};
use engine::solve::{Solution, solve};
use records::refusal::Refusal;

// The checker's verdict.
pub fn checked(problem: &[u8], answer: &[u8]) -> Result<Certified, Refusal>
    ensures { CheckCalled problem.now answer.now (verdict_of result) }
{
    check(problem, answer)
}

// The engine's result, and the buffer afterwards.
pub fn solved(problem: &[u8], answer: &mut [u8]) -> Result<Solution, Refusal>
    ensures { SolveCalled problem.now answer.old (solved_of result) answer.new }
{
    solve(problem, answer)
}
