// The engine's own answers: what the checker says of them, and what the reader gives. The bytes that are judged and read
// are those that the engine wrote.
ghost use Rattle.definitions.specs.ProblemRecord.{WithinLayout, n_field, m_field, meant};
ghost use Rattle.answer_reader.specs.AnswerReading.{head_of, AnswerRead};
ghost use Rattle.guarantees.specs.OwnAnswers.{OwnVerdict, OwnReading};
ghost use Rattle.checker.specs.Outcome.{verdict_of};

use answer_reader::answer::{Head, read_answer};
use checker::check::{Certified, check};
use engine::solve::{Solution, solve};
use records::limits::{ROWS, STRIDE};
use records::problem::{CHECKER_KINDS, read_header};
use records::refusal::Refusal;

// The engine, then the checker on what it wrote: accepted, with the engine's class and span.
pub fn solve_then_check(problem: &[u8], answer: &mut [u8]) -> Result<Certified, Refusal>
    ensures { OwnVerdict (meant problem.now) answer.old (verdict_of result) answer.new }
{
    match solve(problem, answer)? {
        Solution::One(one) => check(problem, &answer[..one.size]),
        Solution::All { .. } => Err(Refusal::Kind),
    }
}

// What was written, read with the problem's n and m into two arrays; those of the idle day are 0.
fn read_own(
    problem: &[u8],
    written: &[u8],
    stamps: &mut [u64; STRIDE],
    picks: &mut [u64; ROWS],
) -> Result<Head, Refusal>
    ensures { WithinLayout (meant problem.now) → AnswerRead written.now (n_field (meant problem.now)) (m_field (meant problem.now)) result stamps.old stamps.new picks.old picks.new }
{
    if problem.is_empty() {
        return read_answer(written, 0, 0, stamps, picks);
    }
    let layout = read_header(problem, problem.len(), CHECKER_KINDS)?;
    read_answer(written, layout.n, layout.m, stamps, picks)
}

// The engine, then the reader on what it wrote: the engine's class and span, the start, and its stamps and picks in two arrays.
pub fn solve_then_read(
    problem: &[u8],
    answer: &mut [u8],
    stamps: &mut [u64; STRIDE],
    picks: &mut [u64; ROWS],
) -> Result<Head, Refusal>
    ensures { OwnReading (meant problem.now) answer.old stamps.old picks.old (head_of result) answer.new stamps.new picks.new }
{
    match solve(problem, answer)? {
        Solution::One(one) => read_own(problem, &answer[..one.size], stamps, picks),
        Solution::All { .. } => Err(Refusal::Kind),
    }
}
