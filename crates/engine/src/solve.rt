// The engine on bytes: the first refusal (1 to 4, 15, 5, 20, 6, 17, 7); else the answer, or those to several questions one after another, written
// into the lent buffer.
ghost use Rattle.std.specs.Prelude.{◌≡◌, ◌*◌, ◌≤◌, length, Ok};
ghost use Rattle.definitions.specs.Limits.{answer_most, most_questions};
ghost use Rattle.definitions.specs.ProblemRecord.{engine_kinds, meant};
ghost use Rattle.definitions.specs.AnswerRecord.{answer_size, answer_bytes, written};
ghost use Rattle.records.specs.Classes.{class_number};
ghost use Rattle.records.specs.ProblemHeader.{kinds_in};
ghost use Rattle.look.specs.Frames.{Coefficients};
ghost use Rattle.engine.specs.Outcome.{shown_in, SolvedAs, FoundFor, OneWrote, Read, LayoutRead, SeveralRead};

use answer_reader::answer::Head;
use answer_reader::class::{pick_count, stamp_count};
use answer_writer::writer::write_answer;
use class_answers::answer::{Answer, solve_tables};
use problem_records::reader::{read_problem, read_question};
use records::class::Class;
use records::limits::{ANSWER_MOST, TABLE};
use records::problem::{ENGINE_KINDS, Kind, Kinds, Layout};
use records::refusal::Refusal;

// A problem from its bytes, into two lent tables, which stay apart as in `read_problem` and `solve_tables`: its layout, or the first
// refusal that applies in an entry that knows these kinds.
pub fn read_layout(
    problem: &[u8],
    kinds: Kinds,
    left: &mut [u32; TABLE],
    right: &mut [u32; TABLE],
) -> Result<Layout, Refusal>
    ensures { LayoutRead (kinds_in kinds) (meant problem.now) result left.new right.new }
{
    read_problem(problem, kinds, left, right)
}

// One question's answer, written: its class, the span's offset number, the trials made and the record's length.
#[derive(Clone, Copy)]
pub struct Answered {
    pub class: Class,
    pub span: u64,
    pub trials: u64,
    pub size: usize,
}

// What the engine answers: to one question its answer; to several all, with their count, the sum of the trials and the length of all
// records.
#[derive(Clone, Copy)]
pub enum Solution {
    One(Answered),
    All {
        count: usize,
        trials: u64,
        size: usize,
    },
}

// Writes the answer's record at the start of a buffer, and gives its length.
pub fn write_found(found: Answer, n: usize, m: usize, answer: &mut [u8]) -> usize
    requires { FoundFor n m (length answer.old) found }
    ensures size_is { result ≡ answer_size (class_number found.class) n m }
    ensures record_stands { answer.new ≡ written answer.old (answer_bytes n (shown_in n m found)) }
{
    let class = found.class.number();
    let head = Head {
        class,
        span: found.span,
        start: found.start,
    };
    let stamps = &found.stamps[..stamp_count(class, n)];
    let picks = &found.picks[..pick_count(class, n, m)];
    write_answer(head, stamps, picks, n, m, answer).unwrap()
}

// The answer of the problem in two tables, written at the start of a buffer.
fn solve_one(
    left: &[u32; TABLE],
    right: &[u32; TABLE],
    n: usize,
    m: usize,
    answer: &mut [u8],
) -> Answered
    requires { Coefficients n m left.now right.now × (answer_most ≤ length answer.old) }
    ensures { OneWrote n m left.now right.now result answer.old answer.new }
{
    let found = solve_tables(left, right, n, m);
    Answered {
        class: found.class,
        span: found.span,
        trials: found.trials,
        size: write_found(found, n, m, answer),
    }
}

// The answers to all questions of a record whose rules stand in the tables, each written where the one before ended: their sizes differ.
fn solve_questions(
    problem: &[u8],
    layout: Layout,
    left: &mut [u32; TABLE],
    right: &mut [u32; TABLE],
    answer: &mut [u8],
) -> Solution
    requires { SeveralRead problem.now layout left.old right.old answer.old }
    ensures { SolvedAs problem.now answer.old (Ok result) answer.new }
{
    let mut at = 0;
    let mut trials = 0;
    for q in 0..layout.questions {
        read_question(problem, layout.n, layout.m, q, left, right);
        let one = solve_one(left, right, layout.n, layout.m, &mut answer[at..]);
        at += one.size;
        trials += one.trials;
    }
    Solution::All {
        count: layout.questions,
        trials,
        size: at,
    }
}

// The room that the answers to so many questions ask for, whichever classes are due.
fn room_for(questions: usize) -> usize
    requires { questions ≤ most_questions }
    ensures { result ≡ questions * answer_most }
{
    questions * ANSWER_MOST
}

// The answer of a problem whose rules and first question stand in the tables, or the answers to its questions.
fn solve_told(
    problem: &[u8],
    layout: Layout,
    left: &mut [u32; TABLE],
    right: &mut [u32; TABLE],
    answer: &mut [u8],
) -> Result<Solution, Refusal>
    requires { Read engine_kinds (meant problem.now) layout left.old right.old }
    ensures { SolvedAs (meant problem.now) answer.old result answer.new }
{
    if answer.len() < room_for(layout.questions) {
        return Err(Refusal::Room);
    }
    let solution = match layout.kind {
        Kind::Questions => solve_questions(problem, layout, left, right, answer),
        Kind::Problem | Kind::States => {
            Solution::One(solve_one(left, right, layout.n, layout.m, answer))
        }
    };
    Ok(solution)
}

// The answer of the problem that the bytes mean, or the answers to its questions, written into the lent buffer; a refusal leaves the
// buffer as it was. No bytes mean the idle day, as which `read_layout` reads them.
pub fn solve(problem: &[u8], answer: &mut [u8]) -> Result<Solution, Refusal>
    ensures { SolvedAs (meant problem.now) answer.old result answer.new }
{
    let mut left = [0u32; TABLE];
    let mut right = [0u32; TABLE];
    let layout = read_layout(problem, ENGINE_KINDS, &mut left, &mut right)?;
    solve_told(problem, layout, &mut left, &mut right, answer)
}
