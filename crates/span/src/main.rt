// The span program: a problem on standard input, the answer record, or those of several questions one after another, or the line of the
// refusal on standard output. Document 01, "Two programs"; document 02, 2.1.
#![tactic(auto)]

ghost use Rattle.std.specs.Prelude.{◌≡◌, ℕ, ◌≤◌, List, length, take};
ghost use Rattle.definitions.specs.ProblemRecord.{meant};
ghost use Rattle.definitions.specs.Programs.{ReadFrom, SpanOutput};
ghost use Rattle.span.specs.Shown.{out_most, Shown};

use engine::input::solve_input;
use engine::solve::{Answered, Solution};
use output::writer::{write_front, write_refused};
use programs::run;
use records::limits::{ANSWER_MOST, KEPT, MOST_QUESTIONS};
use records::refusal::Refusal;

// Room for what is put out: the records of the answers to all questions, or a line.
const OUT_MOST: usize = MOST_QUESTIONS * ANSWER_MOST;

// Puts what a result shows at the front of the buffer for output, and gives its size.
fn put_out(out: &mut [u8], buffer: &[u8], solved: Result<Solution, Refusal>) -> usize
    requires { length out.old ≡ out_most }
    ensures inside { result ≤ out_most }
    ensures shown { Shown solved buffer.now (take result out.new) }
{
    match solved {
        Ok(Solution::One(Answered { size, .. })) => write_front(out, buffer, size),
        Ok(Solution::All { size: all, .. }) => write_front(out, buffer, all),
        Err(refusal) => write_refused(out, refusal.number()),
    }
}

// What the program puts out for every input of which this was read: so many bytes of the buffer. Convert's is like it over its own
// call: each promises its own program's output.
fn answer(kept: &[u8; KEPT], size: u64, out: &mut [u8]) -> usize
    requires { length out.old ≡ out_most }
    ensures inside { result ≤ out_most }
    ensures shown { (input : List ℕ) → ReadFrom kept.now size input → SpanOutput (meant input) (take result out.new) }
{
    let mut buffer = [0u8; OUT_MOST];
    let solved = solve_input(kept, size, &mut buffer);
    put_out(out, &buffer, solved)
}

fn main(rt: HostRuntime) {
    let mut out = [0u8; OUT_MOST];
    run(&rt, "span", &mut rt.stdin(), &mut out, answer);
}
