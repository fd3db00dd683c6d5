// The verdict program: a problem followed by an answer on standard input, one line on standard output. Document 01, "Two
// programs".
#![tactic(auto)]

ghost use Rattle.std.specs.Prelude.{◌≡◌, ℕ, ◌≤◌, List, length, take};
ghost use Rattle.definitions.specs.Programs.{ReadFrom, VerdictOutput, verdict_line};
ghost use Rattle.checker.specs.Outcome.{verdict_of};
ghost use Rattle.printing.specs.Text.{line_most};

use checker::check::Certified;
use checker::input::judge_input;
use output::writer::{write_accepted, write_turned_away};
use printing::lines::LINE_MOST;
use programs::run;
use records::limits::KEPT;
use records::refusal::Refusal;

// Puts the line of a verdict at the front of a buffer, and gives its size.
fn put_line(line: &mut [u8], verdict: Result<Certified, Refusal>) -> usize
    requires { length line.old ≡ line_most }
    ensures { (result ≤ line_most) × (take result line.new ≡ verdict_line (verdict_of verdict)) }
{
    match verdict {
        Ok(Certified { class, span }) => write_accepted(line, class, span),
        Err(refusal) => write_turned_away(line, refusal.number()),
    }
}

// What the program puts out for every input of which this was read: so many bytes of the buffer.
fn answer(kept: &[u8; KEPT], size: u64, line: &mut [u8]) -> usize
    requires { length line.old ≡ line_most }
    ensures { (result ≤ line_most) × ((input : List ℕ) → ReadFrom kept.now size input → VerdictOutput input (take result line.new)) }
{
    put_line(line, judge_input(kept, size))
}

fn main(rt: HostRuntime) {
    let mut line = [0u8; LINE_MOST];
    run(&rt, "verdict", &mut rt.stdin(), &mut line, answer);
}
