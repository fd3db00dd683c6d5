// The reasons program: a problem followed by an accepted answer on standard input, the rules behind it and the binding round on standard
// output. Document 02, 2.5.
#![tactic(auto)]

ghost use Rattle.std.specs.Prelude.{◌≡◌, ℕ, ◌≤◌, List, length, take};
ghost use Rattle.definitions.specs.Programs.{ReadFrom};
ghost use Rattle.definitions.specs.Reasons.{ReasonsOutput};
ghost use Rattle.reasons.specs.Lines.{lines_most};

mod lines;

use crate::lines::{LINES_MOST, put_lines};
use grounds::input::input_reasons;
use programs::run;
use records::limits::KEPT;

// What the program puts out for every input of which this was read: so many bytes of the buffer.
fn answer(kept: &[u8; KEPT], size: u64, lines: &mut [u8]) -> usize
    requires { length lines.old ≡ lines_most }
    ensures inside { result ≤ lines_most }
    ensures lines_are { (input : List ℕ) → ReadFrom kept.now size input → ReasonsOutput input (take result lines.new) }
{
    match input_reasons(kept, size) {
        Ok(grounds) => put_lines(lines, Ok(grounds)),
        Err(refusal) => put_lines(lines, Err(refusal.number())),
    }
}

fn main(rt: HostRuntime) {
    let mut lines = [0u8; LINES_MOST];
    run(&rt, "reasons", &mut rt.stdin(), &mut lines, answer);
}
