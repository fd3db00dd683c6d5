// The convert program: a stored problem on standard input, the record without its rules that say nothing, or the line of the refusal, on
// standard output. Document 02, 2.6.
#![tactic(auto)]

ghost use Rattle.std.specs.Prelude.{◌≡◌, ℕ, ◌≤◌, List, length, take};
ghost use Rattle.definitions.specs.Programs.{ReadFrom};
ghost use Rattle.definitions.specs.Conversion.{ConvertOutput};
ghost use Rattle.converter.specs.Steps.{record_most};
ghost use Rattle.convert.specs.Shown.{Shown};

use converter::input::convert_input;
use output::writer::{write_front, write_refused};
use programs::run;
use records::limits::{HIGHEST_M, KEPT, LEAD_BYTES, MOST_QUESTIONS, QUESTIONS_HEADER, STRIDE};
use records::refusal::Refusal;

// Room for what is put out: the largest record, or a line.
const OUT_MOST: usize = QUESTIONS_HEADER
    + LEAD_BYTES * (2 * (STRIDE * (HIGHEST_M + MOST_QUESTIONS)));

// Puts what a result shows at the front of the buffer for output, and gives its size.
fn put_out(out: &mut [u8], buffer: &[u8], converted: Result<usize, Refusal>) -> usize
    requires { length out.old ≡ record_most }
    ensures { (result ≤ record_most) × Shown converted buffer.now (take result out.new) }
{
    match converted {
        Ok(size) => write_front(out, buffer, size),
        Err(refusal) => write_refused(out, refusal.number()),
    }
}

// What the program puts out for every input of which this was read: so many bytes of the buffer. Span's is like it over its own
// call: each promises its own program's output.
fn answer(kept: &[u8; KEPT], size: u64, out: &mut [u8]) -> usize
    requires { length out.old ≡ record_most }
    ensures { (result ≤ record_most) × ((input : List ℕ) → ReadFrom kept.now size input → ConvertOutput input (take result out.new)) }
{
    let mut buffer = [0u8; OUT_MOST];
    let converted = convert_input(kept, size, &mut buffer);
    put_out(out, &buffer, converted)
}

fn main(rt: HostRuntime) {
    let mut out = [0u8; OUT_MOST];
    run(&rt, "convert", &mut rt.stdin(), &mut out, answer);
}
