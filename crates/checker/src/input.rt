// The verdict on an input of which the first bytes were kept: a problem followed by an answer, cut by the first length
// field. Document 01, "Two programs".
ghost use Rattle.std.specs.Prelude.{◌≡◌, List, ℕ, ◌+◌, ◌≤◌, ◌<◌, length, take, drop};
ghost use Rattle.definitions.specs.Limits.{highest_n, highest_m, answer_most, kept_bytes};
ghost use Rattle.definitions.specs.ProblemRecord.{meant};
ghost use Rattle.definitions.specs.AnswerRecord.{answer_header_refusal};
ghost use Rattle.definitions.specs.Verdict.{Judged};
ghost use Rattle.definitions.specs.Programs.{cut_place, problem_part, answer_part, KeptOf};
ghost use Rattle.records.specs.Refusals.{number_of};
ghost use Rattle.checker.specs.Outcome.{verdict_of};
ghost use Rattle.checker.specs.LongInput.{Longer};

use crate::check::{Certified, check};
use answer_reader::answer::read_answer_header;
use problem_records::reader::judge_problem;
use records::bytes::word_at;
use records::limits::{KEPT, LENGTH_BYTES, LENGTH_PLACE};
use records::problem::{CHECKER_KINDS, read_header};
use records::refusal::Refusal;

// Where an input is cut: by its first length field where that is whole and reaches no further than the input. Public for
// `grounds::input`.
pub fn cut_place(input: &[u8]) -> usize
    ensures place { result ≡ cut_place input.now }
    ensures inside { result ≤ length input.now }
{
    let size = input.len();
    if size < LENGTH_BYTES {
        return size;
    }
    let end = word_at(input, LENGTH_PLACE) as usize + LENGTH_BYTES;
    if size < end {
        return size;
    }
    end
}

// The verdict on an input that was kept whole. `grounds::input` has the same over its own answer: each promises in its own words, and
// what they share is `cut_place`.
fn judge_whole(input: &[u8]) -> Result<Certified, Refusal>
    ensures { Judged (meant (problem_part input.now)) (answer_part input.now) (verdict_of result) }
{
    let cut = cut_place(input);
    check(&input[..cut], &input[cut..])
}

// The refusal of the answer part of an input that is longer than what was kept, from the part's first bytes and its size:
// it is longer than every answer record, so that 9, 10 or 11 applies.
fn judge_long_answer(answer: &[u8], size: usize, n: usize, m: usize) -> Refusal
    requires { (n ≤ highest_n) × (m ≤ highest_m) × (answer_most < size) }
    ensures { number_of result ≡ answer_header_refusal answer.now size n m }
{
    read_answer_header(answer, size, n, m).unwrap_err()
}

// The refusal of an input that is longer than what was kept, and whose problem part is its first `end` bytes. A part that was
// not kept whole is longer than every problem: its header is refused.
fn judge_long(kept: &[u8], size: usize, end: usize) -> Result<Certified, Refusal>
    requires { (length kept.now ≡ kept_bytes) × (kept_bytes < size) × (end ≤ size) }
    ensures { (input : List ℕ) → Longer kept.now size input → Judged (take end input) (drop end input) (verdict_of result) }
{
    if KEPT < end {
        return Err(read_header(kept, end, CHECKER_KINDS).unwrap_err());
    }
    let layout = judge_problem(&kept[..end], CHECKER_KINDS)?;
    Err(judge_long_answer(&kept[end..], size - end, layout.n, layout.m))
}

// The same on a slice.
fn judge_kept(kept: &[u8], size: usize) -> Result<Certified, Refusal>
    requires { length kept.now ≡ kept_bytes }
    ensures { (input : List ℕ) → KeptOf kept.now size input → Judged (meant (problem_part input)) (answer_part input) (verdict_of result) }
{
    if size <= KEPT {
        return judge_whole(&kept[..size]);
    }
    let end = word_at(kept, LENGTH_PLACE) as usize + LENGTH_BYTES;
    if size < end {
        return Err(Refusal::Length);
    }
    judge_long(kept, size, end)
}

// The verdict on every input of this size that begins with the kept bytes.
pub fn judge_input(kept: &[u8; KEPT], size: u64) -> Result<Certified, Refusal>
    ensures { (input : List ℕ) → KeptOf kept.now size input → Judged (meant (problem_part input)) (answer_part input) (verdict_of result) }
{
    judge_kept(kept, size as usize)
}
