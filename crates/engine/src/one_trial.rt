// The engine one trial at a time, on the bytes of a problem of kind 1, for a caller that holds several problems. Document 02, 2.11. The
// first step makes the look, each makes one trial by it, and the last makes the answer.
ghost use Rattle.std.specs.Prelude.{◌≤◌, ◌≡◌, length};
ghost use Rattle.definitions.specs.Limits.{answer_most};
ghost use Rattle.definitions.specs.ProblemRecord.{meant};
ghost use Rattle.definitions.specs.Desk.{WithinDesk};
ghost use Rattle.records.specs.Classes.{class_number};
ghost use Rattle.search.specs.Trials.{FoundBy};
ghost use Rattle.engine.specs.OneTrial.{fresh, LookedAt, TablesOf, PendingFor, LookFor, AnswerKept, BegunFor, TrialFor, IsAnswered, HandedOver};

use crate::cells::{pack, picks_in, stamps_in};
use crate::solve::{Answered, read_layout, write_found};
use class_answers::answer::{Answer, answer_of};
use look::frame::frame_of;
use look::greatest::{Look, look_at};
use records::limits::{STRIDE, TABLE};
use records::problem::{DESK_KINDS, Layout};
use records::refusal::Refusal;
use search::search::Found;
use search::steps::{Search, found_of, next_trial, opened};

// A problem under way: its n and m; its search, open until it is answered; and from the first trial on what its look found. Once it is
// answered the cells of its answer and their start stand in the place of the look's picks and start.
#[derive(Clone, Copy)]
pub struct Pending {
    pub n: usize,
    pub m: usize,
    pub search: Search,
    pub kept: Look,
}

// No trial is made, and no look.
pub fn not_tried(n: usize, m: usize) -> Pending
    ensures { result ≡ fresh n m }
{
    Pending {
        n,
        m,
        search: opened(),
        kept: Look {
            start: 0,
            second: 0,
            picks: [0; STRIDE],
        },
    }
}

// The problem that the bytes mean, under way, or its first refusal. It makes no trial and no look.
pub fn begin(problem: &[u8]) -> Result<Pending, Refusal>
    ensures { BegunFor (meant problem.now) result }
{
    let mut left = [0u32; TABLE];
    let mut right = [0u32; TABLE];
    let layout = read_layout(problem, DESK_KINDS, &mut left, &mut right)?;
    Ok(not_tried(layout.n, layout.m))
}

// The tables of a problem that the desk took.
fn read_taken(problem: &[u8], left: &mut [u32; TABLE], right: &mut [u32; TABLE]) -> Layout
    requires { WithinDesk (meant problem.now) }
    ensures { TablesOf (meant problem.now) result.n result.m left.new right.new }
{
    read_layout(problem, DESK_KINDS, left, right).unwrap()
}

// The look at a problem, made at its first trial.
fn looked(problem: &[u8], pending: Pending) -> Look
    requires { PendingFor (meant problem.now) pending }
    ensures { LookFor (meant problem.now) pending result }
{
    if pending.search.made != 0 {
        return pending.kept;
    }
    let mut left = [0u32; TABLE];
    let mut right = [0u32; TABLE];
    let layout = read_taken(problem, &mut left, &mut right);
    look_at(&frame_of(&left, &right, layout.n, layout.m))
}

// The answer that shows what the trials found, in place of the look.
fn answered(problem: &[u8], look: Look, found: Found) -> Look
    requires { WithinDesk (meant problem.now) × LookedAt (meant problem.now) look × FoundBy look.second (class_number found.class) found.span found.trials }
    ensures { AnswerKept (meant problem.now) look.second found result }
{
    let mut left = [0u32; TABLE];
    let mut right = [0u32; TABLE];
    let layout = read_taken(problem, &mut left, &mut right);
    let frame = frame_of(&left, &right, layout.n, layout.m);
    let answer = answer_of(&frame, &look, found);
    Look {
        start: answer.start,
        second: look.second,
        picks: pack(&answer.stamps, &answer.picks),
    }
}

// Document 01's next trial of the problem that the bytes mean.
pub fn one_trial(problem: &[u8], pending: Pending) -> Pending
    requires { PendingFor (meant problem.now) pending }
    ensures { TrialFor (meant problem.now) pending result }
{
    let look = looked(problem, pending);
    let search = next_trial(look.second, pending.search);
    let kept = match found_of(search).closed() {
        None => look,
        Some(found) => answered(problem, look, found),
    };
    Pending {
        search,
        kept,
        ..pending
    }
}

// Writes the record of a problem that is answered at the start of a buffer.
pub fn hand_over(pending: Pending, answer: &mut [u8]) -> Answered
    requires { IsAnswered pending × (answer_most ≤ length answer.old) }
    ensures { HandedOver pending answer.old result answer.new }
{
    let found = found_of(pending.search).closed().unwrap();
    let shown = Answer {
        class: found.class,
        span: found.span,
        start: pending.kept.start,
        trials: found.trials,
        stamps: stamps_in(&pending.kept.picks),
        picks: picks_in(&pending.kept.picks),
    };
    Answered {
        class: found.class,
        span: found.span,
        trials: found.trials,
        size: write_found(shown, pending.n, pending.m, answer),
    }
}
