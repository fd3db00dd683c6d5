// The engine on tables: one look, document 01's trials by what it found, and the answer of each class. Document 01, "The engine".
ghost use Rattle.std.specs.Prelude.{◌≡◌, ◌≤◌, length, get_or};
ghost use Rattle.definitions.specs.Limits.{stride};
ghost use Rattle.records.specs.Classes.{class_number};
ghost use Rattle.records.specs.declared.class.Class.TheVariants.{Optimal, Unbounded, Infeasible};
ghost use Rattle.policy_iteration.specs.Tables.{Ranged};
ghost use Rattle.search.specs.Trials.{zero_offset, FoundBy};
ghost use Rattle.look.specs.Frames.{Coefficients, Ready};
ghost use Rattle.look.specs.Look.{Looked};
ghost use Rattle.class_answers.specs.Answered.{Stamps, StartMarks, ShownPicks, ByTrials, AnswerOf, ShowsTried, Answered};

use look::frame::{Frame, frame_of, raise, row_of};
use look::greatest::{Look, look_at};
use look::point::point_at;
use look::second::second_met;
use pick_tables::tables::{induced, row_picks, variable_picks};
use policy_iteration::values::gap;
use reach::{anchor, anchor_and, marks_of};
use records::class::Class;
use records::limits::{ROWS, STRIDE, TABLE};
use search::search::{Found, search};
use search::trial::LOWEST;

// Class, span and stamps as offset numbers, the start, the trials made, and picks. Stamps and picks count as far as the class has
// them.
#[derive(Clone, Copy)]
pub struct Answer {
    pub class: Class,
    pub span: u64,
    pub start: u64,
    pub trials: u64,
    pub stamps: [u64; STRIDE],
    pub picks: [u64; ROWS],
}

// The stamps of a point: each value less that of variable 0.
fn stamps(point: &[u64; STRIDE], width: usize) -> [u64; STRIDE]
    requires { Ranged point.now × (get_or point.now 0 0 ≤ zero_offset) × (width ≤ stride) }
    ensures { Stamps point.now width result }
{
    let first = point[0];
    let mut out = [0u64; STRIDE];
    for j in 0..width {
        out[j] = gap(point[j], first);
    }
    out
}

// What the start of class 1 or 3 means, as marks: 0 the anchor, 1 the variables of the second list. Document 02, 2.4.
fn begun(row: &[u32; STRIDE], start: u64) -> [u8; STRIDE]
    requires { length row.now ≡ stride }
    ensures { StartMarks row.now start result }
{
    if start == 0 { anchor() } else { marks_of(row) }
}

// A problem whose trials are made: its frame, the look, and what the trials found by it.
#[derive(Clone, Copy)]
struct Tried<'a> {
    frame: &'a Frame<'a>,
    look: &'a Look,
    found: Found,
}

impl Tried<'_> {
    // The picks of classes 1 and 3: the look's strategy, as far as its start reaches.
    fn shown(&self) -> [u64; ROWS]
        requires { ByTrials self.now }
        ensures { ShownPicks self.now.frame.now.n self.now.frame.now.m self.now.frame.now.right.now self.now.look.now.start self.now.look.now.picks result }
    {
        let frame = self.frame;
        let marks = begun(&row_of(frame.right, frame.m), self.look.start);
        variable_picks(
            frame.right,
            &self.look.picks,
            marks,
            frame.n + 1,
            frame.m + 1,
        )
    }

    // Class 3: no span is possible.
    fn infeasible(&self) -> Answer
        requires { ByTrials self.now × (self.now.found.class ≡ Infeasible) }
        ensures { ShowsTried self.now result }
    {
        Answer {
            class: Class::Infeasible,
            span: 0,
            start: self.look.start,
            trials: self.found.trials,
            stamps: [0; STRIDE],
            picks: self.shown(),
        }
    }

    // Class 2: each row picks a variable that attains its largest at a point of the lowest trial. The start names a variable of the second
    // list that has a value there.
    fn unbounded(&self) -> Answer
        requires { ByTrials self.now × (self.now.found.class ≡ Unbounded) }
        ensures { ShowsTried self.now result }
    {
        let frame = self.frame;
        let width = frame.n + 1;
        let rows = frame.m + 1;
        let mut lowered = *frame.right;
        raise(&mut lowered, frame.m, LOWEST);
        let point = point_at(frame, &lowered);
        let targets = induced(&lowered, &point, width, rows);
        let second = second_met(&row_of(frame.right, frame.m), &point, width);
        let k = second.unwrap();
        let picks = row_picks(frame.left, &targets, anchor_and(k), width, rows);
        Answer {
            class: Class::Unbounded,
            span: 0,
            start: k as u64 + 1,
            trials: self.found.trials,
            stamps: [0; STRIDE],
            picks,
        }
    }

    // Class 1: a plan of the least span, and the strategy that blocks one below it.
    fn optimal(&self) -> Answer
        requires { ByTrials self.now × (self.now.found.class ≡ Optimal) }
        ensures { ShowsTried self.now result }
    {
        let frame = self.frame;
        let mut table = *frame.right;
        raise(&mut table, frame.m, self.found.span);
        let point = point_at(frame, &table);
        Answer {
            class: Class::Optimal,
            span: self.found.span,
            start: self.look.start,
            trials: self.found.trials,
            stamps: stamps(&point, frame.n + 1),
            picks: self.shown(),
        }
    }
}

// The answer that shows what the trials found, by the look that decided them.
pub fn answer_of(frame: &Frame, look: &Look, found: Found) -> Answer
    requires { Ready frame.now × Looked frame.now.n frame.now.m frame.now.left.now frame.now.right.now look.now × FoundBy look.now.second (class_number found.class) found.span found.trials }
    ensures { AnswerOf frame.now.n frame.now.m frame.now.left.now frame.now.right.now found result }
{
    let tried = Tried { frame, look, found };
    match found.class {
        Class::Optimal => tried.optimal(),
        Class::Unbounded => tried.unbounded(),
        Class::Infeasible => tried.infeasible(),
    }
}

// The answer of the problem in two tables.
pub fn solve_tables(left: &[u32; TABLE], right: &[u32; TABLE], n: usize, m: usize) -> Answer
    requires { Coefficients n m left.now right.now }
    ensures { Answered n m left.now right.now result }
{
    let frame = frame_of(left, right, n, m);
    let look = look_at(&frame);
    answer_of(&frame, &look, search(look.second))
}
