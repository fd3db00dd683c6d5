// Which variables a start reaches, along a table of arcs: 32 rows of 32, row j for the arcs from variable j; 0 is no arc.
#![tactic(auto)]

ghost use Rattle.std.specs.Prelude.{◌≡◌, ◌+◌, ◌*◌, ◌≤◌, ◌<◌, length};
ghost use Rattle.definitions.specs.Limits.{stride, arcs_size};
ghost use Rattle.reach.specs.Marks.{Flags, Anchored, AnchoredAnd, Reached};
ghost use Rattle.reach.specs.Spreading.{mark_of, MarksOf, RowMarked, Spreading};

pub mod compare;

use crate::compare::marks_differ;
use records::limits::{ARCS, STRIDE};

// The start of document 01: variable 0, the anchor, alone. Public for `strategy_tests::starts`, `class_answers`,
// `grounds::reached`.
pub fn anchor() -> [u8; STRIDE]
    ensures { Anchored result }
{
    let mut start = [0u8; STRIDE];
    start[0] = 1;
    start
}

// The start of class 2 (document 02, 2.4): variable k and the anchor. Public for `checker::check`, `class_answers`.
pub fn anchor_and(k: usize) -> [u8; STRIDE]
    requires { k < stride }
    ensures { AnchoredAnd k result }
{
    let mut both = anchor();
    both[k] = 1;
    both
}

// The variables of a list of coefficients that are not blank. Public for `strategy_tests::starts`, `class_answers`,
// `grounds::reached`.
pub fn marks_of(coefficients: &[u32; STRIDE]) -> [u8; STRIDE]
    requires { length coefficients.now ≡ stride }
    ensures { MarksOf coefficients.now stride result }
{
    let mut marks = [0u8; STRIDE];
    for l in 0..STRIDE {
        marks[l] = mark_of(0, coefficients[l]);
    }
    marks
}

// A place's mark once an arc leads there, or none does.
fn mark_of(mark: u8, arc: u32) -> u8
    ensures { result ≡ mark_of mark arc }
{
    if arc == 0 { mark } else { 1 }
}

// All to which the arcs from `base` on lead are marked too. All places are looked at, whatever the width: a loop of known
// length is several times as fast, and marks past the width say nothing.
fn mark_row(arcs: &[u32; ARCS], base: usize, marks: &mut [u8; STRIDE])
    requires { (base + stride ≤ arcs_size) × (length marks.old ≡ stride) }
    ensures { RowMarked arcs.now base stride marks.old marks.new }
{
    for l in 0..STRIDE {
        marks[l] = mark_of(marks[l], arcs[base + l]);
    }
}

// Marks, and which variables are done: they have marked all to which they lead.
#[derive(Clone, Copy)]
pub struct Spread {
    pub marks: [u8; STRIDE],
    pub done: [u8; STRIDE],
}

impl Spread {
    // A round: each marked variable that is not done marks all to which it leads. Marks of this round count in it already.
    fn round(&mut self, arcs: &[u32; ARCS], width: usize)
        requires { (width ≤ stride) × Flags self.old.marks × Flags self.old.done }
        ensures { Spreading arcs.now width self.old.marks self.old.done width self.new.marks self.new.done }
    {
        for j in 0..width {
            if self.done[j] < self.marks[j] {
                mark_row(arcs, j * STRIDE, &mut self.marks);
                self.done[j] = 1;
            }
        }
    }
}

// Marks of the variables that are reachable from the start, by rounds until one reaches no new variable: the marks before and
// after it are compared by words (document 02, 2.3). Each round but the last marks one more, so there are at most as many of
// these as variables. Public for `strategy_tests`, `pick_tables`, `grounds::reached`.
pub fn reach(arcs: &[u32; ARCS], width: usize, start: [u8; STRIDE]) -> [u8; STRIDE]
    requires { (width ≤ stride) × Flags start }
    ensures { Reached arcs.now width start result }
{
    let mut spread = Spread {
        marks: start,
        done: [0; STRIDE],
    };
    loop {
        let before = spread.marks;
        spread.round(arcs, width);
        if !marks_differ(&before, &spread.marks, width) {
            return spread.marks;
        }
    }
}
