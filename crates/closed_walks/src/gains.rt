// The test of closed walks, over a table of arcs, by rounds in place: each marked variable in turn raises the values at the
// ends of its arcs to its own with the arc's weight, unless it has done so with this value. Values start at 0.
// Yes, once all have done so: the values are then a potential, which bounds every walk, and a closed one weighs at most zero.
// No, at the first value above the limit, with which no others are raised, so that none wraps; or after one round more than there
// are variables: unless a short closed walk weighs above zero, no value exceeds the heaviest walk of fewer arcs than variables, so
// many rounds find it, and one more passes it on.
ghost use Rattle.std.specs.Prelude.{◌≡◌, ◌+◌, ◌<◌, ◌≤◌, ℕ, length, get_or};
ghost use Rattle.definitions.specs.Limits.{signed_full, stride, arcs_size};
ghost use Rattle.reach.specs.Marks.{Flags};
ghost use Rattle.closed_walks.specs.Gains.{arc_zero, Table, Tested};
ghost use Rattle.closed_walks.specs.Order.{Ordered};
ghost use Rattle.closed_walks.specs.GainRound.{end_value, Pushed, RoundReady, Ended};

use records::limits::{ARCS, LEAD_LIMIT, SPAN_LIMIT, STRIDE, STRIDE_64};
use records::offset::{later, offset_32};
use std::num::wrapping_add_u32;

// No arc weighs more: 32 times two leads and a trial, and one.
const ARC_MOST: u64 = STRIDE_64 * (2 * LEAD_LIMIT + SPAN_LIMIT + 1) + 1;

// No walk of at most 32 arcs weighs more, so that no walk without a closed part does.
const VALUE_LIMIT: u32 = (STRIDE_64 * ARC_MOST) as u32;

// The value at the end of an arc: the larger of what it was and the start's with the arc's weight. The start's value as an
// offset number and the arc add up to the field of the sum, modulo 2³²; a sum too large for a field, past the width, says
// nothing.
fn end_value(was: u32, by: u32, arc: u32) -> u32
    ensures { was < arc_zero → by + arc < signed_full → result ≡ end_value was by arc }
{
    later(was, wrapping_add_u32(offset_32(by), arc))
}

// The values are raised by the arcs from `base` on of a variable with the value `by`. All places are raised, whatever the
// width: a loop of known length is several times as fast, and values past the width say nothing.
fn push(arcs: &[u32; ARCS], base: usize, by: u32, values: &mut [u32; STRIDE])
    requires { (base + stride ≤ arcs_size) × (length values.old ≡ stride) }
    ensures { Pushed arcs.now base by stride values.old values.new }
{
    for l in 0..STRIDE {
        values[l] = end_value(values[l], by, arcs[base + l]);
    }
}

// The marked variables below a width, in order: the first `count` places.
#[derive(Clone, Copy)]
pub struct Order<'a> {
    pub marks: &'a [u8; STRIDE],
    pub width: usize,
    pub places: [usize; STRIDE],
    pub count: usize,
    pub ghost ordered: { Ordered marks.now width places count },
    pub ghost narrow: { width ≤ stride },
}

impl<'a> Order<'a> {
    // These variables.
    pub fn variables(&self) -> &[usize]
        ensures { (length result.now ≡ self.now.count) × ((i : ℕ) → i < self.now.count → get_or result.now i 0 ≡ get_or self.now.places i 0) }
    {
        &self.places[..self.count]
    }
}

// The marked variables in order: each variable takes the next place, and keeps it if it is marked. So there is no branch here,
// and none on marks in the rounds. Public for `strategy_tests::certify`.
pub fn order_of(marks: &[u8; STRIDE], width: usize) -> Order
    requires { Flags marks.now × (width ≤ stride) }
    ensures { (result.marks.now ≡ marks.now) × (result.width ≡ width) }
{
    let mut places = [0usize; STRIDE];
    let mut count = 0;
    for j in 0..width {
        places[count] = j;
        count += usize::from(marks[j] != 0);
    }
    Order {
        marks,
        width,
        places,
        count,
    }
}

// A round: each variable of an order raises the values at the ends of its arcs, unless it has done so with this value; `done` has
// for each variable one more than the value with which it last did, 0 for none (with options the test would be `done[j] < Some(by)`, no
// plainer). Values of this round count in it already. It says whether a variable raised others. It stops at the first variable whose value is above the limit, and says nothing.
fn push_round(
    arcs: &[u32; ARCS],
    order: &Order,
    values: &mut [u32; STRIDE],
    done: &mut [u32; STRIDE],
) -> Option<bool>
    requires { Table arcs.now order.now.width × RoundReady arcs.now order.now.marks.now order.now.width values.old done.old }
    ensures { Ended arcs.now order.now.marks.now order.now.width values.old done.old values.new done.new result }
{
    let mut moved = false;
    for &j in order.variables() {
        let by = values[j];
        if by > VALUE_LIMIT {
            return None;
        }
        if done[j] <= by {
            push(arcs, j * STRIDE, by, values);
            done[j] = by + 1;
            moved = true;
        }
    }
    Some(moved)
}

// No closed walk from a marked variable weighs above zero: rounds until one raises nothing, at most one more than variables.
// Public for `strategy_tests::certify`.
pub fn none_gains(arcs: &[u32; ARCS], order: &Order) -> bool
    requires { Table arcs.now order.now.width × (0 < order.now.width) }
    ensures { Tested arcs.now order.now.marks.now order.now.width result }
{
    let mut values = [0u32; STRIDE];
    let mut done = [0u32; STRIDE];
    for _ in 0..order.width + 1 {
        let Some(moved) = push_round(arcs, order, &mut values, &mut done) else {
            return false;
        };
        if !moved {
            return true;
        }
    }
    false
}
