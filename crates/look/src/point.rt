// A point that shows a possible span: the greatest at or before 0 that keeps the inequalities and has a span of at most t.
ghost use Rattle.look.specs.Point.{AllRows, PointFor};

use crate::caps::level_caps;
use crate::frame::Frame;
use policy_iteration::policy::highs_of;
use policy_iteration::rows::Rows;
use records::limits::{STRIDE, TABLE};

// The point, as offset numbers, by policy iteration over all rows; the objective's right row is raised by t.
pub fn point_at(frame: &Frame, raised: &[u32; TABLE]) -> [u64; STRIDE]
    requires { AllRows frame.now raised.now }
    ensures { PointFor frame.now.n frame.now.m frame.now.left.now raised.now result }
{
    let rows = Rows {
        left: frame.left,
        right: raised,
        left_ends: &frame.left_ends,
        right_ends: &frame.right_ends,
        width: frame.n + 1,
        count: frame.m + 1,
    };
    highs_of(&rows.iterate(&level_caps()).values)
}
