// A pass over the rows: whether a point solves the system in two tables.
ghost use Rattle.std.specs.Prelude.{[]};
ghost use Rattle.policy_iteration.specs.Tables.{point_of, highs, Lows};
ghost use Rattle.policy_iteration.specs.Rows.{BothSides, system_in};
ghost use Rattle.merging.specs.Plans.{Stand};

use policy_iteration::rows::Rows;
use records::limits::STRIDE;

// Every row stands at the point: its left side is at most its right side. A `for` that leaves early: `all`
// over the range would take a proof by hand.
pub fn rows_stand(rows: &Rows, x: &[u32; STRIDE]) -> bool
    requires { BothSides rows.now × Lows rows.now.width x.now }
    ensures { Stand (system_in rows.now []) (point_of (highs x.now)) result }
{
    for i in 0..rows.count {
        if rows.right_side(i, x) < rows.left_side(i, x) {
            return false;
        }
    }
    true
}
