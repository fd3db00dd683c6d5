// Where reach begins: what an answer's start means, as marks. Document 02, 2.4.
ghost use Rattle.std.specs.Prelude.{◌+◌, ◌≤◌};
ghost use Rattle.base.specs.Decides.{Decides};
ghost use Rattle.definitions.specs.Certificate.{Second, start_of};
ghost use Rattle.definitions.specs.ProblemRecord.{problem_of};
ghost use Rattle.reach.specs.Marks.{StartMarked};

use problem_records::laid::Rows;
use problem_records::reader::row_of;
use reach::{anchor, marks_of};
use records::limits::STRIDE;

// All variables with a coefficient in the objective's second list.
fn second_marks(rows: &Rows) -> [u8; STRIDE]
    ensures { StartMarked (Second (problem_of rows.now.bytes.now)) (rows.now.n + 1) result }
{
    let row = row_of(rows.bytes, rows.right_start(rows.m), rows.n + 1);
    marks_of(&row)
}

// The start of an answer of class 1 or 3: 0 is the anchor, 1 all variables of the second list. Public for the checker's `check`.
pub fn start_marks(rows: &Rows, start: u64) -> [u8; STRIDE]
    ensures { StartMarked (start_of (problem_of rows.now.bytes.now) start) (rows.now.n + 1) result }
{
    match start {
        0 => anchor(),
        1.. => second_marks(rows),
    }
}

// Variable k has a coefficient in the second list, as that which a start of class 2 names must. Public for the checker's `check`.
pub fn in_second(rows: &Rows, k: usize) -> bool
    requires { k ≤ rows.now.n }
    ensures { Decides (Second (problem_of rows.now.bytes.now) k) result }
{
    rows.right(rows.m, k) != 0
}
