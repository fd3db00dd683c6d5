// The idle day: document 02, 2.9.
ghost use Rattle.std.specs.Prelude.{◌≡◌};
ghost use Rattle.definitions.specs.ProblemRecord.{idle, problem_bytes};

// The size of its record.
const IDLE_SIZE: usize = 18;

// The record that no bytes mean: its length, kind, n, m, and both leads of the anchor. Public for `problem_records::reader`, `checker::check`.
pub fn idle_day() -> [u8; IDLE_SIZE]
    ensures { result ≡ problem_bytes idle }
{
    [14, 0, 0, 0, 1, 0, 0, 0, 0, 0, 0, 0, 0, 0, 0, 0, 0, 0]
}
