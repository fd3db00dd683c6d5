// The objective's right list beside the values of a point. A plan counts only where one of its variables has a value (document 02, 2.4).
ghost use Rattle.std.specs.Prelude.{◌≡◌, ◌<◌, ◌≤◌, length, MatchOption};
ghost use Rattle.definitions.specs.Limits.{stride};
ghost use Rattle.look.specs.SecondList.{SecondIs};

use records::limits::STRIDE;

// The first variable of the objective's right list that has a value. Public for `class_answers::answer`.
pub fn second_met(objective: &[u32; STRIDE], values: &[u64; STRIDE], width: usize) -> Option<usize>
    requires { (length objective.now ≡ stride) × (length values.now ≡ stride) × (width ≤ stride) }
    ensures { MatchOption result (SecondIs objective.now values.now width width) (λ k. (k < width) × SecondIs objective.now values.now width k) }
{
    (0..width).find(|l| objective[*l] != 0 && values[*l] != 0)
}
