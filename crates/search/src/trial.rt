// One trial: is a span of at most t possible? Document 01, "The engine".
ghost use Rattle.std.specs.Prelude.{◌<◌};
ghost use Rattle.base.specs.Decides.{Decides};
ghost use Rattle.definitions.specs.Limits.{signed_full};
ghost use Rattle.search.specs.Trials.{Trialled, PossibleBy};

use records::limits::{OFFSET, SPAN_LIMIT};

// The two outer trials as offset numbers: 1,290,240 and −1,290,241.
pub const TOP: u64 = OFFSET + SPAN_LIMIT;

pub const LOWEST: u64 = OFFSET - SPAN_LIMIT - 1;

// The offsets of two offset numbers together.
const TWO_OFFSETS: u64 = 2 * OFFSET;

// Is a span of at most t possible? A look found the second side S; t is possible exactly when −t is at most S, so this is one
// comparison.
pub fn trial(second: u64, t: u64) -> bool
    requires { (second < signed_full) × Trialled t }
    ensures { Decides (PossibleBy second t) result }
{
    TWO_OFFSETS <= t + second
}
