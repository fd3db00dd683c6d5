// The first latest right moment of a row: the first with the largest right lead plus stamp.
ghost use Rattle.std.specs.Prelude.{◌≡◌, ℕ, ◌≤◌, ◌<◌, get_or};
ghost use Rattle.definitions.specs.Limits.{lead_limit, stamp_limit, stride};
ghost use Rattle.definitions.specs.Tropical.{plus};
ghost use Rattle.definitions.specs.Offset.{trop_of};
ghost use Rattle.records.specs.Decoded.{Near};
ghost use Rattle.records.specs.Stamps.{Stamped};
ghost use Rattle.grounds.specs.Latest.{FirstLatest};

use records::limits::{OFFSET, STRIDE};

// A lead plus a stamp, as offset numbers; blank where one is.
fn sum_of(lead: u32, stamp: u64) -> u64
    requires { Near lead_limit lead × Near stamp_limit stamp }
    ensures { trop_of result ≡ plus (trop_of lead) (trop_of stamp) }
{
    if lead == 0 || stamp == 0 {
        return 0;
    }
    u64::from(lead) + stamp - OFFSET
}

// The first moment with the largest lead plus stamp.
pub fn first_latest(row: &[u32; STRIDE], stamps: &[u64; STRIDE], width: usize) -> usize
    requires { Stamped stamps.now × ((l : ℕ) → Near lead_limit (get_or row.now l 0)) × (0 < width) × (width ≤ stride) }
    ensures { FirstLatest (λ l. get_or row.now l 0) stamps.now width result }
{
    let mut at = 0;
    let mut best = sum_of(row[0], stamps[0]);
    for l in 1..width {
        let sum = sum_of(row[l], stamps[l]);
        if sum > best {
            best = sum;
            at = l;
        }
    }
    at
}
