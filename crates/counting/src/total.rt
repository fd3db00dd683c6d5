// How many problems a census counts, and refusal 27.
ghost use Rattle.std.specs.Prelude.{◌≡◌};
ghost use Rattle.definitions.specs.Bytes.{outcome};
ghost use Rattle.definitions.specs.Census.{census_total, census_refusal};
ghost use Rattle.counting.specs.Steps.{total_of};

use records::limits::{CENSUS_MOST, HIGHEST_M, HIGHEST_N, LEAD_LIMIT};
use records::problem::lead_count;
use records::refusal::Refusal;

// The number of problems, or refusal 27. A power that would overflow is above 65,536 all the same.
pub fn judge(n: usize, m: usize, w: u64) -> Result<u64, Refusal>
    ensures { total_of result ≡ outcome (census_refusal n m w) (census_total n m w) }
{
    if w == 0 || LEAD_LIMIT < w || HIGHEST_N < n || HIGHEST_M < m {
        return Err(Refusal::Census);
    }
    let total = (2 * w + 2).saturating_pow(lead_count(n, m + 1) as u32);
    if CENSUS_MOST < total {
        return Err(Refusal::Census);
    }
    Ok(total)
}
