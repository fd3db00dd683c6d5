// The census: each problem made by its number, solved, and counted.
ghost use Rattle.std.specs.Prelude.{◌≡◌};
ghost use Rattle.definitions.specs.Census.{census_total, FourCounts, Censuses};
ghost use Rattle.counting.specs.Steps.{CensusFits, census_of};

use crate::small::{counted_as, put_head, put_leads};
use crate::tally::Tally;
use crate::total::judge;
use records::limits::{LEAD_BYTES, PROBLEM_HEADER};
use records::problem::lead_count;
use records::refusal::Refusal;

// The largest record of a census has 8 leads.
const SMALL_MOST: usize = PROBLEM_HEADER + LEAD_BYTES * 8;

// The tally of all problems.
fn tally_all(n: usize, m: usize, w: u64, total: u64) -> Tally
    requires { CensusFits n m w × (total ≡ census_total n m w) }
    ensures { FourCounts n m w result.least result.bottomless result.none result.silent }
{
    let leads = lead_count(n, m + 1);
    let size = PROBLEM_HEADER + LEAD_BYTES * leads;
    let mut problem = [0u8; SMALL_MOST];
    put_head(&mut problem, n, m, leads);
    let mut tally = Tally::default();
    for number in 0..total {
        put_leads(&mut problem, leads, w, number);
        tally.add(counted_as(&problem[..size]));
    }
    tally
}

// The census of all problems of kind 1 with this n and m whose leads are blank or −w to w: how many are least, bottomless, none, and under
// refusal 17; or refusal 27.
pub fn take_census(n: u64, m: u64, w: u64) -> Result<Tally, Refusal>
    ensures { Censuses n m w (census_of result) }
{
    let total = judge(n as usize, m as usize, w)?;
    Ok(tally_all(n as usize, m as usize, w, total))
}
