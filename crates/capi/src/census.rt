// A census of small problems (document 02, 2.14), with the counts in lent places.
ghost use Rattle.std.specs.Prelude.{[], ◌∷◌};
ghost use Rattle.capi.specs.Census.{CensusAs, CountsAs};

use crate::numbers::TOO_FEW_PLACES;
use counting::census::take_census;
use counting::tally::Tally;

// What `span_census` is lent for the counts.
const COUNT_PLACES: usize = 4;

// Puts the four counts in the first of the lent places, where there are enough.
fn lend_counts(tally: Tally, counts: &mut [u64]) -> u64
    ensures { CountsAs (tally.least ∷ tally.bottomless ∷ tally.none ∷ tally.silent ∷ []) counts.old result counts.new }
{
    if counts.len() < COUNT_PLACES {
        return TOO_FEW_PLACES;
    }
    let found = [tally.least, tally.bottomless, tally.none, tally.silent];
    counts[..COUNT_PLACES].copy_from_slice(&found);
    0
}

// Counts all problems with this n and m whose leads are blank or −w to w, by class.
#[unsafe(no_mangle)]
pub extern "C" fn span_census(n: u64, m: u64, w: u64, counts: &mut [u64]) -> u64
    ensures { CensusAs n m w counts.old result counts.new }
{
    match take_census(n, m, w) {
        Ok(tally) => lend_counts(tally, counts),
        Err(refusal) => refusal.number() as u64,
    }
}
