// A week list judged: opening and closing minutes in turn.
ghost use Rattle.opening_hours.specs.Lookup.{ListJudged};

use records::limits::{MOST_WINDOWS, WEEK};

// Refusal 19 does not apply to the list: an even count, few windows, each within the week and open, each from where the last
// one closed. Public for `lookup`.
pub fn list_fits(week: &[u64]) -> bool
    ensures { ListJudged week.now result }
{
    let (windows, rest) = week.as_chunks::<2>();
    if !rest.is_empty() || MOST_WINDOWS < windows.len() {
        return false;
    }
    let mut last = 0;
    for &[opening, closing] in windows {
        if opening < last || closing <= opening || WEEK < closing {
            return false;
        }
        last = closing;
    }
    true
}
