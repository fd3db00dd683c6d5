// The first open minute at or after a minute. Minutes are offset numbers: k stands for k − 2³¹.
ghost use Rattle.std.specs.Prelude.{◌≡◌, ◌<◌};
ghost use Rattle.definitions.specs.Limits.{week_minutes};
ghost use Rattle.definitions.specs.Week.{minute_of_week, Admits};
ghost use Rattle.opening_hours.specs.Lookup.{Asked, FirstFrom, minute_of, admission_of};

use crate::list::list_fits;
use records::limits::{MINUTE_LIMIT, OFFSET, WEEK};
use records::offset::whole_within;
use records::refusal::Refusal;

// The minute of its week at which a minute stands.
fn minute_of_week(z: u64) -> u64
    ensures { (result ≡ minute_of_week (minute_of z)) × (result < week_minutes) }
{
    if OFFSET <= z {
        (z - OFFSET) % WEEK
    } else {
        (WEEK - (OFFSET - z) % WEEK) % WEEK
    }
}

// The first open minute at or after a minute of this week, counted from this week's Monday 0:00: in the first window that closes
// after it, else in the first window of the next week.
fn open_from(week: &[u64], minute: u64) -> u64
    requires { Asked week.now minute }
    ensures { FirstFrom week.now minute result }
{
    let (windows, _) = week.as_chunks::<2>();
    for &[opening, closing] in windows {
        if minute < closing {
            return minute.max(opening);
        }
    }
    WEEK + week[0]
}

// The first open minute at or after z by a week list, none for an empty list, or refusal 19.
pub fn first_open(week: &[u64], z: u64) -> Result<Option<u64>, Refusal>
    ensures { Admits week.now (minute_of z) (admission_of result) }
{
    if !list_fits(week) || !whole_within(MINUTE_LIMIT, z) {
        return Err(Refusal::Week);
    }
    if week.is_empty() {
        return Ok(None);
    }
    let minute = minute_of_week(z);
    Ok(Some(z - minute + open_from(week, minute)))
}
