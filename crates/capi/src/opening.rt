// The first open minute of a ward, with the result as one number.
ghost use Rattle.std.specs.Prelude.{◌≡◌};
ghost use Rattle.opening_hours.specs.Lookup.{admission_of};
ghost use Rattle.capi.specs.Opening.{AdmitsAs, SmallMinute, admission_number};

use opening_hours::lookup::first_open;
use records::limits::FULL;
use records::refusal::Refusal;

// 2³² × the minute's offset number where there is one, 0 for never, else the refusal.
#[tactic(auto, using(crate::proofs::FirstOpen::offset_minute))]
fn admission_number(admission: Result<Option<u64>, Refusal>) -> u64
    requires { SmallMinute admission }
    ensures { result ≡ admission_number (admission_of admission) }
{
    match admission {
        Ok(Some(minute)) => FULL * minute,
        Ok(None) => 0,
        Err(refusal) => refusal.number() as u64,
    }
}

// The first open minute at or after a minute by a week list; minutes are offset numbers.
#[unsafe(no_mangle)]
pub extern "C" fn span_first_open(week: &[u64], minute: u64) -> u64
    ensures { AdmitsAs week.now minute result }
{
    admission_number(first_open(week, minute))
}
