// Results as one number, as C is handed them.
ghost use Rattle.std.specs.Prelude.{◌≡◌};
ghost use Rattle.records.specs.Refusals.{outcome_by};
ghost use Rattle.capi.specs.Numbers.{Small, written_number};

use records::limits::BYTE;
use records::refusal::Refusal;

// Where fewer places are lent than are to be filled.
pub const TOO_FEW_PLACES: u64 = 255;

// The start of an answer stands above the class, below the span.
pub const QUARTER: u64 = BYTE * BYTE;

// 256 × the size of what was written, else the refusal.
pub fn size_number(written: Result<usize, Refusal>) -> u64
    requires { Small written }
    ensures { result ≡ written_number (outcome_by (λ size. size) written) }
{
    match written {
        Ok(size) => BYTE * size as u64,
        Err(refusal) => refusal.number() as u64,
    }
}
