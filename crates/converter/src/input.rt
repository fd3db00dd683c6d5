// The converter on the input of the convert program, from its first 20,000 bytes and its size. A problem is shorter than what is kept,
// so a longer input is refused by its header.
ghost use Rattle.std.specs.Prelude.{◌≡◌, ℕ, List, length};
ghost use Rattle.definitions.specs.Limits.{kept_bytes};
ghost use Rattle.definitions.specs.Programs.{KeptOf};
ghost use Rattle.definitions.specs.Conversion.{Converts};
ghost use Rattle.converter.specs.Steps.{conversion_of};

use crate::convert::convert;
use records::limits::KEPT;
use records::problem::{CONVERTER_KINDS, read_header};
use records::refusal::Refusal;

// The same on a slice. The engine's `input` has it over its own call: each promises in its own words, and a closure's law would be
// as long.
fn convert_kept(kept: &[u8], size: usize, out: &mut [u8]) -> Result<usize, Refusal>
    requires { length kept.now ≡ kept_bytes }
    ensures { (input : List ℕ) → KeptOf kept.now size input → Converts input out.old (conversion_of result) out.new }
{
    if size <= KEPT {
        return convert(&kept[..size], out);
    }
    Err(read_header(kept, size, CONVERTER_KINDS).unwrap_err())
}

// Every input of this size that begins with the kept bytes converted into the lent buffer; a refusal leaves the buffer as it was.
pub fn convert_input(kept: &[u8; KEPT], size: u64, out: &mut [u8]) -> Result<usize, Refusal>
    ensures { (input : List ℕ) → KeptOf kept.now size input → Converts input out.old (conversion_of result) out.new }
{
    convert_kept(kept, size as usize, out)
}
