// The converter over lent bytes (document 02, 2.6), with the result as one number.
ghost use Rattle.capi.specs.Converted.{ConvertsAs};

use crate::numbers::size_number;
use converter::convert::convert;

// Writes a stored problem of kind 1 or 3 without its rules that say nothing at the start of the lent buffer.
#[unsafe(no_mangle)]
pub extern "C" fn span_convert(stored: &[u8], buffer: &mut [u8]) -> u64
    ensures { ConvertsAs stored.now buffer.old result buffer.new }
{
    size_number(convert(stored, buffer))
}
