// The test of mark bytes by which reach ends (document 02, 2.3), with the result as one number.
ghost use Rattle.capi.specs.Marks.{MarksAs};

use crate::numbers::TOO_FEW_PLACES;
use reach::compare::marks_differ;
use records::limits::BYTE;

// Whether two lists differ in some byte of their first `count`: 256 where they do, 0 where they do not, 255 where a list is shorter.
#[unsafe(no_mangle)]
pub extern "C" fn span_marks_differ(old: &[u8], new: &[u8], count: u64) -> u64
    ensures { MarksAs count old.now new.now result }
{
    let places = count as usize;
    if old.len() < places || new.len() < places {
        return TOO_FEW_PLACES;
    }
    BYTE * u64::from(marks_differ(old, new, places))
}
