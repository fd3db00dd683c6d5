// Words that are numbers.
ghost use Rattle.std.specs.Prelude.{◌≡◌, ◌+◌, ◌*◌, ◌-◌, ◌≤◌, ◌<◌};
ghost use Rattle.definitions.specs.Limits.{census_most};
ghost use Rattle.census.specs.Words.{up_to, WordRead};

use records::limits::CENSUS_MOST;

// A number with one digit more, as far as 65,536.
fn longer(value: u64, byte: u8) -> u64
    requires { (value ≤ census_most) × (48 ≤ byte) × (byte < 58) }
    ensures { (result ≡ up_to (10 * value + (byte - 48))) × (result ≤ census_most) }
{
    (10 * value + (byte - b'0') as u64).min(CENSUS_MOST)
}

// The number that a word is, if it is one. A number above 65,536 is told as 65,536, which is beyond every limit of a census too.
pub fn read_number(word: &[u8]) -> Option<u64>
    ensures { WordRead word.now result }
{
    if word.is_empty() {
        return None;
    }
    let mut value = 0;
    for byte in word {
        if !byte.is_ascii_digit() {
            return None;
        }
        value = longer(value, *byte);
    }
    Some(value)
}
