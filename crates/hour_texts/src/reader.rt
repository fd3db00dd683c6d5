// The reader: a text to the span or stamp that it says, an offset number. Document 02, 2.7.
ghost use Rattle.std.specs.Prelude.{◌≡◌, ◌∷◌, ◌+◌, ◌≤◌, ◌<◌, length, get_or};
ghost use Rattle.definitions.specs.Limits.{text_most};
ghost use Rattle.definitions.specs.Programs.{decimal};
ghost use Rattle.definitions.specs.Hours.{hyphen, Clock, ReadsHours};
ghost use Rattle.hour_texts.specs.Outcome.{reading_of, FoundBy, IsDigit, IsMinutes};

use records::limits::{HOUR, OFFSET, TEXT_LIMIT, TEXT_MOST};
use records::refusal::Refusal;

// The bytes of minutes in a text: a colon and two digits.
const MINUTES_PART: usize = 3;

// The number of a digit.
fn read_digit(byte: u8) -> Option<u64>
    ensures { FoundBy (IsDigit byte) result }
{
    match byte {
        b'0'..=b'9' => Some(u64::from(byte - b'0')),
        _ => None,
    }
}

// The number in one or more decimal digits, of which the first is 0 only where it stands alone.
fn read_digits(digits: &[u8]) -> Option<u64>
    requires { (0 < length digits.now) × (length digits.now + 3 ≤ text_most) × (get_or digits.now 0 0 ≡ 48 → length digits.now ≡ 1) }
    ensures { FoundBy (λ k. digits.now ≡ decimal k) result }
{
    let mut number = 0;
    for &byte in digits {
        number = 10 * number + read_digit(byte)?;
    }
    Some(number)
}

// The number in decimal digits without leading zeros.
fn read_number(digits: &[u8]) -> Option<u64>
    requires { length digits.now + 3 ≤ text_most }
    ensures { FoundBy (λ k. digits.now ≡ decimal k) result }
{
    match digits {
        [] | [b'0', _, ..] => None,
        _ => read_digits(digits),
    }
}

// The minutes behind a colon, two digits, below 60.
fn read_minutes(part: &[u8]) -> Option<u64>
    ensures { FoundBy (IsMinutes part.now) result }
{
    let &[b':', tens, ones] = part else {
        return None;
    };
    let minutes = 10 * read_digit(tens)? + read_digit(ones)?;
    if minutes < HOUR { Some(minutes) } else { None }
}

// The minutes that a text without a sign says.
fn read_clock(text: &[u8]) -> Option<u64>
    requires { length text.now ≤ text_most }
    ensures { FoundBy (λ k. Clock k text.now) result }
{
    let at = text.len().checked_sub(MINUTES_PART)?;
    let (hours, minutes) = text.split_at(at);
    Some(HOUR * read_number(hours)? + read_minutes(minutes)?)
}

// The value of a text that does not begin with a hyphen: zero or above.
fn read_plain(text: &[u8]) -> Result<u64, Refusal>
    requires { (length text.now ≤ text_most) × (get_or text.now 0 0 ≡ hyphen → ⊥) }
    ensures { ReadsHours text.now (reading_of result) }
{
    match read_clock(text) {
        Some(number) if number <= TEXT_LIMIT => Ok(OFFSET + number),
        _ => Err(Refusal::NoText),
    }
}

// The value of a text that begins with a hyphen and is not blank, from what follows the hyphen: below zero.
fn read_behind_hyphen(rest: &[u8]) -> Result<u64, Refusal>
    requires { (length rest.now ≤ text_most) × (length rest.now ≡ 1 → get_or rest.now 0 0 ≡ hyphen → ⊥) }
    ensures { ReadsHours (hyphen ∷ rest.now) (reading_of result) }
{
    match read_clock(rest) {
        Some(number) if 0 < number && number <= TEXT_LIMIT => Ok(OFFSET - number),
        _ => Err(Refusal::NoText),
    }
}

// A text read: the value whose text it is, an offset number, or refusal 18.
pub fn read_hours(text: &[u8]) -> Result<u64, Refusal>
    ensures { ReadsHours text.now (reading_of result) }
{
    if TEXT_MOST < text.len() {
        return Err(Refusal::NoText);
    }
    match text {
        [b'-', b'-'] => Ok(0),
        [b'-', rest @ ..] => read_behind_hyphen(rest),
        _ => read_plain(text),
    }
}
