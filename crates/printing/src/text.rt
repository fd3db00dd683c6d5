// Bytes and decimal numbers put into a lent buffer.
ghost use Rattle.std.specs.Prelude.{◌≡◌, ◌+◌, ◌≤◌, ◌<◌, length};
ghost use Rattle.definitions.specs.Programs.{decimal};
ghost use Rattle.printing.specs.Text.{Putting, Appended};

// Puts `text` from place `at` on, and gives the place after it. Public for `lines` and `hour_texts::writer`.
pub fn copy(buf: &mut [u8], at: usize, text: &[u8]) -> usize
    requires { at + length text.now ≤ length buf.old }
    ensures { Putting buf.old at text.now buf.new result }
{
    let next = at + text.len();
    buf[at..next].copy_from_slice(text);
    next
}

// Appends `text` at place `at` and gives the next place. Where there is no room nothing is written, and the place stays.
// Public for `output::writer`.
pub fn append(buf: &mut [u8], at: usize, text: &[u8]) -> usize
    ensures { Appended buf.old at text.now buf.new result }
{
    if buf.len() < at || buf.len() - at < text.len() {
        return at;
    }
    copy(buf, at, text)
}

// Puts a number in decimal, without leading zeros, from place `at` on, and gives the place after it.
// Public for `lines` and `hour_texts::writer`. By hand, as std says of `write!` to a lent slice no bytes, and CONTRIBUTING names std alone.
pub fn put_decimal(buf: &mut [u8], at: usize, number: u64) -> usize
    requires { at + 20 ≤ length buf.old }
    ensures { Putting buf.old at (decimal number) buf.new result × (result ≤ at + 20) }
{
    if number < 10 {
        buf[at] = digit(number);
        return at + 1;
    }
    let next = put_decimal(buf, at, number / 10);
    buf[next] = digit(number % 10);
    next + 1
}

// The digit of a number below 10. Public for `hour_texts::writer`.
pub fn digit(number: u64) -> u8
    requires { number < 10 }
    ensures { result ≡ 48 + number }
{
    b'0' + number as u8
}
