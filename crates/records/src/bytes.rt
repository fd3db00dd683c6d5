// Fields of 2 and 4 bytes at a place of a string of bytes, lowest byte first.
ghost use Rattle.std.specs.Prelude.{◌≡◌, ◌+◌, ◌<◌, ◌≤◌, length, slice_index};
ghost use Rattle.definitions.specs.Limits.{short_full, signed_full, short_bytes, signed_bytes};
ghost use Rattle.definitions.specs.Bytes.{num_at};

// The byte at a place, 0 past the end.
fn byte_at(s: &[u8], at: usize) -> u8
    ensures { result ≡ slice_index s.now at }
{
    if at < s.len() { s[at] } else { 0 }
}

// A field of 2 bytes. Public for `problem`, `problem_records` and `answer_reader::answer`.
pub fn short_at(s: &[u8], at: usize) -> u16
    requires { at < signed_full }
    ensures { (result ≡ num_at short_bytes s.now at) × (result < short_full) }
{
    u16::from_le_bytes([byte_at(s, at), byte_at(s, at + 1)])
}

// A field of 2 bytes that lies inside the string. Public for `answer_reader::answer`.
pub fn short_in(s: &[u8], at: usize) -> u16
    requires { at + short_bytes ≤ length s.now }
    ensures { (result ≡ num_at short_bytes s.now at) × (result < short_full) }
{
    u16::from_le_bytes([s[at], s[at + 1]])
}

// A field of 4 bytes. Public for `problem`, `answer_reader::answer` and `checker::input`.
pub fn word_at(s: &[u8], at: usize) -> u32
    requires { at < signed_full }
    ensures { (result ≡ num_at signed_bytes s.now at) × (result < signed_full) }
{
    u32::from_le_bytes([
        byte_at(s, at),
        byte_at(s, at + 1),
        byte_at(s, at + 2),
        byte_at(s, at + 3),
    ])
}

// A field of 4 bytes that lies inside the string: it tests nothing, so that the loops over leads become vector code. Public for
// `problem_records::reader`, `answer_reader::answer`, `plan_tests`.
pub fn word_in(s: &[u8], at: usize) -> u32
    requires { at + signed_bytes ≤ length s.now }
    ensures { (result ≡ num_at signed_bytes s.now at) × (result < signed_full) }
{
    u32::from_le_bytes([s[at], s[at + 1], s[at + 2], s[at + 3]])
}
