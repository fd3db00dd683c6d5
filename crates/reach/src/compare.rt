// Mark bytes compared, eight to a word (document 02, 2.3).
ghost use Rattle.std.specs.Prelude.{◌≡◌, ◌+◌, ◌*◌, ◌≤◌, ◌<◌, length};
ghost use Rattle.definitions.specs.Bytes.{num_at};
ghost use Rattle.definitions.specs.Marks.{DifferBelow, MarksCompared};

use records::bytes::word_in;
use records::limits::FULL;

// The bytes of a word.
const WORD: usize = 8;

// The eight bytes from a place as one word, lowest byte first. The compiler makes one load of it.
fn eight_at(marks: &[u8], at: usize) -> u64
    requires { at + 8 ≤ length marks.now }
    ensures { result ≡ num_at 8 marks.now at }
{
    let half = at + 4;
    word_in(marks, at) as u64 + FULL * word_in(marks, half) as u64
}

// Whether the first `words` words of two lists differ in some byte.
fn words_differ(old: &[u8], new: &[u8], words: usize) -> bool
    requires { (8 * words ≤ length old.now) × (8 * words ≤ length new.now) }
    ensures { MarksCompared (8 * words) old.now new.now result }
{
    for w in 0..words {
        let at = WORD * w;
        if eight_at(old, at) != eight_at(new, at) {
            return true;
        }
    }
    false
}

// Whether two lists, the same up to a place, differ in some byte from there on: fewer than eight are left.
fn rest_differs(old: &[u8], new: &[u8], from: usize, count: usize) -> bool
    requires { (count ≤ length old.now) × (count ≤ length new.now) × (from ≤ count) × (count < from + 8) × (DifferBelow from old.now new.now → ⊥) }
    ensures { MarksCompared count old.now new.now result }
{
    for k in from..count {
        if old[k] != new[k] {
            return true;
        }
    }
    false
}

// Whether two lists differ in some byte of their first `count`: word by word, then byte by byte where fewer than eight are left.
// Public for `reach` and `capi::marks`.
pub fn marks_differ(old: &[u8], new: &[u8], count: usize) -> bool
    requires { (count ≤ length old.now) × (count ≤ length new.now) }
    ensures { MarksCompared count old.now new.now result }
{
    let words = count / WORD;
    if words_differ(old, new, words) {
        return true;
    }
    rest_differs(old, new, WORD * words, count)
}
