// What each program does that reads records: it reads standard input to its end, answers, and writes what it answers.
#![tactic(auto)]

ghost use Rattle.std.specs.Prelude.{◌≡◌, ◌≤◌, length};

use input::read_all;
use records::limits::KEPT;
use std::io::Read;

// Reads an input, and puts out the bytes that `answer` puts at the front of the buffer for the kept bytes and the size.
// A read or a write that fails is told on standard error, by the program's name; after the first nothing is put out.
pub fn run<R: Read, F: FnOnce(&[u8; KEPT], u64, &mut [u8]) -> usize>(
    rt: &(impl Print + Eprint),
    name: &str,
    input: &mut R,
    out: &mut [u8],
    answer: F,
)
    requires callable { (kept : _) (size : _) (room : _) → length room.now ≡ length out.old → F.pre answer kept size room }
    requires fits { (kept : _) (size : _) (room : _) (n : _) (left : _) → F.post answer kept size room n left → length room.now ≡ length out.old → n ≤ length out.old }
{
    let mut kept = [0u8; KEPT];
    let Ok(size) = read_all(input, &mut kept) else {
        let _ = eprintln!(rt; "{name}: standard input cannot be read to its end");
        return;
    };
    let n = answer(&kept, size, out);
    if rt.write_all(&out[..n]).is_err() {
        let _ = eprintln!(rt; "{name}: standard output cannot be written");
    }
}
