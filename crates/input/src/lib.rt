// Standard input for the programs: the first 20,000 bytes are kept, all of them are counted.
#![tactic(auto)]

ghost use Rattle.std.specs.Prelude.{◌≡◌, ◌-◌, take};
ghost use Rattle.definitions.specs.Limits.{kept_bytes};
ghost use Rattle.definitions.specs.Bytes.{put};
ghost use Rattle.input.specs.Came.{OnceRead, AllRead};
ghost use Rattle.input.specs.Taken.{OnceTaken, AllTaken};

use records::limits::{KEPT, READ_MOST};
use std::io::{self, Read};

// The most bytes that one read gives.
const READ_SIZE: usize = 4096;

// Copies `bytes` into `kept` from place `size` on, as far as they fit.
fn keep(kept: &mut [u8; KEPT], size: u64, bytes: &[u8])
    ensures { kept.new ≡ put kept.old size (take (kept_bytes - size) bytes.now) }
{
    let at = size.min(KEPT as u64) as usize;
    let n = bytes.len().min(KEPT - at);
    kept[at..at + n].copy_from_slice(&bytes[..n]);
}

// Reads once and keeps what fits: how many bytes came, 0 at the end of the input.
fn read_some<R: Read>(input: &mut R, kept: &mut [u8; KEPT], size: u64) -> io::Result<u64>
    ensures answered { OnceRead kept.old size result kept.new }
    ensures taken { OnceTaken (R.remaining input.old) (R.remaining input.new) kept.old size result kept.new }
{
    let mut buf = [0u8; READ_SIZE];
    match input.read(&mut buf) {
        Err(e) => Err(e),
        Ok(n) => {
            keep(kept, size, &buf[..n]);
            Ok(n as u64)
        }
    }
}

// Reads an input to its end, or until so much was counted that no outcome changes; keeps its first 20,000 bytes, and
// gives its size. A failed read is no end: what came before it is not answered. Public for the programs that read records.
pub fn read_all<R: Read>(input: &mut R, kept: &mut [u8; KEPT]) -> io::Result<u64>
    ensures answered { AllRead kept.old result kept.new }
    ensures taken { AllTaken (R.remaining input.old) result kept.new }
{
    let mut size = 0;
    while size < READ_MOST {
        let n = read_some(input, kept, size)?;
        if n == 0 {
            return Ok(size);
        }
        size += n;
    }
    Ok(size)
}

#[cfg(test)]
mod tests {
    use super::*;

    // Gives this byte three times at each read, so many reads long; then it ends or fails.
    #[derive(Drop)]
    struct Pieces {
        byte: u8,
        reads: usize,
        fails: bool,
    }

    impl Read for Pieces {
        fn read(&mut self, buf: &mut [u8]) -> io::Result<usize> {
            if self.reads == 0 && self.fails {
                return Err(io::Error::from(io::ErrorKind::Other));
            }
            if self.reads == 0 || buf.len() < 3 {
                return Ok(0);
            }
            self.reads -= 1;
            buf[..3].fill(self.byte);
            Ok(3)
        }
    }

    #[test]
    fn a_failed_read_is_no_end(rt: HostRuntime) {
        for reads in [0, 1, 5000, 10000] {
            let mut kept = [0u8; KEPT];
            let mut input = Pieces {
                byte: 7,
                reads,
                fails: true,
            };
            let read = read_all(&mut input, &mut kept);
            assert!(rt; read.is_err(), "after {reads} reads");
        }
    }

    #[test]
    fn a_short_read_is_no_end(rt: HostRuntime) {
        for (reads, size, last) in [(0, 0, 0), (5000, 15000, 0), (10000, 30000, 7)] {
            let mut kept = [0u8; KEPT];
            let mut input = Pieces {
                byte: 7,
                reads,
                fails: false,
            };
            let read = read_all(&mut input, &mut kept);
            assert!(rt; matches!(read, Ok(n) if n == size), "{size} bytes");
            assert_eq!(rt; kept[KEPT - 1], last, "the last of {size} bytes");
        }
    }

    #[test]
    fn known_bytes_are_kept(rt: HostRuntime) {
        let mut kept = [0u8; KEPT];
        let mut text: &[u8] = b"in their places";
        let read = read_all(&mut text, &mut kept);
        assert!(rt; matches!(read, Ok(15)));
        assert!(rt; kept.starts_with(b"in their places"));
        assert_eq!(rt; kept[15], 0);
    }
}
