// Lent places are filled with noise beforehand, so that what was written shows.
use records::refusal::Refusal;
use std::io;

pub const BYTE: u8 = 165;

pub const NUMBER: u64 = 11574427654092267680;

pub const LEAD: u32 = 2779096485;

// The room of the buffers that are lent to the writer.
pub const BUFFER: usize = 500;

// Not every element is noise still.
pub fn touched<T: PartialEq>(list: &[T], noise: &T) -> bool {
    list.iter().any(|x| x != noise)
}

// The name of a lent list where it is noise no more.
pub fn show_touched<T: PartialEq>(
    rt: &impl Print,
    list: &[T],
    noise: &T,
    name: &str,
) -> io::Result<()> {
    if touched(list, noise) {
        print!(rt; ", {name} touched")?;
    }
    Ok(())
}

// The bytes of a buffer from a place on, in a word.
fn word_from(buffer: &[u8], at: usize) -> &'static str {
    if touched(buffer.get(at..).unwrap_or(&[]), &BYTE) {
        "touched"
    } else {
        "untouched"
    }
}

// How many bytes of a lent buffer were written.
pub fn show_written(rt: &impl Print, size: usize, buffer: &[u8]) -> io::Result<()> {
    let rest = word_from(buffer, size);
    print!(rt; "{size} bytes, the rest {rest}")
}

// A refusal, which writes nothing.
pub fn show_refused(rt: &impl Print, refusal: Refusal, buffer: &[u8]) -> io::Result<()> {
    let number = refusal.number();
    let whole = word_from(buffer, 0);
    print!(rt; "refused {number}, buffer {whole}")
}
