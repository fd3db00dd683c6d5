// A desk for sixteen problems (document 02, 2.11): the problems in lent memory, its state in lent words. The premise of the last three, that
// both are as the call before left them, is `AsLent`; nothing is asked where one of them is too short.
ghost use Rattle.lent_desk.specs.Entries.{AsLent, OpenedAs, TakenAs, SteppedAs, CollectedAs};

use lent_desk::entries::{collect_words, open_words, step_words, take_words};

// Opens a desk with nothing on it, whatever memory and words hold.
#[unsafe(no_mangle)]
pub extern "C" fn span_desk_open(memory: &[u8], words: &mut [u64]) -> u64
    ensures { OpenedAs memory.now words.old result words.new }
{
    open_words(memory, words)
}

// Takes a problem in at the end of the line.
#[unsafe(no_mangle)]
pub extern "C" fn span_desk_take(memory: &mut [u8], words: &mut [u64], problem: &[u8]) -> u64
    requires { AsLent memory.old words.old }
    ensures { TakenAs memory.old words.old problem.now result memory.new words.new }
{
    take_words(memory, words, problem)
}

// Makes one trial for the problem at the head of the line.
#[unsafe(no_mangle)]
pub extern "C" fn span_desk_step(memory: &[u8], words: &mut [u64]) -> u64
    requires { AsLent memory.now words.old }
    ensures { SteppedAs memory.now words.old result words.new }
{
    step_words(memory, words)
}

// Writes the answer of a ticket into the buffer, and frees its place.
#[unsafe(no_mangle)]
pub extern "C" fn span_desk_collect(
    memory: &[u8],
    words: &mut [u64],
    ticket: u64,
    buffer: &mut [u8],
) -> u64
    requires { AsLent memory.now words.old }
    ensures { CollectedAs memory.now words.old ticket buffer.old result words.new buffer.new }
{
    collect_words(memory, words, ticket, buffer)
}
