// The desk's four calls over lent memory and lent words, with results as one number for C: the low byte is the refusal.
ghost use Rattle.std.specs.Prelude.{◌≡◌, ◌≤◌, length};
ghost use Rattle.desk.specs.Calls.{stands_at};
ghost use Rattle.desk_words.specs.Words.{desk_words, desk_from};
ghost use Rattle.lent_desk.specs.Entries.{AsLent, LentFor, Inside, OpenedAs, TakenAs, SteppedAs, CollectedAs};

use desk::calls::{collect, no_place, open_desk, step, take_in};
use desk::limits::MEMORY;
use desk::state::Place;
use desk_words::stored::{
    DESK_WORDS, first_free, load_front, place_at, place_of, store, store_all,
};
use records::limits::BYTE;
use records::refusal::Refusal;

// Fewer words are lent than a desk has.
const FEW_WORDS: u64 = 255;

// A step's numbers: the ticket that is told goes on waiting, or is answered now.
const GOES_ON: u64 = 256;

const DONE: u64 = 512;

// Own trials count so many times in the number of a collected answer.
const OWN: u64 = 65536;

// The number of a call whose memory is too short, or whose words are too few; none where a desk fits.
fn too_short(memory: &[u8], words: &[u64]) -> Option<u64>
    ensures { LentFor memory.now words.now result }
{
    if memory.len() < MEMORY {
        Some(Refusal::Memory.number() as u64)
    } else if words.len() < DESK_WORDS {
        Some(FEW_WORDS)
    } else {
        None
    }
}

// Opens a desk with nothing on it, whatever memory and words hold.
pub fn open_words(memory: &[u8], words: &mut [u64]) -> u64
    ensures { OpenedAs memory.now words.old result words.new }
{
    if let Some(number) = too_short(memory, words) {
        return number;
    }
    store_all(words, open_desk(memory).unwrap(), no_place());
    0
}

// Takes a problem in.
pub fn take_words(memory: &mut [u8], words: &mut [u64], problem: &[u8]) -> u64
    requires { AsLent memory.old words.old }
    ensures { TakenAs memory.old words.old problem.now result memory.new words.new }
{
    if let Some(number) = too_short(memory, words) {
        return number;
    }
    let front = load_front(words);
    let free = first_free(words);
    match take_in(memory, front, free, problem) {
        Err(refusal) => refusal.number() as u64,
        Ok(taking) => {
            store(
                words,
                taking.front,
                free.unwrap(),
                taking.place,
                taking.ticket,
            );
            0
        }
    }
}

// Makes one trial for the problem at the head of the line.
pub fn step_words(memory: &[u8], words: &mut [u64]) -> u64
    requires { AsLent memory.now words.old }
    ensures { SteppedAs memory.now words.old result words.new }
{
    if let Some(number) = too_short(memory, words) {
        return number;
    }
    let front = load_front(words);
    let at = front.first();
    let place = place_at(words, at);
    match step(memory, front, place) {
        Err(refusal) => refusal.number() as u64,
        Ok(None) => 0,
        Ok(Some(stepping)) => {
            store(words, stepping.front, at, stepping.place, stepping.ticket);
            if stepping.done { DONE } else { GOES_ON }
        }
    }
}

// What stands at a place of the desk, if one is told.
fn held_at(words: &[u64], at: Option<usize>) -> Option<Place>
    requires { (desk_words ≤ length words.now) × Inside at }
    ensures { result ≡ stands_at (desk_from words.now) at }
{
    at.map(|at| place_at(words, at))
}

// Writes the answer of a ticket into the buffer, and frees its place.
pub fn collect_words(memory: &[u8], words: &mut [u64], ticket: u64, buffer: &mut [u8]) -> u64
    requires { AsLent memory.now words.old }
    ensures { CollectedAs memory.now words.old ticket buffer.old result words.new buffer.new }
{
    if let Some(number) = too_short(memory, words) {
        return number;
    }
    let front = load_front(words);
    let at = place_of(words, ticket);
    let held = held_at(words, at);
    match collect(memory, held, buffer) {
        Err(refusal) => refusal.number() as u64,
        Ok(None) => 0,
        Ok(Some(answered)) => {
            store(words, front, at.unwrap(), no_place(), ticket);
            BYTE * answered.class.number() + OWN * answered.trials
        }
    }
}
