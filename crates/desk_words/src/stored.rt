// A place and a desk as words: ten numbers of a place, then its cells; four numbers of a desk, its line, then its places. C and Rust lend the
// words, so that their order stands.
ghost use Rattle.std.specs.Prelude.{◌≡◌, ℕ, ◌+◌, ◌≤◌, ◌<◌, length, replicate};
ghost use Rattle.definitions.specs.Limits.{desk_places, stride};
ghost use Rattle.desk.specs.State.{desk_of, place_in, Finds, FirstFree, HoldsTicket};
ghost use Rattle.desk_words.specs.Words.{place_words_is, desk_words, place_words, place_from, PutAt, front_from, desk_from, seated_in, DeskPut, ClassTold, ClassPut};

use crate::runs::{put_run, run_at};
use desk::calls::no_place;
use desk::limits::PLACES;
use desk::state::{Front, Place};
use engine::one_trial::Pending;
use look::greatest::Look;
use records::limits::STRIDE;
use search::bracket::Bracket;
use search::steps::{Search, class_from, class_word};

// The numbers of a place before its cells, and its words; those of a desk before its line, its words before the places, and its words.
const PLACE_NUMBERS: usize = 10;

const PLACE_WORDS: usize = PLACE_NUMBERS + STRIDE;

const FRONT_NUMBERS: usize = 4;

const FRONT_WORDS: usize = FRONT_NUMBERS + PLACES;

pub const DESK_WORDS: usize = FRONT_WORDS + PLACES * PLACE_WORDS;

// The place in the words from one on.
fn load_place(words: &[u64], at: usize) -> Place
    requires { at + place_words_is ≤ length words.now }
    ensures { result ≡ place_from words.now at }
{
    Place {
        ticket: words[at],
        size: words[at + 1] as usize,
        pending: Pending {
            n: words[at + 2] as usize,
            m: words[at + 3] as usize,
            search: Search {
                made: words[at + 4],
                class: class_from(words[at + 5]),
                bracket: Bracket {
                    low: words[at + 6],
                    high: words[at + 7],
                },
            },
            kept: Look {
                start: words[at + 8],
                second: words[at + 9],
                picks: run_at(words, at + PLACE_NUMBERS),
            },
        },
    }
}

// Stores a place in the words from one on; the others stay.
fn store_place(words: &mut [u64], at: usize, place: Place)
    requires { at + place_words_is ≤ length words.old }
    ensures { PutAt words.old at (place_words place) words.new × (length place.pending.kept.picks ≡ stride) }
{
    let Pending { n, m, search, kept } = place.pending;
    let numbers = [
        place.ticket,
        place.size as u64,
        n as u64,
        m as u64,
        search.made,
        class_word(search.class),
        search.bracket.low,
        search.bracket.high,
        kept.start,
        kept.second,
    ];
    put_run(words, at, &numbers, &kept.picks);
}

// The front of the desk in the words.
pub fn load_front(words: &[u64]) -> Front
    requires { desk_words ≤ length words.now }
    ensures { result ≡ front_from words.now }
{
    Front {
        given: words[0],
        head: words[1] as usize,
        waiting: words[2] as usize,
        line: run_at(words, FRONT_NUMBERS),
    }
}

// What stands at a place; past the last nothing.
pub fn place_at(words: &[u64], at: usize) -> Place
    requires { desk_words ≤ length words.now }
    ensures { at < desk_places → place_in (desk_from words.now) at ≡ result }
{
    if at < PLACES {
        load_place(words, FRONT_WORDS + at * PLACE_WORDS)
    } else {
        no_place()
    }
}

// The first place with this ticket, which is 0 at the empty ones.
fn place_with(words: &[u64], ticket: u64) -> Option<usize>
    requires { desk_words ≤ length words.now }
    ensures { Finds (desk_from words.now) ticket result }
{
    for i in 0..PLACES {
        if words[FRONT_WORDS + i * PLACE_WORDS] == ticket {
            return Some(i);
        }
    }
    None
}

// The first empty place, if there is one.
pub fn first_free(words: &[u64]) -> Option<usize>
    requires { desk_words ≤ length words.now }
    ensures { FirstFree (desk_from words.now) result }
{
    place_with(words, 0)
}

// The place that holds a ticket, if one does.
pub fn place_of(words: &[u64], ticket: u64) -> Option<usize>
    requires { desk_words ≤ length words.now }
    ensures { HoldsTicket (desk_from words.now) ticket result }
{
    if ticket == 0 {
        return None;
    }
    place_with(words, ticket)
}

// Stores the front and one place, with what the call tells; the other places stay.
pub fn store(words: &mut [u64], front: Front, at: usize, place: Place, told: u64)
    requires { (desk_words ≤ length words.old) × (at < desk_places) }
    ensures { DeskPut (seated_in words.old front at place) told words.old words.new × ClassPut at words.old words.new }
{
    let numbers = [front.given, front.head as u64, front.waiting as u64, told];
    put_run(words, 0, &numbers, &front.line);
    store_place(words, FRONT_WORDS + at * PLACE_WORDS, place);
}

// Stores a desk on which every place is the same.
pub fn store_all(words: &mut [u64], front: Front, place: Place)
    requires { desk_words ≤ length words.old }
    ensures { DeskPut (desk_of front (replicate desk_places place)) 0 words.old words.new × ((k : ℕ) → k < desk_places → ClassTold words.new k) }
{
    for i in 0..PLACES {
        store(words, front, i, place, 0);
    }
}
