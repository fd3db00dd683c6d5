// The desk's four calls: opening, taking in, a step, collecting. The office lends the memory; a call gets the front of the desk and the one
// place that it looks at, and a refusal changes nothing.
ghost use Rattle.std.specs.Prelude.{◌≡◌, ◌*◌};
ghost use Rattle.definitions.specs.Limits.{problem_most};
ghost use Rattle.definitions.specs.Bytes.{put};
ghost use Rattle.desk.specs.State.{bytes_at, blank_place, Room, Tryable, Tried};
ghost use Rattle.desk.specs.Calls.{OpenedBy, entry, CanTake, TookAt, CanStep, StepAt, CanCollect, CollectedAt};

use crate::limits::{LAST_TICKET, MEMORY, PLACES, PROBLEM_MOST};
use crate::state::{Front, Place};
use engine::one_trial::{Pending, begin, hand_over, not_tried, one_trial};
use engine::solve::Answered;
use records::limits::ANSWER_MOST;
use records::refusal::Refusal;

// A problem that was taken in: its ticket, the front after it, and its place.
#[derive(Clone, Copy)]
pub struct Taking {
    pub ticket: u64,
    pub front: Front,
    pub place: Place,
}

// A trial that was made: the ticket that had it, whether it is answered now or goes on waiting, the front after it, and its place.
#[derive(Clone, Copy)]
pub struct Stepping {
    pub ticket: u64,
    pub done: bool,
    pub front: Front,
    pub place: Place,
}

// A place with nothing on it.
pub fn no_place() -> Place
    ensures { result ≡ blank_place }
{
    Place {
        ticket: 0,
        size: 0,
        pending: not_tried(0, 0),
    }
}

// The front of a desk with nothing on it, whatever the memory holds; each of its places is `no_place`.
pub fn open_desk(memory: &[u8]) -> Result<Front, Refusal>
    ensures { OpenedBy memory.now result }
{
    if memory.len() < MEMORY {
        return Err(Refusal::Memory);
    }
    Ok(Front {
        given: 0,
        head: 0,
        waiting: 0,
        line: [0; PLACES],
    })
}

// A problem that was begun gets the next ticket, a place, and the end of the line.
fn enter(memory: &mut [u8], front: Front, at: usize, problem: &[u8], pending: Pending) -> Taking
    requires { Room front at problem.now memory.old }
    ensures { (result ≡ entry front at problem.now pending) × (memory.new ≡ put memory.old (at * problem_most) problem.now) }
{
    let from = at * PROBLEM_MOST;
    memory[from..from + problem.len()].copy_from_slice(problem);
    let ticket = front.given + 1;
    Taking {
        ticket,
        front: Front {
            given: ticket,
            ..front.joined(at)
        },
        place: Place {
            ticket,
            size: problem.len(),
            pending,
        },
    }
}

// A problem that nothing refuses goes to the first empty place and to the end of the line, with the next ticket.
pub fn take_in(
    memory: &mut [u8],
    front: Front,
    free: Option<usize>,
    problem: &[u8],
) -> Result<Taking, Refusal>
    requires { CanTake front free memory.old }
    ensures { TookAt front free memory.old problem.now result memory.new }
{
    if memory.len() < MEMORY {
        return Err(Refusal::Memory);
    }
    let pending = begin(problem)?;
    let Some(at) = free else {
        return Err(Refusal::Full);
    };
    if front.given == LAST_TICKET {
        return Err(Refusal::Full);
    }
    Ok(enter(memory, front, at, problem, pending))
}

// The place after the next trial of its problem.
fn tried(memory: &[u8], at: usize, place: Place) -> Place
    requires { Tryable memory.now at place }
    ensures { Tried (bytes_at memory.now at place.size) place result }
{
    let from = at * PROBLEM_MOST;
    let pending = one_trial(&memory[from..from + place.size], place.pending);
    Place { pending, ..place }
}

// One trial of the problem at the head of the line, whose place is given; none where nobody waits.
pub fn step(memory: &[u8], front: Front, place: Place) -> Result<Option<Stepping>, Refusal>
    requires { CanStep front place memory.now }
    ensures { StepAt front place memory.now result }
{
    if memory.len() < MEMORY {
        return Err(Refusal::Memory);
    }
    if front.waiting == 0 {
        return Ok(None);
    }
    let at = front.first();
    let next = tried(memory, at, place);
    let rest = front.left_line();
    let done = next.pending.search.class.is_some();
    Ok(Some(Stepping {
        ticket: next.ticket,
        done,
        front: if done { rest } else { rest.joined(at) },
        place: next,
    }))
}

// The answer at the place that holds a ticket, if one does, written at the buffer's start; none while the ticket still waits.
pub fn collect(
    memory: &[u8],
    held: Option<Place>,
    buffer: &mut [u8],
) -> Result<Option<Answered>, Refusal>
    requires { CanCollect held memory.now }
    ensures { CollectedAt held memory.now buffer.old result buffer.new }
{
    if memory.len() < MEMORY {
        return Err(Refusal::Memory);
    }
    let Some(place) = held else {
        return Err(Refusal::Ticket);
    };
    let pending = place.pending;
    if pending.search.class.is_none() {
        return Ok(None);
    }
    if buffer.len() < ANSWER_MOST {
        return Err(Refusal::Room);
    }
    Ok(Some(hand_over(pending, buffer)))
}
