// What the desk knows besides the problems in the lent memory: tickets, the line and the places.
ghost use Rattle.std.specs.Prelude.{◌≡◌, ◌<◌};
ghost use Rattle.definitions.specs.Limits.{desk_places};
ghost use Rattle.desk.specs.State.{Fits, head_of, front_joined, front_gone};

use crate::limits::PLACES;
use engine::one_trial::Pending;

// A place: its ticket, 0 where it is empty, as in the words that C lends; the size of its problem in the lent memory; the problem under way.
#[derive(Clone, Copy)]
pub struct Place {
    pub ticket: u64,
    pub size: usize,
    pub pending: Pending,
}

// The last ticket given out, and the line: a ring of places, for the memory is fixed, of which `waiting` wait from `head` on.
#[derive(Clone, Copy)]
pub struct Front {
    pub given: u64,
    pub head: usize,
    pub waiting: usize,
    pub line: [usize; PLACES],
}

impl Front {
    // The place at the head of the line.
    pub fn first(&self) -> usize
        requires { Fits self.now }
        ensures { result ≡ head_of self.now }
    {
        self.line[self.head]
    }

    // A place joins the end of the line.
    pub fn joined(mut self, at: usize) -> Front
        requires { Fits self × (self.waiting < desk_places) }
        ensures { result ≡ front_joined self at }
    {
        self.line[(self.head + self.waiting) % PLACES] = at;
        self.waiting += 1;
        self
    }

    // The head of the line leaves it.
    pub fn left_line(self) -> Front
        requires { Fits self × (0 < self.waiting) }
        ensures { result ≡ front_gone self }
    {
        Front {
            head: (self.head + 1) % PLACES,
            waiting: self.waiting - 1,
            ..self
        }
    }
}
