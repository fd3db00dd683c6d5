// Refusals, by the numbers of documents 01 and 02.
ghost use Rattle.std.specs.Prelude.{◌≡◌};
ghost use Rattle.records.specs.Refusals.{number_of};

// Why something is refused.
#[derive(Clone, Copy, Debug, PartialEq, Eq)]
pub enum Refusal {
    // Of a problem: fewer bytes than a header, another length, another kind, n or m above their limits, another size, a lead outside
    // its range.
    Short = 1,
    Length = 2,
    Kind = 3,
    Limits = 4,
    Size = 5,
    Lead = 6,
    // Of an answer buffer: too few bytes.
    Room = 7,
    // Of an answer: fewer bytes than a header, another length, another kind or class or a start that is none of its class, another n or
    // size, a span or stamp outside its form, a pick above its highest; the form is right and the answer is not accepted.
    AnswerShort = 8,
    AnswerLength = 9,
    AnswerClass = 10,
    AnswerSize = 11,
    Form = 12,
    Pick = 13,
    NotCertified = 14,
    // Of a problem of several questions: none, or too many.
    Count = 15,
    // Of the rules behind an answer: the answer is bottomless.
    Bottomless = 16,
    // Of a problem with a rule that says nothing: its left list is all blank.
    Silent = 17,
    // Of a text or a value that has none.
    NoText = 18,
    // Of a week list or a minute to be looked up.
    Week = 19,
    // Of a problem of kind 5: a state other than 0 or 1.
    State = 20,
    // Of a desk: all places hold a problem, or the tickets are used up; no such ticket is held; the memory is too short.
    Full = 21,
    Ticket = 22,
    Memory = 23,
    // Of two plans to be merged: the shift is above 0, a plan breaks a rule, a merged stamp would be below its limit.
    Shift = 24,
    Rule = 25,
    Early = 26,
    // Of a census: more problems than it counts.
    Census = 27,
}

impl Refusal {
    // Its number.
    pub fn number(self) -> usize
        ensures { result ≡ number_of self }
    {
        self as usize
    }
}
