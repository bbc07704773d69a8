// What is given back: the refusal, the answer of reading and writing, and the one row of numbers by which it is told.
#![tactic(auto)]

pub mod number;
pub mod reasons;

ghost use Rattle.std.specs.Prelude.{◌≡◌};
ghost use Rattle.answers.specs.Refusals.{refusal, carrying, short_by};
ghost use Rattle.answers.specs.Answers.{refused_by, no_room, answered};
ghost use Rattle.answers.specs.declared.Failure.TheVariants.{Refused};

use number::{DONE, NO_ROOM};
pub use reasons::Reason;

// Why something was refused: the reason, the place, with 41 to 44 the row of the type table whose range a code is
// outside of, and with 3 how many bits of the field are not there; with any other reason these two are 0.
#[derive(Clone, Copy, Debug, PartialEq, Eq, Hash)]
pub struct Refusal {
    pub reason: Reason,
    pub place: usize,
    pub row: usize,
    pub lacking: usize,
}

impl Refusal {
    // The refusal for this reason and with this place, which names no row and says of no bit that it lacks.
    pub fn new(reason: Reason, place: usize) -> Self
        ensures { result ≡ refusal reason place }
    {
        Refusal::carrying(reason, 0, 0, place)
    }

    // The refusal for this reason and with this place, which names this row of the type table, where 0 is none, and says that so many bits of a
    // field are not there.
    pub fn carrying(reason: Reason, row: usize, lacking: usize, place: usize) -> Self
        ensures { result ≡ carrying reason row lacking place }
    {
        Refusal {
            reason,
            place,
            row,
            lacking,
        }
    }

    // Number 3 at `place`: of the field's bits `lacking` are not there.
    pub fn short(lacking: usize, place: usize) -> Self
        ensures { result ≡ short_by lacking place }
    {
        Refusal::carrying(Reason::Short, 0, lacking, place)
    }
}

// Why nothing was handed over: it was refused, or the lent memory has no room, with how many cells or bytes are needed.
#[derive(Clone, Copy, Debug, PartialEq, Eq, Hash)]
pub enum Failure {
    Refused(Refusal),
    NoRoom(usize),
}

impl From<Refusal> for Failure {
    ghost from_gives = { λ why failure. failure ≡ Refused why };

    fn from(why: Refusal) -> Failure {
        Failure::Refused(why)
    }
}

// What was handed over: the bits of the message, and how many cells (reading) or bytes (writing) it takes.
#[derive(Clone, Copy, Debug, PartialEq, Eq, Hash)]
pub struct Done {
    pub bits: usize,
    pub count: usize,
}

// What reading a message answers: what was handed over or why nothing was, and in either case the edition by which the message was read and
// the type number that was asked for. Both stand beside the sheet, not in its cells, and are kept with it.
#[derive(Clone, Copy, Debug, PartialEq, Eq, Hash)]
pub struct Reading {
    pub edition: u64,
    pub type_number: u64,
    pub answer: Result<Done, Failure>,
}

// An answer as it is told to a caller in C and printed, in one row of document 01's table: number and place, the bits of the message, and
// the cells (reading) or bytes (writing), with number 8 those that are needed. Inside the library an answer is a Result.
#[derive(Clone, Copy)]
pub struct Answer {
    pub number: u64,
    pub place: usize,
    pub row: usize,
    pub lacking: usize,
    pub bits: usize,
    pub count: usize,
}

impl From<Result<Done, Failure>> for Answer {
    ghost from_gives = { λ told answer. answer ≡ answered told };

    fn from(told: Result<Done, Failure>) -> Answer {
        match told {
            Ok(Done { bits, count }) => Answer::done(bits, count),
            Err(Failure::Refused(why)) => Answer::refused(why),
            Err(Failure::NoRoom(needed)) => Answer::no_room(needed),
        }
    }
}

impl Answer {
    // Number 0, with the bits of the message and its cells or bytes.
    pub fn done(bits: usize, count: usize) -> Self
        ensures { result ≡ Rattle.answers.specs.Answers.done bits count }
    {
        Answer {
            number: DONE,
            place: 0,
            row: 0,
            lacking: 0,
            bits,
            count,
        }
    }

    // A refusal, with every count 0.
    pub fn refused(why: Refusal) -> Self
        ensures { result ≡ refused_by why }
    {
        Answer {
            number: why.reason.number(),
            place: why.place,
            row: why.row,
            lacking: why.lacking,
            bits: 0,
            count: 0,
        }
    }

    // Number 8, with the cells or bytes that are needed.
    pub fn no_room(needed: usize) -> Self
        ensures { result ≡ no_room needed }
    {
        Answer {
            number: NO_ROOM,
            place: 0,
            row: 0,
            lacking: 0,
            bits: 0,
            count: needed,
        }
    }
}
