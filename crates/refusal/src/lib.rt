// The refusal, as a value: why, and a place, 0 where none is named. The numbers 1 to 14 of the paper stand here and in
// specs/Numbers.antt, and nowhere else in this code and its definitions; the C header and the Rust binding name them too.
#![tactic(auto)]

pub mod sizes;

ghost use Rattle.std.specs.Prelude.{◌≡◌, Ok, Err};
ghost use Rattle.refusal.specs.Numbers.{number_of};
ghost use Rattle.refusal.specs.Tests.{refusal, test};

use std::fmt;

// Why a call is refused, by the paper's table: as a number it is the one that a C caller gets.
#[derive(Clone, Copy, Debug, PartialEq, Eq)]
pub enum Reason {
    Size = 1,
    Length = 2,
    Starts = 3,
    Links = 4,
    Order = 5,
    Room = 6,
    Far = 7,
    Frame = 8,
    Row = 9,
    Short = 10,
    Version = 11,
    Field = 12,
    Long = 13,
    Out = 14,
}

impl Reason {
    // The refusal with this reason and place.
    pub fn at(self, place: usize) -> Refusal
        ensures { result ≡ refusal self place }
    {
        RefusedFor {
            reason: self,
            place,
        }
    }
}

// A reason of any kind, a bare number too, and a place.
#[derive(Clone, Copy, Debug, PartialEq, Eq)]
pub struct RefusedFor<R> {
    pub reason: R,
    pub place: usize,
}

// What this library's calls refuse with.
pub type Refusal = RefusedFor<Reason>;

impl Refusal {
    // The paper's number.
    pub fn number(self) -> u32
        ensures { result ≡ number_of self.reason }
    {
        self.reason as u32
    }
}

impl fmt::Display for Refusal {
    fn fmt<W: fmt::Write>(&self, f: &mut fmt::Formatter<W>) -> fmt::Result {
        write!(f, "refused {} at {}", self.number(), self.place)
    }
}

// Refused with this reason, or number, and place.
pub fn refused<R: Drop>(reason: R, place: usize) -> Result<(), RefusedFor<R>>
    ensures { result ≡ Err (refusal reason place) }
{
    Err(RefusedFor { reason, place })
}

// Fine where the test holds, else refused with this reason and place.
pub fn test(holds: bool, reason: Reason, place: usize) -> Result<(), Refusal>
    ensures { result ≡ test holds reason place }
{
    if !holds {
        return refused(reason, place);
    }
    Ok(())
}
