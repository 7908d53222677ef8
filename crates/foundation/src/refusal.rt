// Refusals: why something is refused, and how that is told.
ghost use Rattle.std.specs.Prelude.{◌≡◌};
ghost use Rattle.foundation.specs.Refusals.{number_of, refused_at};

// Why something is refused, each with the number that it is told by.
#[derive(Clone, Copy, PartialEq, Eq, Debug)]
pub enum Fault {
    TooLong = 1,
    PastEnd = 2,
    LeftOver = 3,
    TooDeep = 4,
    NoRoom = 5,
    TooFew = 6,
    Unreadable = 7,
    LongType = 8,
    NoAxes = 9,
    NoMatrix = 10,
    BadDurations = 11,
    NoItem = 12,
    Outside = 13,
}

// A refusal as it is told: its number, and its place. The number may be any: C hands refusals back to be printed.
#[derive(Clone, Copy, PartialEq, Eq, Debug)]
pub struct Refusal {
    pub number: u32,
    pub place: usize,
}

impl Fault {
    // The refusal at a place.
    pub fn at(self, place: usize) -> Refusal
        ensures { result ≡ refused_at (number_of self) place }
    {
        Refusal {
            number: self as u32,
            place,
        }
    }
}
