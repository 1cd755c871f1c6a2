// Why a line is refused, and how that is printed.
ghost use Rattle.std.specs.Prelude.{◌≡◌, Some};
ghost use Rattle.lines.specs.Refusals.{number_of, place_of};
ghost use Rattle.lines.specs.Texts.{refused_at};
ghost use Rattle.lines.specs.declared.refusal.Refusal.TheVariants.{Call};

use std::fmt;

// The line can't be read on at a place, or what it asks for is turned away.
#[derive(Clone, Copy, PartialEq, Eq, Debug)]
pub enum Refusal {
    Unreadable(usize),
    Call(calls::Refusal),
}

impl Refusal {
    // The number by which it is printed.
    pub fn number(self) -> u8
        ensures { result ≡ number_of self }
    {
        match self {
            Refusal::Unreadable(_) => 1,
            Refusal::Call(refusal) => refusal.number(),
        }
    }

    // The place that it names: 0, but where the line can't be read on.
    pub fn place(self) -> usize
        ensures { result ≡ place_of self }
    {
        match self {
            Refusal::Unreadable(place) => place,
            Refusal::Call(refusal) => usize::from(refusal.place()),
        }
    }
}

impl fmt::Display for Refusal {
    ghost output = { λ r. Some (refused_at (number_of r) (place_of r)) };

    fn fmt<W: fmt::Write>(&self, f: &mut fmt::Formatter<W>) -> fmt::Result {
        let number = self.number();
        let place = self.place();
        write!(f, "refused {number} at {place}")
    }
}

impl From<calls::Refusal> for Refusal {
    ghost from_gives = { λ why r. r ≡ Call why };

    fn from(why: calls::Refusal) -> Refusal {
        Refusal::Call(why)
    }
}
