// How many lamps a board has.
ghost use Rattle.std.specs.Prelude.{◌≡◌, ◌+◌, ◌/◌, ◌<◌, ◌≤◌, ◌⊎◌, Some, None};
ghost use Rattle.matrix.specs.Cells.{width_of};

// A board of 1 to 1,024 lamps.
#[derive(Clone, Copy, PartialEq, Eq, Debug)]
pub struct Board {
    pub lamps: u16,
    ghost some: { 0 < lamps },
    ghost small: { lamps ≤ 1024 },
}

impl Board {
    // A board of `lamps` lamps, if that is 1 to 1,024.
    pub fn new(lamps: u16) -> Option<Board>
        ensures { elim result [ Some b ↦ (b.lamps ≡ lamps) | None ↦ (lamps ≡ 0) ⊎ (1024 < lamps) ] }
    {
        if 0 < lamps && lamps <= 1024 {
            Some(Board { lamps })
        } else {
            None
        }
    }

    // How many words a row of one bit for each lamp has.
    pub fn width(self) -> usize
        ensures { result ≡ width_of self.lamps }
    {
        matrix::width(self.lamps)
    }
}
