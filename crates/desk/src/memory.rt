// The lent memory of a board that is open, and what each call does to it.
ghost use Rattle.std.specs.Prelude.{◌≡◌, ℕ, ◌*◌, ◌<◌, ◌≤◌, true, false, List, [], length, OnErr};
ghost use Rattle.bits.specs.Bits.{bit_of};
ghost use Rattle.matrix.specs.Cells.{width_of};
ghost use Rattle.calls.specs.Saying.{lamps_of, meant, said};

use crate::{lamp, mark, numbered, other};
use calls::{Answer, Call, Refusal};
use wires::Board;

// The wires of a board, steps of them but for the marked rows, and what is lit.
#[derive(Drop)]
pub struct Memory<'a> {
    pub board: Board,
    pub wires: &'a mut [u64],
    pub rows: &'a mut [u64],
    pub done: &'a mut [u64],
    pub pivots: &'a mut [u16],
    pub lit: &'a mut [u64],
    pub marks: &'a mut [u64],
    pub ghost wires_long: { length wires.now ≡ board.lamps * width_of board.lamps },
    pub ghost rows_long: { length rows.now ≡ board.lamps * width_of board.lamps },
    pub ghost done_long: { length done.now ≡ board.lamps * width_of board.lamps },
    pub ghost pivots_long: { length pivots.now ≡ board.lamps },
    pub ghost lit_long: { length lit.now ≡ width_of board.lamps },
    pub ghost marks_long: { length marks.now ≡ width_of board.lamps },
}

impl<'a> Memory<'a> {
    ghost use Rattle.lamps.specs.Calls.{Board as Wall, number};
    ghost use Rattle.lamps.specs.Promise.{new_board};
    ghost use Rattle.desk.specs.Holding.{refuses, answer_of, Holds, Performs};
    ghost use Rattle.desk.specs.Places.{held, InPlace};

    // Makes it a board without wires, with every lamp off.
    pub fn clear(&mut self)
        ensures holds { Holds (held self.new) (new_board self.old.board.lamps) }
        ensures place { InPlace self.old self.new }
    {
        let board = self.board;
        wires::no_wires(board, self.wires);
        lit::lights_out(board, self.lit);
        update::start(self.rows, self.done, self.pivots, self.marks, board.lamps);
    }

    // In these three each check hands on its value or returns the refusal by `let .. else`, and not by `?`: a rule of this project, among the forms in docs/DECISIONS.md.

    // The wire between two lamps comes, or goes if it is there, and its two rows are marked. Answers the first lamp.
    fn wire(&mut self, i: u16, j: u16) -> Result<u16, Refusal>
        ensures performs { (b : Wall) → Holds (held self.old) b → Performs (held self.old) (held self.new) b (meant (Call.Wire i j)) (said (answer_of result) []) }
        ensures kept { OnErr result (held self.new ≡ held self.old) }
        ensures place { InPlace self.old self.new }
    {
        let board = self.board;
        let Ok(one) = lamp(board, i) else {
            return Err(Refusal::NoLamp);
        };
        let Ok(two) = lamp(board, j) else {
            return Err(Refusal::NoLamp);
        };
        let Ok(far) = other(one, two) else {
            return Err(Refusal::Itself);
        };
        wires::toggle(board, self.wires, one, far);
        mark(self.marks, one);
        mark(self.marks, far);
        Ok(one)
    }

    // Turns a lamp on or off, and answers it.
    fn turn(&mut self, i: u16) -> Result<u16, Refusal>
        ensures performs { (b : Wall) → Holds (held self.old) b → Performs (held self.old) (held self.new) b (meant (Call.Turn i)) (said (answer_of result) []) }
        ensures kept { OnErr result (held self.new ≡ held self.old) }
        ensures place { InPlace self.old self.new }
    {
        let board = self.board;
        let Ok(one) = lamp(board, i) else {
            return Err(Refusal::NoLamp);
        };
        lit::turn(board, self.lit, one);
        Ok(one)
    }

    // Presses a button, and answers it.
    fn press(&mut self, i: u16) -> Result<u16, Refusal>
        ensures performs { (b : Wall) → Holds (held self.old) b → Performs (held self.old) (held self.new) b (meant (Call.Press i)) (said (answer_of result) []) }
        ensures kept { OnErr result (held self.new ≡ held self.old) }
        ensures place { InPlace self.old self.new }
    {
        let board = self.board;
        let Ok(one) = lamp(board, i) else {
            return Err(Refusal::NoLamp);
        };
        let wires = &mut *self.wires;
        lit::press(board, self.lit, wires, one);
        Ok(one)
    }

    // Writes what is lit into `row`.
    fn show(&mut self, row: &mut [u64]) -> Answer
        requires { length row.old ≡ width_of self.old.board.lamps }
        ensures performs { (b : Wall) → Holds (held self.old) b → Performs (held self.old) (held self.new) b (meant Call.Lit) (said result row.new) }
        ensures taken { (refuses result ≡ false) × (lamps_of result ≡ self.old.board.lamps) }
        ensures place { InPlace self.old self.new }
    {
        let lit = &mut *self.lit;
        row.copy_from_slice(lit);
        Answer::Lit(self.board.lamps)
    }

    // Makes the steps those of the wires, and clears the marks.
    fn renew(&mut self)
        ensures holds { (b : Wall) → Holds (held self.old) b → Holds (held self.new) b }
        ensures cleared { (j : ℕ) → bit_of self.new.marks.now j ≡ false }
        ensures place { InPlace self.old self.new }
    {
        let wires = &mut *self.wires;
        let n = self.board.lamps;
        update::renew(wires, self.rows, self.done, self.pivots, self.marks, n);
    }

    // Presses that put all out: the fewest, if there are at most 65,536 ways, or else some; or the lamps that show that there are none. They are written into `row`.
    fn out(&mut self, row: &mut [u64]) -> Answer
        requires { length row.old ≡ width_of self.old.board.lamps }
        ensures performs { (b : Wall) → Holds (held self.old) b → Performs (held self.old) (held self.new) b (meant Call.Out) (said result row.new) }
        ensures taken { (refuses result ≡ false) × (lamps_of result ≡ self.old.board.lamps) }
        ensures place { InPlace self.old self.new }
    {
        self.renew();
        let n = self.board.lamps;
        let lit = &mut *self.lit;
        let rows = &mut *self.rows;
        let done = &mut *self.done;
        let pivots = &mut *self.pivots;
        if solve::solve(done, pivots, n, lit, row) {
            let free = fewest::fewest_way(rows, pivots, n, row);
            if free <= 16 {
                Answer::Fewest(n)
            } else {
                Answer::SomeWay(n)
            }
        } else {
            let _ = fewest::fewest_never(done, pivots, n, lit, row);
            Answer::Never(n)
        }
    }

    // k + 1 if there are 2^k ways, or 0 if there is none: a number and no Option, as it goes into the bytes of the answer.
    fn ways(&mut self) -> u16
        ensures performs { (b : Wall) → Holds (held self.old) b → Performs (held self.old) (held self.new) b (meant Call.Ways) (number result) }
        ensures place { InPlace self.old self.new }
    {
        self.renew();
        // as many words as the widest row has: nothing here asks for memory
        let mut space = [0; 16];
        let width = self.board.width();
        let n = self.board.lamps;
        let lit = &mut *self.lit;
        let done = &mut *self.done;
        let pivots = &mut *self.pivots;
        if solve::solve(done, pivots, n, lit, &mut space[0..width]) {
            solve::zero_rows(pivots, n) + 1
        } else {
            0
        }
    }

    // Performs a call. Lamps that are answered are written into `row`, which is lent for that answer alone, and so is no field.
    pub fn perform(&mut self, call: Call, row: &mut [u64]) -> Answer
        requires { length row.old ≡ width_of self.old.board.lamps }
        ensures performs { (b : Wall) → Holds (held self.old) b → Performs (held self.old) (held self.new) b (meant call) (said result row.new) }
        ensures kept { refuses result ≡ true → held self.new ≡ held self.old }
        ensures lamps { lamps_of result ≤ self.old.board.lamps }
        ensures place { InPlace self.old self.new }
    {
        match call {
            Call::Wire(i, j) => numbered(self.wire(i, j)),
            Call::Turn(i) => numbered(self.turn(i)),
            Call::Press(i) => numbered(self.press(i)),
            Call::Lit => self.show(row),
            Call::Out => self.out(row),
            Call::Ways => Answer::Number(self.ways()),
        }
    }
}
