// Claims about a board are checked by doing what they say, without any solver. A board and its rows are two parameters, as in wires.
#![tactic(auto)]

ghost use Rattle.std.specs.Prelude.{◌≡◌, ◌*◌, List, length};
ghost use Rattle.lamps.specs.Lamps.{Lamps, Wire};
ghost use Rattle.matrix.specs.Cells.{width_of};
ghost use Rattle.wires.specs.Holds.{HoldsWires};
ghost use Rattle.lit.specs.Holds.{HoldsLit, lamps_of};
ghost use Rattle.claims.specs.Checked.{PressesChecked, NeverChecked};

use wires::Board;

// What a claim is found to be.
#[derive(Clone, Copy, PartialEq, Eq, Debug)]
pub enum Verdict {
    // it is right
    Right,
    // the first lamp that presses leave lit, or the first button that changes an odd number of a set
    Lamp(u16),
    // the set is quiet, but an even number of it is lit
    Even,
}

// Checks the claim that the buttons whose bits are set in `presses` put out what is lit.
pub fn check_presses(board: Board, wires: &[u64], lit: &[u64], presses: &[u64]) -> Verdict
    requires wires { length wires.now ≡ board.lamps * width_of board.lamps }
    requires lit { length lit.now ≡ width_of board.lamps }
    requires presses { length presses.now ≡ width_of board.lamps }
    ensures { (ws : List Wire) (s : Lamps) → HoldsWires board.lamps wires.now ws → HoldsLit board.lamps lit.now s → PressesChecked ws s (lamps_of board.lamps presses.now) result }
{
    let width = board.width();
    // as many words as the widest row has: nothing here asks for memory
    let mut space = [0; 16];
    let after = &mut space[0..width];
    after.copy_from_slice(lit);
    lit::press_all(board, after, wires, presses);
    match bits::first_set(after, board.lamps) {
        Some(k) => Verdict::Lamp(k),
        None => Verdict::Right,
    }
}

// Checks the claim that the lamps whose bits are set in `set` show that nothing puts out what is lit. What a button changes is its own row of the wires.
pub fn check_never(board: Board, wires: &[u64], lit: &[u64], set: &[u64]) -> Verdict
    requires wires { length wires.now ≡ board.lamps * width_of board.lamps }
    requires lit { length lit.now ≡ width_of board.lamps }
    requires set { length set.now ≡ width_of board.lamps }
    ensures { (ws : List Wire) (s : Lamps) → HoldsWires board.lamps wires.now ws → HoldsLit board.lamps lit.now s → NeverChecked ws s (lamps_of board.lamps set.now) result }
{
    let width = board.width();
    for k in 0..board.lamps {
        if matrix::dot_row(wires, width, k as usize, set) {
            return Verdict::Lamp(k);
        }
    }
    if bits::parity_and(set, lit) {
        Verdict::Right
    } else {
        Verdict::Even
    }
}
