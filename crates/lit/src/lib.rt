// What is lit, as a row of bits in lent memory: a lamp is turned, buttons are pressed. A board and its rows are two parameters, as in wires.
#![tactic(auto)]

ghost use Rattle.std.specs.Prelude.{◌≡◌, ℕ, ◌*◌, ◌<◌, true, false, not, List, length, ◌==◌, slice_set};
ghost use Rattle.gf2.specs.Rows.{differ};
ghost use Rattle.lamps.specs.Lamps.{Lamps, at, none_lit, all_off, Wire, pressed};
ghost use Rattle.bits.specs.Bits.{bit_of};
ghost use Rattle.matrix.specs.Cells.{width_of, cell};
ghost use Rattle.wires.specs.Holds.{HoldsWires};
ghost use Rattle.lit.specs.Holds.{HoldsLit, lamps_of, Pressing};

use wires::Board;

// Turns every lamp off.
pub fn lights_out(board: Board, lit: &mut [u64])
    requires { length lit.old ≡ width_of board.lamps }
    ensures bits { (k : ℕ) → bit_of lit.new k ≡ false }
    ensures holds { HoldsLit board.lamps lit.new (none_lit board.lamps) }
{
    bits::zero(lit);
}

// Turns lamp `i` on or off, and no other.
pub fn turn(board: Board, lit: &mut [u64], i: u16)
    requires lit { length lit.old ≡ width_of board.lamps }
    requires lamp { i < board.lamps }
    ensures bits { (k : ℕ) → bit_of lit.new k ≡ differ (bit_of lit.old k) (k == i) }
    ensures holds { (s : Lamps) → HoldsLit board.lamps lit.old s → HoldsLit board.lamps lit.new (slice_set s i (not (at s i))) }
{
    bits::flip(lit, i);
}

// Presses button `i`: its row of the wires is added to what is lit.
pub fn press(board: Board, lit: &mut [u64], wires: &[u64], i: u16)
    requires lit { length lit.old ≡ width_of board.lamps }
    requires wires { length wires.now ≡ board.lamps * width_of board.lamps }
    requires lamp { i < board.lamps }
    ensures bits { (k : ℕ) → bit_of lit.new k ≡ differ (bit_of lit.old k) (cell wires.now (width_of board.lamps) i k) }
    ensures holds { (ws : List Wire) (s : Lamps) → HoldsWires board.lamps wires.now ws → HoldsLit board.lamps lit.old s → HoldsLit board.lamps lit.new (pressed ws s (slice_set (none_lit (length s)) i true)) }
{
    let row = matrix::row(wires, board.width(), i as usize);
    bits::xor_into(lit, row);
}

// Presses each button whose bit is set in `presses`.
pub fn press_all(board: Board, lit: &mut [u64], wires: &[u64], presses: &[u64])
    requires lit { length lit.old ≡ width_of board.lamps }
    requires wires { length wires.now ≡ board.lamps * width_of board.lamps }
    requires presses { length presses.now ≡ width_of board.lamps }
    ensures bits { Pressing (width_of board.lamps) wires.now presses.now lit.old lit.new board.lamps }
    ensures holds { (ws : List Wire) (s : Lamps) → HoldsWires board.lamps wires.now ws → HoldsLit board.lamps lit.old s → HoldsLit board.lamps lit.new (pressed ws s (lamps_of board.lamps presses.now)) }
{
    for i in 0..board.lamps {
        if bits::get(presses, i) {
            press(board, lit, wires, i);
        }
    }
}

// Whether every lamp is off.
pub fn all_off(board: Board, lit: &[u64]) -> bool
    requires { length lit.now ≡ width_of board.lamps }
    ensures { result ≡ all_off (lamps_of board.lamps lit.now) }
{
    bits::first_set(lit, board.lamps).is_none()
}
