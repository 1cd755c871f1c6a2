// Wires between lamps, as a row of bits for each lamp in lent memory: row `i` has bit `j` set if pressing `i` changes `j`.
// A board and its rows are two parameters here, in lit and in claims: the rows are lent to be read by some and to be written by others. desk::Memory holds them together.
#![tactic(auto)]

ghost use Rattle.std.specs.Prelude.{◌≡◌, ◌*◌, ◌<◌, List, [], length, ◌≢◌};
ghost use Rattle.lamps.specs.Lamps.{Wire, wired};
ghost use Rattle.lamps.specs.Calls.{rewired};
ghost use Rattle.matrix.specs.Cells.{width_of, cell};
ghost use Rattle.matrix.specs.Said.{Identity};
ghost use Rattle.wires.specs.Holds.{HoldsWires, Toggled};

pub mod board;

pub use board::Board;

// Takes away every wire: each lamp changes itself alone.
pub fn no_wires(board: Board, rows: &mut [u64])
    requires { length rows.old ≡ board.lamps * width_of board.lamps }
    ensures bits { Identity (width_of board.lamps) rows.new board.lamps }
    ensures holds { HoldsWires board.lamps rows.new [] }
{
    matrix::identity(rows, board.width(), board.lamps as usize);
}

// The wire between two lamps comes, or goes if it is there: a bit is turned over in the row of each.
pub fn toggle(board: Board, rows: &mut [u64], i: u16, j: u16)
    requires rows { length rows.old ≡ board.lamps * width_of board.lamps }
    requires one { i < board.lamps }
    requires other { j < board.lamps }
    requires apart { i ≢ j }
    ensures bits { Toggled rows.old rows.new (width_of board.lamps) i j }
    ensures holds { (ws : List Wire) → HoldsWires board.lamps rows.old ws → HoldsWires board.lamps rows.new (rewired ws i j) }
{
    let width = board.width();
    matrix::flip_cell(rows, width, i as usize, j);
    matrix::flip_cell(rows, width, j as usize, i);
}

// Whether there is a wire between two lamps.
pub fn has_wire(board: Board, rows: &[u64], i: u16, j: u16) -> bool
    requires rows { length rows.now ≡ board.lamps * width_of board.lamps }
    requires one { i < board.lamps }
    requires other { j < board.lamps }
    requires apart { i ≢ j }
    ensures bits { result ≡ cell rows.now (width_of board.lamps) i j }
    ensures holds { (ws : List Wire) → HoldsWires board.lamps rows.now ws → result ≡ wired ws i j }
{
    matrix::has(rows, board.width(), i as usize, j)
}
