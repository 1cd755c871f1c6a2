// What each call does to the lent memory of a board, and what is answered.
#![tactic(auto)]

ghost use Rattle.std.specs.Prelude.{◌≡◌, ℕ, ◌/◌, ◌<◌, ◌≤◌, ◌||◌, length, MatchResult, ◌==◌, ◌≢◌};
ghost use Rattle.bits.specs.Bits.{bit_of};
ghost use Rattle.desk.specs.Holding.{answer_of};
ghost use Rattle.desk.specs.Rewired.{TwoRowsChange};

mod memory;

use calls::{Answer, Refusal};
pub use memory::Memory;
use wires::Board;

// The lamp, if it is there.
fn lamp(board: Board, i: u16) -> Result<u16, Refusal>
    ensures { MatchResult result (λ k. (k ≡ i) × (k < board.lamps)) (λ e. (board.lamps ≤ i) × (e ≡ Refusal.NoLamp)) }
{
    if i < board.lamps {
        Ok(i)
    } else {
        Err(Refusal::NoLamp)
    }
}

// The second of two lamps, if it is another than the first.
fn other(i: u16, j: u16) -> Result<u16, Refusal>
    ensures { MatchResult result (λ k. (k ≡ j) × (i ≢ k)) (λ e. (i ≡ j) × (e ≡ Refusal.Itself)) }
{
    if i == j { Err(Refusal::Itself) } else { Ok(j) }
}

// Marks row `i` as changed. fewest marks columns so too, in a loop and with another promise.
fn mark(marks: &mut [u64], i: u16)
    requires { i / 64 < length marks.old }
    ensures { (k : ℕ) → bit_of marks.new k ≡ (bit_of marks.old k || k == i) }
{
    if !bits::get(marks, i) {
        bits::flip(marks, i);
    }
}

// The answer with a number, or the refusal.
fn numbered(said: Result<u16, Refusal>) -> Answer
    ensures { result ≡ answer_of said }
{
    match said {
        Ok(k) => Answer::Number(k),
        Err(refusal) => Answer::Refused(refusal),
    }
}

// A wire that comes or goes changes two rows, and the steps are those of the new rows. It does nothing: its contract is a theorem.
pub fn two_rows_change()
    ensures { TwoRowsChange }
{}
