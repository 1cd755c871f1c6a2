// The desk for other languages: a slice crosses as a pointer and a length, and what is returned is one signed number. Whatever numbers and lengths a caller gives,
// nothing is read or written outside the slices.
#![tactic(auto)]

ghost use Rattle.std.specs.Prelude.{◌≡◌, Some, None};
ghost use Rattle.desk.specs.Holding.{lent};
ghost use Rattle.exports.specs.Codes.{code, NoBoard, Words, Opens, Answers};

use calls::Refusal;
use wires::Board;

// The number that is returned at a refusal. A function, and no `From`, since neither type is of this crate.
fn refused(refusal: Refusal) -> i64
    ensures { result ≡ code refusal }
{
    -((refusal.number() as i64) * 0x1_0000_0000 + refusal.place() as i64)
}

// The board of so many lamps, if that is 1 to 1,024.
fn board_of(lamps: u64) -> Option<Board>
    ensures { elim result [ Some b ↦ (b.lamps ≡ lamps) | None ↦ NoBoard lamps ] }
{
    Board::new(u16::try_from(lamps).ok()?)
}

// The functions for other languages return a number, so a check returns the refusal's by `let .. else`, and not by `?`.

// How many words each of `wires`, `rows` and `done` must have at least.
#[unsafe(no_mangle)]
pub extern "C" fn lights_words(lamps: u64) -> i64
    ensures { Words lamps result }
{
    let Some(board) = board_of(lamps) else {
        return refused(Refusal::BadSize);
    };
    session::asked(board).table as i64
}

// Opens a board of `lamps` lamps in the lent memory: no wires, every lamp off. Returns how many lamps it has. C hands over each slice by itself.
#[unsafe(no_mangle)]
pub extern "C" fn lights_open(
    lamps: u64,
    wires: &mut [u64],
    rows: &mut [u64],
    done: &mut [u64],
    pivots: &mut [u16],
    lit: &mut [u64],
    marks: &mut [u64],
) -> i64
    ensures { Opens (lent lamps wires.old rows.old done.old pivots.old lit.old marks.old) (lent lamps wires.new rows.new done.new pivots.new lit.new marks.new) result }
{
    let Some(board) = board_of(lamps) else {
        return refused(Refusal::BadSize);
    };
    match session::open(board.lamps, wires, rows, done, pivots, lit, marks) {
        Ok(opened) => opened.lamps as i64,
        Err(refusal) => refused(refusal),
    }
}

// Performs a call on the lent memory of a board of `lamps` lamps, and writes the answer. Returns how many bytes of the answer were written.
#[unsafe(no_mangle)]
pub extern "C" fn lights_call(
    lamps: u64,
    wires: &mut [u64],
    rows: &mut [u64],
    done: &mut [u64],
    pivots: &mut [u16],
    lit: &mut [u64],
    marks: &mut [u64],
    call: &[u8],
    answer: &mut [u8],
) -> i64
    ensures { Answers (lent lamps wires.old rows.old done.old pivots.old lit.old marks.old) (lent lamps wires.new rows.new done.new pivots.new lit.new marks.new) call.now answer.old answer.new result }
{
    let Some(board) = board_of(lamps) else {
        return refused(Refusal::BadSize);
    };
    match session::call(board, wires, rows, done, pivots, lit, marks, call, answer) {
        Ok(written) => written as i64,
        Err(refusal) => refused(refusal),
    }
}
