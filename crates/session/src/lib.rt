// A session: a board is opened in lent memory, and calls in bytes are answered in bytes.
#![tactic(auto)]

ghost use Rattle.std.specs.Prelude.{◌≡◌, ◌≤◌, true, false, length, MatchResult};
ghost use Rattle.matrix.specs.Cells.{width_of};
ghost use Rattle.lamps.specs.Calls.{Board as Wall};
ghost use Rattle.lamps.specs.Promise.{new_board};
ghost use Rattle.calls.specs.Saying.{lamps_of, called, said};
ghost use Rattle.desk.specs.Holding.{lent, refuses, Holds, Performs};
ghost use Rattle.desk.specs.Places.{held, InPlace};
ghost use Rattle.session.specs.Lent.{table_words, Long, answer_bytes, Opened, Unopened, Answered, Called, Uncalled, StepsRight, InBudget};

use calls::{Answer, Refusal};
use desk::Memory;
use wires::Board;

// How long the slices must be: in words each of the three tables and each of the two rows, in numbers the pivots, in bytes an answer.
#[derive(Clone, Copy, PartialEq, Eq, Debug)]
pub struct Sizes {
    pub table: usize,
    pub pivots: usize,
    pub row: usize,
    pub answer: usize,
}

// How long the slices must be for a board.
pub fn asked(board: Board) -> Sizes
    ensures tables { result.table ≡ table_words board.lamps }
    ensures pivots { result.pivots ≡ board.lamps }
    ensures rows { result.row ≡ width_of board.lamps }
    ensures answer { result.answer ≡ answer_bytes board.lamps }
{
    let lamps = board.lamps as usize;
    let row = board.width();
    Sizes {
        table: lamps * row,
        pivots: lamps,
        row,
        answer: lamps.div_ceil(8) + 16,
    }
}

// Whether every slice is as long as is asked for.
fn long(
    board: Board,
    wires: &[u64],
    rows: &[u64],
    done: &[u64],
    pivots: &[u16],
    lit: &[u64],
    marks: &[u64],
) -> bool
    ensures enough { result ≡ true → Long (lent board.lamps wires.now rows.now done.now pivots.now lit.now marks.now) }
    ensures short { result ≡ false → Long (lent board.lamps wires.now rows.now done.now pivots.now lit.now marks.now) → ⊥ }
{
    let sizes = asked(board);
    wires.len() >= sizes.table
        && rows.len() >= sizes.table
        && done.len() >= sizes.table
        && pivots.len() >= sizes.pivots
        && lit.len() >= sizes.row
        && marks.len() >= sizes.row
}

// Opens a board of `lamps` lamps in the lent memory: six slices, as they come from other languages. The parts that are asked for are cut off here and in `call`
// alike: the borrow checker doesn't cover a function that would hand out the six together.
pub fn open(
    lamps: u16,
    wires: &mut [u64],
    rows: &mut [u64],
    done: &mut [u64],
    pivots: &mut [u16],
    lit: &mut [u64],
    marks: &mut [u64],
) -> Result<Board, Refusal>
    ensures { MatchResult result
        (λ board. (board.lamps ≡ lamps) × Opened (lent lamps wires.old rows.old done.old pivots.old lit.old marks.old) (lent lamps wires.new rows.new done.new pivots.new lit.new marks.new))
        (λ e. Unopened (lent lamps wires.old rows.old done.old pivots.old lit.old marks.old) (lent lamps wires.new rows.new done.new pivots.new lit.new marks.new) e) }
{
    // by `let .. else`: a rule of this project, among the forms in docs/DECISIONS.md
    let Some(board) = Board::new(lamps) else {
        return Err(Refusal::BadSize);
    };
    if !long(board, wires, rows, done, pivots, lit, marks) {
        return Err(Refusal::ShortMemory);
    }
    let sizes = asked(board);
    let (wires, _) = wires.split_at_mut(sizes.table);
    let (rows, _) = rows.split_at_mut(sizes.table);
    let (done, _) = done.split_at_mut(sizes.table);
    let (pivots, _) = pivots.split_at_mut(sizes.pivots);
    let (lit, _) = lit.split_at_mut(sizes.row);
    let (marks, _) = marks.split_at_mut(sizes.row);
    let mut memory = Memory {
        board,
        wires,
        rows,
        done,
        pivots,
        lit,
        marks,
    };
    memory.clear();
    Ok(board)
}

// Reads the bytes of a call and performs it. Lamps that are answered are written into `row`.
fn perform(memory: &mut Memory, bytes: &[u8], row: &mut [u64]) -> Answer
    requires { length row.old ≡ width_of memory.old.board.lamps }
    ensures performs { (b : Wall) → Holds (held memory.old) b → Performs (held memory.old) (held memory.new) b (called bytes.now) (said result row.new) }
    ensures kept { refuses result ≡ true → held memory.new ≡ held memory.old }
    ensures lamps { lamps_of result ≤ memory.old.board.lamps }
    ensures place { InPlace memory.old memory.new }
{
    match calls::read_call(bytes) {
        Ok(call) => memory.perform(call, row),
        Err(refusal) => Answer::Refused(refusal),
    }
}

// Answers the bytes of a call by bytes, and says how many. Lamps that are answered go by `row`.
fn reply(memory: &mut Memory, bytes: &[u8], row: &mut [u64], answer: &mut [u8]) -> usize
    requires row { length row.old ≡ width_of memory.old.board.lamps }
    requires answer { answer_bytes memory.old.board.lamps ≤ length answer.old }
    ensures answered { Answered (held memory.old) (held memory.new) bytes.now answer.old answer.new result }
    ensures place { InPlace memory.old memory.new }
{
    let said = perform(memory, bytes, row);
    calls::write_answer(said, row, answer)
}

// Answers the bytes of a call by bytes, and says how many; refuses a slice that is shorter than is asked for.
pub fn call(
    board: Board,
    wires: &mut [u64],
    rows: &mut [u64],
    done: &mut [u64],
    pivots: &mut [u16],
    lit: &mut [u64],
    marks: &mut [u64],
    bytes: &[u8],
    answer: &mut [u8],
) -> Result<usize, Refusal>
    ensures { MatchResult result
        (λ k. Called (lent board.lamps wires.old rows.old done.old pivots.old lit.old marks.old) (lent board.lamps wires.new rows.new done.new pivots.new lit.new marks.new) bytes.now answer.old answer.new k)
        (λ e. Uncalled (lent board.lamps wires.old rows.old done.old pivots.old lit.old marks.old) (lent board.lamps wires.new rows.new done.new pivots.new lit.new marks.new) answer.old answer.new e) }
{
    let sizes = asked(board);
    if !long(board, wires, rows, done, pivots, lit, marks) || answer.len() < sizes.answer {
        return Err(Refusal::ShortMemory);
    }
    let (wires, _) = wires.split_at_mut(sizes.table);
    let (rows, _) = rows.split_at_mut(sizes.table);
    let (done, _) = done.split_at_mut(sizes.table);
    let (pivots, _) = pivots.split_at_mut(sizes.pivots);
    let (lit, _) = lit.split_at_mut(sizes.row);
    let (marks, _) = marks.split_at_mut(sizes.row);
    let mut memory = Memory {
        board,
        wires,
        rows,
        done,
        pivots,
        lit,
        marks,
    };
    // as many words as the widest row has: nothing here asks for memory
    let mut space = [0; 16];
    Ok(reply(&mut memory, bytes, &mut space[0..sizes.row], answer))
}

// The desk is right for every list of calls, and keeps its memory at a refusal.
pub fn desk_is_right()
    ensures { StepsRight }
{}

// The memory that is asked for is within its budget.
pub fn memory_in_budget()
    ensures { InBudget }
{}
