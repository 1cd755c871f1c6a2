// The memory of a board of at most 64 lamps, and what is asked of it.
ghost use Rattle.std.specs.Prelude.{◌≡◌, ◌*◌, ◌%◌, ◌<◌, ◌≤◌, ◌≢◌, false, List, [], ◌∷◌, IfOk, IfErr, OnErr, IsNone, IfSome, is_ok, None, Some};
ghost use Rattle.lamps.specs.Lamps.{Wire, wired};
ghost use Rattle.lamps.specs.Boards.{wire as joined, wires_before, grid};
ghost use Rattle.calls.specs.declared.Refusal.TheVariants.{BadSize};
ghost use Rattle.calls.specs.Saying.{lamps_of, meant, said};
ghost use Rattle.desk.specs.Holding.{lent, Holds};
ghost use Rattle.lines.specs.Lines.{line_of, serves};
ghost use Rattle.text.specs.Memory.{lamps_open, in_use, Performed};

use super::reply::{self, Reply};
use calls::{Answer, Call};
use desk::Memory;
use lines::{Line, Refusal};
use wires::Board;

// The board that is open, if one is; what a desk keeps of it; and the lamps of the last answer. There is room for 64 lamps, so that none is asked for.
#[derive(Drop)]
pub struct Wall {
    board: Option<Board>,
    wires: [u64; 64],
    rows: [u64; 64],
    done: [u64; 64],
    pivots: [u16; 64],
    lit: [u64; 1],
    marks: [u64; 1],
    row: [u64; 1],
    ghost small: { lamps_open board ≤ 64 },
}

// Performs a call on a board, in as much of the memory as it takes. The fields come one by one: no part of a field can be lent
// from a struct that keeps a fact.
fn on_board(
    board: Board,
    wires: &mut [u64; 64],
    rows: &mut [u64; 64],
    done: &mut [u64; 64],
    pivots: &mut [u16; 64],
    lit: &mut [u64; 1],
    marks: &mut [u64; 1],
    call: Call,
    row: &mut [u64; 1],
) -> Answer
    requires { board.lamps ≤ 64 }
    ensures lamps { lamps_of result ≤ 64 }
    ensures performs { Performed (meant call) (lent board.lamps wires.old rows.old done.old pivots.old lit.old marks.old) (lent board.lamps wires.new rows.new done.new pivots.new lit.new marks.new) (said result row.new) }
{
    let n = board.lamps as usize;
    let (wires, _) = wires.split_at_mut(n);
    let (rows, _) = rows.split_at_mut(n);
    let (done, _) = done.split_at_mut(n);
    let (pivots, _) = pivots.split_at_mut(n);
    let mut memory = Memory {
        board,
        wires,
        rows,
        done,
        pivots,
        lit,
        marks,
    };
    memory.perform(call, row)
}

impl Wall {
    ghost use Rattle.text.specs.Lines.{line_for, reply_or};
    ghost use Rattle.text.specs.Board.{Asks, dark, held, Step, Comes};
    ghost use Rattle.text.specs.Transcript.{Opens, Answers};

    // No board is open.
    pub fn new() -> Wall
        ensures { result.board ≡ None }
    {
        Wall {
            board: None,
            wires: [0; 64],
            rows: [0; 64],
            done: [0; 64],
            pivots: [0; 64],
            lit: [0],
            marks: [0],
            row: [0],
        }
    }

    // How many lamps there are, 0 where no board is open: a count, as the definitions take it.
    fn lamps(&self) -> u16
        ensures { result ≡ lamps_open self.now.board }
    {
        match self.board {
            Some(board) => board.lamps,
            None => 0,
        }
    }

    // Performs a call on the board, if one is open. Lamps that are answered are written into `row`.
    fn perform(&mut self, call: Call) -> Option<Answer>
        ensures same { self.new.board ≡ self.old.board }
        ensures none { IsNone result → lamps_open self.old.board ≡ 0 }
        ensures some { IfSome result (λ _. 0 < lamps_open self.old.board) }
        ensures lamps { IfSome result (λ answer. lamps_of answer ≤ 64) }
        ensures performs { IfSome result (λ answer. Performed (meant call) (held self.old) (held self.new) (said answer self.new.row)) }
    {
        let board = self.board?;
        Some(on_board(
            board,
            &mut self.wires,
            &mut self.rows,
            &mut self.done,
            &mut self.pivots,
            &mut self.lit,
            &mut self.marks,
            call,
            &mut self.row,
        ))
    }

    // Performs a call, if a board is open, and gives the reply.
    fn ask(&mut self, call: Call) -> Result<Reply, Refusal>
        ensures { Step (Asks (meant call)) (held self.old) (held self.new) (line_for (reply_or result)) }
    {
        let answer = self.perform(call).ok_or(Refusal::Unreadable(0))?;
        Ok(reply::tell(call, answer, self.row))
    }

    // Makes it a dark board of `lamps` lamps without wires, if that is 1 to 64.
    fn clear(&mut self, lamps: u32) -> Result<Board, calls::Refusal>
        ensures served { is_ok result ≡ serves lamps }
        ensures lamps { IfOk result (λ board. board.lamps ≡ lamps) }
        ensures opens { IfOk result (λ board. self.new.board ≡ Some board) }
        ensures dark { IfOk result (λ _. Holds (in_use (held self.new)) (dark lamps [])) }
        ensures refused { IfErr result (λ why. why ≡ BadSize) }
        ensures kept { OnErr result (held self.new ≡ held self.old) }
    {
        if lamps > 64 {
            return Err(calls::Refusal::BadSize);
        }
        let board = session::open(
            lamps as u16,
            &mut self.wires,
            &mut self.rows,
            &mut self.done,
            &mut self.pivots,
            &mut self.lit,
            &mut self.marks,
        )?;
        self.board = Some(board);
        Ok(board)
    }

    // Opens a board of `lamps` lamps.
    fn open(&mut self, lamps: u16) -> Result<Reply, Refusal>
        ensures { Step (Opens lamps []) (held self.old) (held self.new) (line_for (reply_or result)) }
    {
        let board = self.clear(lamps as u32)?;
        Ok(Reply::Opened(board.lamps))
    }

    // The wire between the lamps `i` and `j` comes to a dark board that hasn't got it.
    fn join(&mut self, i: u16, j: u16)
        requires i { i < lamps_open self.old.board }
        requires j { j < lamps_open self.old.board }
        requires apart { i ≢ j }
        ensures same { self.new.board ≡ self.old.board }
        ensures comes { (ws : List Wire) → wired ws i j ≡ false → Comes ws (in_use (held self.old)) (in_use (held self.new)) (joined i j ∷ ws) }
    {
        let _ = self.perform(Call::Wire(i, j));
    }

    // Wires each lamp of a new board, in rows of `w` lamps, to the one below it and to the next in its row.
    fn join_all(&mut self, w: u16)
        requires w { 0 < w }
        requires whole { lamps_open self.old.board % w ≡ 0 }
        ensures same { self.new.board ≡ self.old.board }
        ensures comes { Comes [] (in_use (held self.old)) (in_use (held self.new)) (wires_before w (lamps_open self.old.board) (lamps_open self.old.board)) }
    {
        let n = self.lamps();
        for i in 0..n {
            if w < n - i {
                self.join(i, i + w);
            }
            if (i + 1) % w != 0 {
                self.join(i, i + 1);
            }
        }
    }

    // Opens a board of `h` rows of `w` lamps, each wired to its neighbours.
    fn open_grid(&mut self, w: u16, h: u16) -> Result<Reply, Refusal>
        ensures { Step (Opens (w * h) (grid w h)) (held self.old) (held self.new) (line_for (reply_or result)) }
    {
        let board = self.clear(w as u32 * h as u32)?;
        self.join_all(w);
        Ok(Reply::Opened(board.lamps))
    }

    // Reads a line, and does what it says.
    fn read(&mut self, line: &[u8]) -> Result<Reply, Refusal>
        ensures { Step (Answers (line_of line.now)) (held self.old) (held self.new) (line_for (reply_or result)) }
    {
        match lines::read_line(line).map_err(Refusal::Unreadable)? {
            Line::Nothing => Ok(Reply::Nothing),
            Line::Lamps(lamps) => self.open(lamps),
            Line::Grid(w, h) => self.open_grid(w, h),
            Line::Call(call) => self.ask(call),
        }
    }

    // Answers a line.
    pub fn answer_line(&mut self, line: &[u8]) -> Reply
        ensures { Step (Answers (line_of line.now)) (held self.old) (held self.new) (line_for result) }
    {
        self.read(line).unwrap_or_else(Reply::Refused)
    }
}
