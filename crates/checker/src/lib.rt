// Lines that make a board and claims about it, answered without any solver.
#![tactic(auto)]

ghost use Rattle.std.specs.Prelude.{◌≡◌, List, [], IfOk, None, Ok, string_bytes, Option};
ghost use Rattle.lamps.specs.Calls.{Board as Wall};
ghost use Rattle.lines.specs.Texts.{lines_from};
ghost use Rattle.checker.specs.Replies.{said};
ghost use Rattle.checker.specs.Held.{lamps_held, Held, Answered, found_or};
ghost use Rattle.checker.specs.Texts.{Verdicts};

mod reply;
mod small;

use claims::Verdict;
use lines::{Claim, Refusal};
pub use reply::Reply;
pub use small::SmallBoard;
use std::alloc::{AllocError, Global};
use std::fmt::Write;

// A line that needs a board can't be read where there is none.
const NO_BOARD: Refusal = Refusal::Unreadable(0);

// The board that there is, or none yet. Whoever has a board and its words begins with those, and finds them here afterwards.
#[derive(Clone, Copy, PartialEq, Eq, Debug)]
pub struct Checker {
    pub board: Option<SmallBoard>,
}

impl Checker {
    // No board is there yet.
    pub fn new() -> Checker
        ensures { Held result.board None }
    {
        Checker { board: None }
    }

    // How many lamps there are, 0 where there is no board yet: a count, as lines are read by it.
    fn lamps(&self) -> u16
        ensures { result ≡ lamps_held self.now.board }
    {
        match &self.board {
            None => 0,
            Some(board) => board.lamps(),
        }
    }

    // Does what a line says, and gives what it is found to be if it is a claim that is checked.
    fn take(&mut self, claim: Claim) -> Result<Option<Verdict>, Refusal>
        ensures { (b : Option Wall) → Held self.old.board b → Answered b (Ok claim) (found_or result) self.new.board }
    {
        match claim {
            Claim::Nothing => Ok(None),
            Claim::Lamps(n) => {
                match &mut self.board {
                    None => self.board = Some(SmallBoard::new(n)?),
                    Some(board) => board.open(n)?,
                }
                Ok(None)
            }
            Claim::Wire(i, j) => {
                self.board.as_mut().ok_or(NO_BOARD)?.wire(i, j)?;
                Ok(None)
            }
            Claim::Turn(i) => {
                self.board.as_mut().ok_or(NO_BOARD)?.turn(i)?;
                Ok(None)
            }
            Claim::Press(presses) => {
                let board = self.board.as_ref().ok_or(NO_BOARD)?;
                Ok(Some(board.check_presses(presses)))
            }
            Claim::Never(set) => {
                let board = self.board.as_ref().ok_or(NO_BOARD)?;
                Ok(Some(board.check_never(set)))
            }
        }
    }

    // Reads a line, and does what it says.
    fn read(&mut self, line: &[u8]) -> Result<Option<Verdict>, Refusal>
        ensures { (b : Option Wall) → Held self.old.board b → Answered b (said b line.now) (found_or result) self.new.board }
    {
        let claim = lines::read_claim(line, self.lamps()).map_err(Refusal::Unreadable)?;
        self.take(claim)
    }

    // Answers a line.
    pub fn take_line(&mut self, line: &[u8]) -> Reply
        ensures { (b : Option Wall) → Held self.old.board b → Answered b (said b line.now) result self.new.board }
    {
        match self.read(line) {
            Ok(None) => Reply::Nothing,
            Ok(Some(verdict)) => Reply::Found(verdict),
            Err(refusal) => Reply::Refused(refusal),
        }
    }
}

// The answers to the lines of a text, one after another.
pub fn verdicts(heap: Global, text: &[u8]) -> Result<String, AllocError>
    ensures { IfOk result (λ s. Verdicts None (lines_from [] text.now) (string_bytes s)) }
{
    let mut checker = Checker::new();
    let mut out = String::new(heap);
    let mut rest = Some(text);
    while let Some(lines) = rest {
        let end = lines
            .iter()
            .position(|byte| *byte == b'\n')
            .unwrap_or(lines.len());
        let reply = checker.take_line(&lines[..end]);
        write!(out, "{reply}")?;
        rest = lines.get(end + 1..);
    }
    Ok(out)
}
