// A board that claims are about.
ghost use Rattle.std.specs.Prelude.{◌≡◌, ◌≢◌, ◌<◌, ◌≤◌, List, [], false, true, length, take, MatchResult};
ghost use Rattle.lamps.specs.Lamps.{Wire};
ghost use Rattle.lamps.specs.Calls.{Board as Wall, rewired, wires as wires_call, turns};
ghost use Rattle.lamps.specs.Promise.{new_board};
ghost use Rattle.wires.specs.Holds.{HoldsWires};
ghost use Rattle.lines.specs.Lines.{serves};
ghost use Rattle.lines.specs.Printed.{set_in};
ghost use Rattle.claims.specs.Checked.{PressesChecked, NeverChecked};
ghost use Rattle.calls.specs.declared.Refusal.TheVariants.{BadSize};
ghost use Rattle.checker.specs.Replies.{Holding, Called, reply_to};

use calls::Refusal;
use claims::Verdict;
use wires::Board;

// A board of at most 64 lamps: a word of wires for each lamp, and a word of what is lit. There is room for 64, so that none is asked for.
#[derive(Clone, Copy, PartialEq, Eq, Debug)]
pub struct SmallBoard {
    pub board: Board,
    pub wires: [u64; 64],
    pub lit: [u64; 1],
    pub ghost few: { board.lamps ≤ 64 },
}

// The wire between two lamps comes or goes, in the words that the board has of these. By itself, since no part of a field can be lent from a struct that keeps a fact.
fn toggle(board: Board, wires: &mut [u64; 64], i: u16, j: u16)
    requires few { board.lamps ≤ 64 }
    requires one { i < board.lamps }
    requires other { j < board.lamps }
    requires apart { i ≢ j }
    ensures { (ws : List Wire) → HoldsWires board.lamps (take board.lamps wires.old) ws → HoldsWires board.lamps (take board.lamps wires.new) (rewired ws i j) }
{
    wires::toggle(board, &mut wires[..board.lamps as usize], i, j);
}

// Takes away every wire, in the words that the board has of these. By itself, as `toggle` is.
fn clear(board: Board, wires: &mut [u64; 64])
    requires few { board.lamps ≤ 64 }
    ensures { HoldsWires board.lamps (take board.lamps wires.new) [] }
{
    wires::no_wires(board, &mut wires[..board.lamps as usize]);
}

// A board of `n` lamps, if that is 1 to 64.
fn sized(n: u16) -> Result<Board, Refusal>
    ensures { MatchResult result (λ board. (serves n ≡ true) × (board.lamps ≡ n)) (λ why. (serves n ≡ false) × (why ≡ BadSize)) }
{
    if n > 64 {
        return Err(Refusal::BadSize);
    }
    Board::new(n).ok_or(Refusal::BadSize)
}

impl SmallBoard {
    // A new board of `n` lamps, if that is 1 to 64.
    pub(crate) fn new(n: u16) -> Result<SmallBoard, Refusal>
        ensures { MatchResult result (λ c. (serves n ≡ true) × Holding c.board.lamps c.wires c.lit (new_board n)) (λ why. (serves n ≡ false) × (why ≡ BadSize)) }
    {
        let board = sized(n)?;
        let mut wires = [0; 64];
        let mut lit = [0; 1];
        clear(board, &mut wires);
        lit::lights_out(board, &mut lit);
        Ok(SmallBoard { board, wires, lit })
    }

    // Becomes a new board of `n` lamps, if that is 1 to 64: in place, since a board is large to move.
    pub(crate) fn open(&mut self, n: u16) -> Result<(), Refusal>
        ensures { MatchResult result (λ u. (serves n ≡ true) × Holding self.new.board.lamps self.new.wires self.new.lit (new_board n)) (λ why. (serves n ≡ false) × (why ≡ BadSize) × (self.new ≡ self.old)) }
    {
        let board = sized(n)?;
        clear(board, &mut self.wires);
        lit::lights_out(board, &mut self.lit);
        self.board = board;
        Ok(())
    }

    // How many lamps it has.
    pub(crate) fn lamps(&self) -> u16
        ensures { result ≡ self.now.board.lamps }
    {
        self.board.lamps
    }

    // The wire between two lamps comes or goes.
    pub(crate) fn wire(&mut self, i: u16, j: u16) -> Result<(), Refusal>
        ensures { (b : Wall) → Holding self.old.board.lamps self.old.wires self.old.lit b → Called self.new.board.lamps self.new.wires self.new.lit b (wires_call i j) (reply_to result) }
    {
        let n = self.board.lamps;
        if i >= n || j >= n {
            return Err(Refusal::NoLamp);
        }
        if i == j {
            return Err(Refusal::Itself);
        }
        toggle(self.board, &mut self.wires, i, j);
        Ok(())
    }

    // A lamp is turned on or off.
    pub(crate) fn turn(&mut self, i: u16) -> Result<(), Refusal>
        ensures { (b : Wall) → Holding self.old.board.lamps self.old.wires self.old.lit b → Called self.new.board.lamps self.new.wires self.new.lit b (turns i) (reply_to result) }
    {
        if i >= self.board.lamps {
            return Err(Refusal::NoLamp);
        }
        lit::turn(self.board, &mut self.lit, i);
        Ok(())
    }

    // Checks the claim that these presses put out what is lit.
    pub(crate) fn check_presses(&self, presses: u64) -> Verdict
        ensures { (b : Wall) → Holding self.now.board.lamps self.now.wires self.now.lit b → PressesChecked b.wires_there b.on (set_in (length b.on) presses) result }
    {
        let wires = &self.wires[..self.board.lamps as usize];
        claims::check_presses(self.board, wires, &self.lit, &[presses])
    }

    // Checks the claim that these lamps show that nothing puts out what is lit.
    pub(crate) fn check_never(&self, set: u64) -> Verdict
        ensures { (b : Wall) → Holding self.now.board.lamps self.now.wires self.now.lit b → NeverChecked b.wires_there b.on (set_in (length b.on) set) result }
    {
        let wires = &self.wires[..self.board.lamps as usize];
        claims::check_never(self.board, wires, &self.lit, &[set])
    }
}
