// Long lists of calls at random, on a session that keeps its steps and on one that starts from nothing before each answer: both have to say the same.
// On small boards all presses are gone through besides, and the answers have to be what that finds.
#![tactic(auto)]

ghost use Rattle.std.specs.Prelude.{◌≤◌, length, IfOk};

use anyhow::{Context, Result};
use calls::Call;
use std::alloc::Global;
use wires::Board;

// A board that is open in memory of its own.
#[derive(Drop)]
struct Session {
    board: Board,
    wires: Vec<u64>,
    rows: Vec<u64>,
    done: Vec<u64>,
    pivots: Vec<u16>,
    lit: Vec<u64>,
    marks: Vec<u64>,
}

impl Session {
    fn new(heap: Global, board: Board) -> Result<Session> {
        let sizes = session::asked(board);
        let mut session = Session {
            board,
            wires: vec![in heap; 0; sizes.table]?,
            rows: vec![in heap; 0; sizes.table]?,
            done: vec![in heap; 0; sizes.table]?,
            pivots: vec![in heap; 0; sizes.pivots]?,
            lit: vec![in heap; 0; sizes.row]?,
            marks: vec![in heap; 0; sizes.row]?,
        };
        session.open()?;
        Ok(session)
    }

    // Starts from nothing: no wires, no lamp lit.
    fn open(&mut self) -> Result<()> {
        session::open(
            self.board.lamps,
            &mut self.wires,
            &mut self.rows,
            &mut self.done,
            &mut self.pivots,
            &mut self.lit,
            &mut self.marks,
        )
        .ok()
        .context("the board is not opened")?;
        Ok(())
    }

    // The bytes of the answer, in the space.
    fn call<'a>(&mut self, call: Call, space: &'a mut [u8]) -> Result<&'a [u8]>
        ensures { IfOk result (λ answer. length answer.now ≤ length space.old) }
    {
        let mut bytes = [0; 5];
        let asked = calls::write_call(call, &mut bytes).context(
            "the call is longer than five bytes",
        )?;
        let written = session::call(
            self.board,
            &mut self.wires,
            &mut self.rows,
            &mut self.done,
            &mut self.pivots,
            &mut self.lit,
            &mut self.marks,
            &bytes[..asked],
            space,
        )
        .ok()
        .context("the memory is too short")?;
        Ok(&space[..written])
    }
}

// Numbers that look random, by a seed.
#[derive(Drop)]
struct Random {
    seed: u64,
}

impl Random {
    fn number(&mut self) -> u64 {
        self.seed = self.seed.wrapping_add(0x9E37_79B9_7F4A_7C15);
        let a = self.seed;
        let b = (a ^ (a >> 30)).wrapping_mul(0xBF58_476D_1CE4_E5B9);
        let c = (b ^ (b >> 27)).wrapping_mul(0x94D0_49BB_1331_11EB);
        c ^ (c >> 31)
    }

    fn lamp(&mut self, board: Board) -> u16 {
        (self.number() % u64::from(board.lamps)) as u16
    }
}

// How many bits are set in the bytes.
fn bits(bytes: &[u8]) -> u32
    requires { length bytes.now ≤ 160 }
{
    bytes.iter().map(|byte| byte.count_ones()).sum()
}

// Whether two answers say the same: the same number, as few presses where they are the fewest, or the same kind of set.
fn alike(a: &[u8], b: &[u8]) -> bool
    requires one { length a.now ≤ 160 }
    requires other { length b.now ≤ 160 }
{
    match (a, b) {
        ([1, ..], [1, ..]) => a == b,
        ([3, ..], [3, ..]) => bits(a) == bits(b),
        ([kind, ..], [other, ..]) => kind == other,
        _ => false,
    }
}

// Whether the presses put out what is lit, on a board of at most 64 lamps.
fn puts_out(presses: u64, wires: &[u64], lit: u64) -> bool {
    let mut left = lit;
    for (button, row) in (0..64u32).zip(wires) {
        if presses >> button & 1 == 1 {
            left ^= *row;
        }
    }
    left == 0
}

// How few presses put out what is lit, if any do: all are gone through.
fn fewest(lamps: u16, wires: &[u64], lit: u64) -> Option<u32>
    requires { lamps ≤ 12 }
{
    (0..1u64 << lamps)
        .filter(|presses| puts_out(*presses, wires, lit))
        .map(|presses| presses.count_ones())
        .min()
}

// How many sets of presses put out what is lit: all are gone through.
fn ways(lamps: u16, wires: &[u64], lit: u64) -> usize
    requires { lamps ≤ 12 }
{
    (0..1u64 << lamps)
        .filter(|presses| puts_out(*presses, wires, lit))
        .count()
}

// Two sessions of one board: one keeps its steps, the other starts from nothing before each answer.
#[derive(Drop)]
struct Walk {
    kept: Session,
    fresh: Session,
    random: Random,
}

impl Walk {
    fn new(heap: Global, lamps: u16, seed: u64) -> Result<Walk> {
        let board = Board::new(lamps).context("no board has so many lamps")?;
        Ok(Walk {
            kept: Session::new(heap, board)?,
            fresh: Session::new(heap, board)?,
            random: Random { seed },
        })
    }

    // Whether both sessions answer a call alike.
    fn ask(&mut self, call: Call) -> Result<bool> {
        let mut one = [0; 160];
        let mut other = [0; 160];
        let a = self.kept.call(call, &mut one)?;
        let b = self.fresh.call(call, &mut other)?;
        Ok(a.len() == b.len() && alike(a, b))
    }

    // Whether the answers are what going through all presses finds; larger boards have too many.
    fn by_hand(&mut self) -> Result<bool> {
        let lamps = self.kept.board.lamps;
        if lamps > 12 {
            return Ok(true);
        }
        let lit = self.kept.lit.first().copied().unwrap_or(0);
        let ways = ways(lamps, &self.kept.wires, lit);
        let fewest = fewest(lamps, &self.kept.wires, lit);
        let mut out = [0; 160];
        let mut many = [0; 160];
        let out = self.kept.call(Call::Out, &mut out)?;
        let many = self.kept.call(Call::Ways, &mut many)?;
        Ok(match (fewest, out, many) {
            (None, [5, ..], [1, 0, 0]) => true,
            (Some(fewest), [3, _, _, set @ ..], [1, power, 0]) => {
                bits(set) == fewest
                    && *power > 0
                    && 1usize.checked_shl(*power as u32 - 1) == Some(ways)
            }
            _ => false,
        })
    }

    // One wire comes or goes and one lamp is turned; then both sessions are asked for presses and ways.
    fn step(&mut self) -> Result<bool> {
        let board = self.kept.board;
        let mut space = [0; 160];
        let wire = Call::Wire(self.random.lamp(board), self.random.lamp(board));
        let turn = Call::Turn(self.random.lamp(board));
        self.kept.call(wire, &mut space)?;
        self.kept.call(turn, &mut space)?;
        self.fresh.open()?;
        self.fresh.wires = self.kept.wires.clone()?;
        self.fresh.lit = self.kept.lit.clone()?;
        Ok(self.ask(Call::Out)? && self.ask(Call::Ways)? && self.by_hand()?)
    }

    // How many of `steps` steps were answered alike.
    fn steps(&mut self, steps: u16) -> Result<u16> {
        let mut same = 0u16;
        for _ in 0..steps {
            if self.step()? {
                same += 1;
            }
        }
        Ok(same)
    }
}

fn main(rt: HostRuntime) -> Result<()> {
    for lamps in [1, 2, 7, 12, 24, 64, 65, 130, 257] {
        let same = Walk::new(rt.alloc(), lamps, 20261118)?.steps(300)?;
        println!(rt; "{lamps} lamps: {same} of 300 steps alike")?;
    }
    Ok(())
}
