// Rows are brought into reduced steps a block at a time: the pivots of a few rows are cleared from each other row by one sum of them, which is looked up in a table
// of all such sums (the method of the four Russians).
#![tactic(auto)]

ghost use Rattle.std.specs.Prelude.{◌≡◌, ◌+◌, ◌-◌, ◌*◌, ◌^◌, ◌<◌, ◌≤◌, length, ◌≢◌};
ghost use Rattle.gf2.specs.Rows.{sum};
ghost use Rattle.matrix.specs.Cells.{width_of, cell};
ghost use Rattle.matrix.specs.Said.{RowPut};
ghost use Rattle.echelon.specs.Steps.{column_of, InSteps};
ghost use Rattle.echelon.specs.Places.{InPlace};
ghost use Rattle.blocks.specs.Said.{block_of, entry_of, asked, NextRow, Tabled, Doubled, Swept, BlockSettles, BlockReduces};

use echelon::Steps;

// How many rows a block has.
const BLOCK: u16 = 6;

// How many words a table has: a row of at most 16 for each of the 64 choices of a block's rows.
const TABLE: usize = 1024;

// The rows from `first` to `end`. That a system has so many is asked where one comes with them: the block knows none.
#[derive(Clone, Copy, PartialEq, Eq, Debug)]
struct Block {
    first: u16,
    end: u16,
    ghost order: { first ≤ end },
    ghost few: { end - first ≤ 6 },
}

// The sums of a block's rows, and of what was done to them.
#[derive(Drop)]
struct Tables {
    rows: [u64; TABLE],
    done: [u64; TABLE],
}

// The first row from `from` on that has a bit set.
fn next_row(steps: &Steps, from: u16) -> Option<u16>
    ensures { NextRow (width_of steps.now.n) steps.now.rows.now from steps.now.n result }
{
    let width = steps.width();
    let mut found = None;
    // nested loops left by a label: a rule of this project, among the forms in docs/DECISIONS.md
    'rows: for i in from..steps.n {
        for word in matrix::row(steps.rows, width, i as usize) {
            if *word != 0 {
                found = Some(i);
                break 'rows;
            }
        }
    }
    found
}

// The four functions from here to `add_entry` take a table, a matrix and their width one by one: each works on the rows first and then on what was done, and a struct of the
// three would be made anew at each call.

// Row `to` of the table is its row `from` with row `i` of the memory added.
fn put_sum(table: &mut [u64], memory: &[u64], width: usize, to: usize, from: usize, i: usize)
    requires to { to * width + width ≤ length table.old }
    requires from { from * width + width ≤ length table.old }
    requires row { i * width + width ≤ length memory.now }
    requires apart { to ≢ from }
    ensures { RowPut table.old table.new width to (sum (cell table.old width from) (cell memory.now width i)) }
{
    let start = i * width;
    matrix::write_row(table, width, to, &memory[start..start + width]);
    matrix::add_row(table, width, to, from);
}

// Each of the first `size` rows of the table, with row `i` of the memory added, stands `size` rows further on.
fn double(table: &mut [u64], memory: &[u64], width: usize, size: usize, i: usize)
    requires small { size ≤ 32 }
    requires table { (size + size) * width ≤ length table.old }
    requires row { i * width + width ≤ length memory.now }
    ensures { Doubled table.old table.new width size size (cell memory.now width i) }
{
    for e in 0..size {
        put_sum(table, memory, width, size + e, e, i);
    }
}

// The sums of all choices of `count` rows of the memory from `first` on.
fn tabulate(table: &mut [u64], memory: &[u64], width: usize, first: usize, count: usize)
    requires few { count ≤ 6 }
    requires small { first ≤ 1024 }
    requires table { 2 ^ count * width ≤ length table.old }
    requires memory { (first + count) * width ≤ length memory.now }
    ensures { Tabled table.new memory.now width first count }
{
    matrix::clear_row(table, width, 0);
    for b in 0..count {
        double(table, memory, width, 1 << b, first + b);
    }
}

// Adds row `e` of the table to row `i` of the memory.
fn add_entry(memory: &mut [u64], table: &[u64], width: usize, i: usize, e: usize)
    requires row { i * width + width ≤ length memory.old }
    requires table { e * width + width ≤ length table.now }
    ensures { RowPut memory.old memory.new width i (sum (cell memory.old width i) (cell table.now width e)) }
{
    let to = i * width;
    let from = e * width;
    bits::xor_into(&mut memory[to..to + width], &table[from..from + width]);
}

impl Tables {
    // The sums of all choices of the block's rows, and of what was done to them.
    fn tabulate(&mut self, steps: &Steps, block: Block)
        requires { block.end ≤ steps.now.n }
        ensures rows { Tabled self.new.rows steps.now.rows.now (width_of steps.now.n) block.first (block.end - block.first) }
        ensures done { Tabled self.new.done steps.now.done.now (width_of steps.now.n) block.first (block.end - block.first) }
    {
        let width = steps.width();
        let first = block.first as usize;
        let count = (block.end - block.first) as usize;
        tabulate(&mut self.rows, steps.rows, width, first, count);
        tabulate(&mut self.done, steps.done, width, first, count);
    }
}

// The number whose binary digits say which of the columns row `i` has set. Slices and not `Steps` here and in `sweep_rows`, where most of the time goes: in a struct
// that is lent, where they lie and how wide a row is would be read anew for each row and each column, a quarter of the time again.
fn entry(rows: &[u64], columns: &[u16], width: usize, n: u16, i: usize) -> usize
    requires few { length columns.now ≤ 6 }
    requires wide { n ≤ 64 * width }
    requires row { i * width + width ≤ length rows.now }
    ensures { result ≡ entry_of n width rows.now columns.now i }
{
    let mut e = 0;
    for column in columns.iter().rev() {
        e *= 2;
        if *column < n {
            // added, and not tested by an `if`: the bits are as good as random, and a branch on them is guessed wrong half the time
            e += usize::from(matrix::has(rows, width, i, *column));
        }
    }
    e
}

// Adds to each row from `low` to `high`, and to what was done to it, the sum that has the same bits in the block's pivots.
fn sweep_rows(
    rows: &mut [u64],
    done: &mut [u64],
    pivots: &[u16],
    n: u16,
    tables: &Tables,
    block: Block,
    low: u16,
    high: u16,
)
    requires small { n ≤ 1024 }
    requires rows { length rows.old ≡ n * width_of n }
    requires done { length done.old ≡ n * width_of n }
    requires pivots { length pivots.now ≡ n }
    requires within { block.end ≤ n }
    requires low { low ≤ high }
    requires high { high ≤ n }
    ensures rows { Swept (width_of n) rows.old rows.new tables.now.rows (entry_of n (width_of n) rows.old (block_of pivots.now block.first block.end)) low high }
    ensures done { Swept (width_of n) done.old done.new tables.now.done (entry_of n (width_of n) rows.old (block_of pivots.now block.first block.end)) low high }
{
    let width = matrix::width(n);
    let columns = &pivots[block.first as usize..block.end as usize];
    for i in low as usize..high as usize {
        let e = entry(rows, columns, width, n, i);
        if e != 0 {
            add_entry(rows, &tables.rows, width, i, e);
            add_entry(done, &tables.done, width, i, e);
        }
    }
}

// Adds to each row from `low` to `high` the sum that has the same bits in the block's pivots.
fn sweep(steps: &mut Steps, tables: &Tables, block: Block, low: u16, high: u16)
    requires within { block.end ≤ steps.old.n }
    requires low { low ≤ high }
    requires high { high ≤ steps.old.n }
    ensures rows { Swept (width_of steps.old.n) steps.old.rows.now steps.new.rows.now tables.now.rows (asked steps.old block.first block.end) low high }
    ensures done { Swept (width_of steps.old.n) steps.old.done.now steps.new.done.now tables.now.done (asked steps.old block.first block.end) low high }
    ensures pivots { steps.new.pivots.now ≡ steps.old.pivots.now }
    ensures place { InPlace steps.old steps.new }
{
    let n = steps.n;
    let pivots = &mut *steps.pivots;
    sweep_rows(steps.rows, steps.done, pivots, n, tables, block, low, high);
}

// Each row of the block takes its first bit as its pivot, which is cleared from the block's other rows, or is zero.
fn settle_block(steps: &mut Steps, block: Block)
    requires { block.end ≤ steps.old.n }
    ensures settled { BlockSettles steps.old.n (width_of steps.old.n) steps.old.rows.now steps.old.done.now (column_of steps.old.pivots.now) steps.new.rows.now steps.new.done.now (column_of steps.new.pivots.now) block.first block.end block.end }
    ensures place { InPlace steps.old steps.new }
{
    for t in block.first..block.end {
        steps.take_pivot(block.first, block.end, t);
    }
}

// Each row of the block takes a pivot, which is cleared from all other rows, or is zero.
fn reduce_block(steps: &mut Steps, tables: &mut Tables, block: Block)
    requires { block.end ≤ steps.old.n }
    ensures reduced { BlockReduces steps.old.n (width_of steps.old.n) steps.old.rows.now steps.old.done.now (column_of steps.old.pivots.now) steps.new.rows.now steps.new.done.now (column_of steps.new.pivots.now) block.first block.end }
    ensures place { InPlace steps.old steps.new }
{
    settle_block(steps, block);
    tables.tabulate(steps, block);
    sweep(steps, tables, block, 0, block.first);
    sweep(steps, tables, block, block.end, steps.n);
}

// Brings the rows into reduced steps; `done` says of which rows each is the sum, and `pivots` which column each owns, or `n`.
pub fn bring_into_steps(steps: &mut Steps)
    ensures steps { InSteps steps.old.n (cell steps.old.rows.now (width_of steps.old.n)) (cell steps.new.rows.now (width_of steps.old.n)) (cell steps.new.done.now (width_of steps.old.n)) (column_of steps.new.pivots.now) }
    ensures place { InPlace steps.old steps.new }
{
    let mut tables = Tables {
        rows: [0; TABLE],
        done: [0; TABLE],
    };
    let width = steps.width();
    let all = steps.n as usize;
    matrix::identity(steps.done, width, all);
    steps.no_pivots();
    let mut from = 0;
    while let Some(first) = next_row(steps, from) {
        let end = steps.n.min(first + BLOCK);
        reduce_block(steps, &mut tables, Block { first, end });
        from = end;
    }
}
