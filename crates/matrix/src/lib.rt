// A matrix of bits in lent memory: rows of `width` words, one after another. A row is a part of the memory that starts in its middle.
// Memory and width are two parameters: a struct of the two would be one for what is lent to be read and another for what is lent to be written.
#![tactic(auto)]

ghost use Rattle.std.specs.Prelude.{◌≡◌, ◌+◌, ◌*◌, ◌/◌, ◌<◌, ◌≤◌, length, ◌≢◌};
ghost use Rattle.gf2.specs.Rows.{nowhere, only, dot};
ghost use Rattle.bits.specs.Bits.{bit_of};
ghost use Rattle.bits.specs.Said.{FirstSet};
ghost use Rattle.matrix.specs.Cells.{width_of, row_of, cell};
ghost use Rattle.matrix.specs.Said.{RowPut, RowAdded, Flipped, Identity};

// How many words a row of `n` bits has.
pub fn width(n: u16) -> usize
    ensures { result ≡ width_of n }
{
    (n as usize).div_ceil(64)
}

// Row `i`.
pub fn row(memory: &[u64], width: usize, i: usize) -> &[u64]
    requires { i * width + width ≤ length memory.now }
    ensures { result.now ≡ row_of memory.now width i }
{
    let start = i * width;
    &memory[start..start + width]
}

// Whether row `i` has bit `j` set.
pub fn has(memory: &[u64], width: usize, i: usize, j: u16) -> bool
    requires fits { i * width + width ≤ length memory.now }
    requires within { j / 64 < width }
    ensures { result ≡ cell memory.now width i j }
{
    bits::get(row(memory, width, i), j)
}

// The first of the first `n` bits that row `i` has set.
pub fn first_bit(memory: &[u64], width: usize, n: u16, i: usize) -> Option<u16>
    requires narrow { width ≤ 16 }
    requires fits { i * width + width ≤ length memory.now }
    ensures { FirstSet n (cell memory.now width i) result }
{
    bits::first_set(row(memory, width, i), n)
}

// Whether row `i` and another row have an odd number of set bits in common.
pub fn dot_row(memory: &[u64], width: usize, i: usize, other: &[u64]) -> bool
    requires fits { i * width + width ≤ length memory.now }
    requires long { length other.now ≡ width }
    ensures { result ≡ dot (64 * width) (cell memory.now width i) (bit_of other.now) }
{
    bits::parity_and(row(memory, width, i), other)
}

// Turns bit `j` of row `i` over.
pub fn flip_cell(memory: &mut [u64], width: usize, i: usize, j: u16)
    requires fits { i * width + width ≤ length memory.old }
    requires within { j / 64 < width }
    ensures { Flipped memory.old memory.new width i j }
{
    let start = i * width;
    bits::flip(&mut memory[start..start + width], j);
}

// Adds row `j` to row `i`, bit by bit.
pub fn add_row(memory: &mut [u64], width: usize, i: usize, j: usize)
    requires to { i * width + width ≤ length memory.old }
    requires from { j * width + width ≤ length memory.old }
    requires apart { i ≢ j }
    ensures { RowAdded memory.old memory.new width i j }
{
    let to = i * width;
    let from = j * width;
    // by place: both rows lie in one slice, and an iterator over one of them would keep the other from being read
    for k in 0..width {
        memory[to + k] ^= memory[from + k];
    }
}

// Writes `from` into row `i`.
pub fn write_row(memory: &mut [u64], width: usize, i: usize, from: &[u64])
    requires fits { i * width + width ≤ length memory.old }
    requires long { length from.now ≡ width }
    ensures { RowPut memory.old memory.new width i (bit_of from.now) }
{
    let start = i * width;
    memory[start..start + width].copy_from_slice(from);
}

// Writes zeros into row `i`.
pub fn clear_row(memory: &mut [u64], width: usize, i: usize)
    requires { i * width + width ≤ length memory.old }
    ensures { RowPut memory.old memory.new width i nowhere }
{
    let start = i * width;
    bits::zero(&mut memory[start..start + width]);
}

// Row `i` has bit `j` set alone.
pub fn write_unit(memory: &mut [u64], width: usize, i: usize, j: u16)
    requires fits { i * width + width ≤ length memory.old }
    requires within { j / 64 < width }
    ensures { RowPut memory.old memory.new width i (only j) }
{
    clear_row(memory, width, i);
    flip_cell(memory, width, i, j);
}

// Row `i` has bit `i` set alone, in each of the first `n`; all else is zero.
pub fn identity(memory: &mut [u64], width: usize, n: usize)
    requires small { n ≤ 1024 }
    requires fits { n * width ≤ length memory.old }
    requires wide { n ≤ 64 * width }
    ensures { Identity width memory.new n }
{
    bits::zero(memory);
    for i in 0..n {
        flip_cell(memory, width, i, i as u16);
    }
}
