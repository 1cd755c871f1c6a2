// Rows of bits in reduced steps: a row is settled among the others by sums of rows, and what was done to the rows is kept beside them.
#![tactic(auto)]

ghost use Rattle.std.specs.Prelude.{◌≡◌, ℕ, ◌+◌, ◌*◌, ◌/◌, ◌<◌, ◌≤◌, length, ◌≢◌};
ghost use Rattle.matrix.specs.Said.{RowAdded};
ghost use Rattle.echelon.specs.Steps.{column_of, Clearing};
ghost use Rattle.echelon.specs.Laws.{SameQuiet, ZeroRows};

mod steps;

pub use steps::Steps;

// Adds row `from` to row `to`, in the rows and in what was done.
// Slices and not `Steps`, as in the next three: these hold of any width and any number of rows or pivots, which `Steps` is too narrow for.
pub fn add_row(rows: &mut [u64], done: &mut [u64], width: usize, to: usize, from: usize)
    requires rows_to { to * width + width ≤ length rows.old }
    requires rows_from { from * width + width ≤ length rows.old }
    requires done_to { to * width + width ≤ length done.old }
    requires done_from { from * width + width ≤ length done.old }
    requires apart { to ≢ from }
    ensures rows { RowAdded rows.old rows.new width to from }
    ensures done { RowAdded done.old done.new width to from }
{
    matrix::add_row(rows, width, to, from);
    matrix::add_row(done, width, to, from);
}

// Adds row `k` to each other row from `from` to `to` that has bit `j` set.
pub fn clear_column(
    rows: &mut [u64],
    done: &mut [u64],
    width: usize,
    from: usize,
    to: usize,
    k: usize,
    j: u16,
)
    requires order { from ≤ to }
    requires rows { to * width ≤ length rows.old }
    requires done { to * width ≤ length done.old }
    requires row { k * width + width ≤ length rows.old }
    requires made { k * width + width ≤ length done.old }
    requires column { j / 64 < width }
    ensures { Clearing width rows.old done.old rows.new done.new from to k j }
{
    for m in from..to {
        if m != k && matrix::has(rows, width, m, j) {
            add_row(rows, done, width, m, k);
        }
    }
}

// No row has a pivot.
pub fn no_pivots(pivots: &mut [u16], n: u16)
    ensures { (i : ℕ) → i < length pivots.new → column_of pivots.new i ≡ n }
{
    pivots.fill(n);
}

// How many rows have no pivot: as many are zero, and as many columns are free.
pub fn zero_rows(pivots: &[u16], n: u16) -> u16
    requires { length pivots.now ≡ n }
    ensures { ZeroRows n (column_of pivots.now) result }
{
    let mut zero = 0;
    // added up by a `for`, without a branch: as a chain of `filter` and `count` it takes several times as long
    for column in pivots {
        zero += u16::from(*column >= n);
    }
    zero
}

// Rows in steps have the quiet sets of the rows that they came from. It does nothing: its contract is a theorem.
pub fn same_quiet_holds()
    ensures { SameQuiet }
{}
