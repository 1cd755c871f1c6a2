// The steps of a system, in lent memory.
ghost use Rattle.std.specs.Prelude.{◌≡◌, ℕ, ◌*◌, ◌/◌, ◌<◌, ◌≤◌, length, ◌≢◌};
ghost use Rattle.bits.specs.Said.{FirstSet};
ghost use Rattle.matrix.specs.Cells.{width_of, row_of, cell};
ghost use Rattle.matrix.specs.Said.{RowAdded};

// The `n` rows of a system in reduced steps: the rows, of which rows of the system each is the sum, and the column that each owns, or `n` where it is zero.
// No row is told by the number `n` and not by an Option, since other languages lend the memory.
#[derive(Drop)]
pub struct Steps<'a> {
    pub n: u16,
    pub rows: &'a mut [u64],
    pub done: &'a mut [u64],
    pub pivots: &'a mut [u16],
    pub ghost small: { n ≤ 1024 },
    pub ghost rows_long: { length rows.now ≡ n * width_of n },
    pub ghost done_long: { length done.now ≡ n * width_of n },
    pub ghost pivots_long: { length pivots.now ≡ n },
}

impl<'a> Steps<'a> {
    ghost use Rattle.echelon.specs.Steps.{column_of, Reducing, Clearing, TakesPivot, Settles};
    ghost use Rattle.echelon.specs.Places.{InPlace};
    ghost use Rattle.echelon.specs.Laws.{ZeroRows};

    // How many words a row has.
    pub fn width(&self) -> usize
        ensures { result ≡ width_of self.now.n }
    {
        matrix::width(self.n)
    }

    // Whether row `i` has bit `j` set.
    pub fn has(&self, i: u16, j: u16) -> bool
        requires row { i < self.now.n }
        requires column { j / 64 < width_of self.now.n }
        ensures { result ≡ cell self.now.rows.now (width_of self.now.n) i j }
    {
        matrix::has(self.rows, self.width(), i as usize, j)
    }

    // Whether row `l` of the system is one of those that row `i` is the sum of.
    pub fn is_made_with(&self, i: u16, l: u16) -> bool
        requires row { i < self.now.n }
        requires made { l / 64 < width_of self.now.n }
        ensures { result ≡ cell self.now.done.now (width_of self.now.n) i l }
    {
        matrix::has(self.done, self.width(), i as usize, l)
    }

    // The first bit of row `i` that is set.
    pub fn first_bit(&self, i: u16) -> Option<u16>
        requires { i < self.now.n }
        ensures { FirstSet self.now.n (cell self.now.rows.now (width_of self.now.n) i) result }
    {
        matrix::first_bit(self.rows, self.width(), self.n, i as usize)
    }

    // The rows of the system that row `i` is the sum of.
    pub fn made_with(&self, i: u16) -> &[u64]
        requires { i < self.now.n }
        ensures { result.now ≡ row_of self.now.done.now (width_of self.now.n) i }
    {
        matrix::row(self.done, self.width(), i as usize)
    }

    // Adds row `from` to row `to`, in the rows and in what was done.
    pub fn add_row(&mut self, to: u16, from: u16)
        requires to { to < self.old.n }
        requires from { from < self.old.n }
        requires apart { to ≢ from }
        ensures rows { RowAdded self.old.rows.now self.new.rows.now (width_of self.old.n) to from }
        ensures done { RowAdded self.old.done.now self.new.done.now (width_of self.old.n) to from }
        ensures pivots { self.new.pivots.now ≡ self.old.pivots.now }
        ensures place { InPlace self.old self.new }
    {
        let width = self.width();
        crate::add_row(self.rows, self.done, width, to as usize, from as usize);
    }

    // Adds to row `k` each other row whose pivot column is set in it.
    fn reduce_row(&mut self, k: u16)
        requires { k < self.old.n }
        ensures reduced { Reducing self.old.n (width_of self.old.n) self.old.rows.now self.old.done.now self.new.rows.now self.new.done.now (column_of self.old.pivots.now) k self.old.n }
        ensures pivots { self.new.pivots.now ≡ self.old.pivots.now }
        ensures place { InPlace self.old self.new }
    {
        for m in 0..self.n {
            if m != k {
                // by its number: while rows are added the pivots can't be lent
                let column = self.pivots[m as usize];
                if column < self.n && self.has(k, column) {
                    self.add_row(k, m);
                }
            }
        }
    }

    // Adds row `k` to each other row from `from` to `to` that has bit `j` set.
    pub fn clear_column(&mut self, from: u16, to: u16, k: u16, j: u16)
        requires order { from ≤ to }
        requires to { to ≤ self.old.n }
        requires row { k < self.old.n }
        requires column { j / 64 < width_of self.old.n }
        ensures cleared { Clearing (width_of self.old.n) self.old.rows.now self.old.done.now self.new.rows.now self.new.done.now from to k j }
        ensures pivots { self.new.pivots.now ≡ self.old.pivots.now }
        ensures place { InPlace self.old self.new }
    {
        let width = self.width();
        crate::clear_column(
            self.rows,
            self.done,
            width,
            from as usize,
            to as usize,
            k as usize,
            j,
        );
    }

    // Row `k` takes its first bit as its pivot, which is cleared from each other row from `from` to `to`, or is zero.
    pub fn take_pivot(&mut self, from: u16, to: u16, k: u16)
        requires order { from ≤ to }
        requires to { to ≤ self.old.n }
        requires row { k < self.old.n }
        ensures taken { TakesPivot self.old.n (width_of self.old.n) self.old.rows.now self.old.done.now (column_of self.old.pivots.now) self.new.rows.now self.new.done.now (column_of self.new.pivots.now) from to k }
        ensures place { InPlace self.old self.new }
    {
        let pivot = match self.first_bit(k) {
            Some(column) => {
                self.clear_column(from, to, k, column);
                column
            }
            None => self.n,
        };
        self.pivots[k as usize] = pivot;
    }

    // Row `k` is reduced by the others, then takes a pivot, which is cleared from them, or is zero.
    pub fn settle(&mut self, k: u16)
        requires { k < self.old.n }
        ensures settled { Settles self.old.n (width_of self.old.n) self.old.rows.now self.old.done.now (column_of self.old.pivots.now) self.new.rows.now self.new.done.now (column_of self.new.pivots.now) k }
        ensures place { InPlace self.old self.new }
    {
        self.reduce_row(k);
        self.take_pivot(0, self.n, k);
    }

    // No row has a pivot.
    pub fn no_pivots(&mut self)
        ensures pivots { (i : ℕ) → i < self.old.n → column_of self.new.pivots.now i ≡ self.old.n }
        ensures rows { self.new.rows.now ≡ self.old.rows.now }
        ensures done { self.new.done.now ≡ self.old.done.now }
        ensures place { InPlace self.old self.new }
    {
        crate::no_pivots(self.pivots, self.n);
    }

    // How many rows have no pivot: as many are zero, and as many columns are free.
    pub fn zero_rows(&self) -> u16
        ensures { ZeroRows self.now.n (column_of self.now.pivots.now) result }
    {
        crate::zero_rows(self.pivots, self.n)
    }
}
