// Reads off a system in reduced steps: presses that make what is lit, or the lamps that show that there are none, and how many ways there are.
#![tactic(auto)]

ghost use Rattle.std.specs.Prelude.{◌≡◌, ℕ, ◌*◌, ◌≤◌, List, length};
ghost use Rattle.gf2.specs.Rows.{Rows, tally};
ghost use Rattle.gf2.specs.Reduction.{Tracks, Pivots};
ghost use Rattle.lamps.specs.Lamps.{Lamps, Wire, at, table};
ghost use Rattle.bits.specs.Bits.{bit_of};
ghost use Rattle.matrix.specs.Cells.{width_of, cell, Spare};
ghost use Rattle.echelon.specs.Steps.{column_of};
ghost use Rattle.solve.specs.Solved.{Within, Solved, Tells, Counts, zero_row};

// Writes presses that make what is lit and answers true; or writes the lamps that show that none do, and answers false. Which of the two stands in `out` is all
// that there is to say: a bool, and no enum: of one with a row in it the row would be lent, and one without would say what the bool says, which the definitions take.
// It is given what it reads, and not `Steps`, which would have to be lent to be written and have the rows in it.
pub fn solve(done: &[u64], pivots: &[u16], n: u16, lit: &[u64], out: &mut [u64]) -> bool
    requires small { n ≤ 1024 }
    requires done { length done.now ≡ n * width_of n }
    requires pivots { length pivots.now ≡ n }
    requires lit { length lit.now ≡ width_of n }
    requires out { length out.old ≡ width_of n }
    ensures system { Within n (bit_of lit.now) → Spare n (cell done.now (width_of n)) → Solved n (cell done.now (width_of n)) (column_of pivots.now) (bit_of lit.now) (bit_of out.new) result }
    ensures board { (ws : List Wire) (s : Lamps) (R : Rows) → length s ≡ n → ((k : ℕ) → bit_of lit.now k ≡ at s k) → Spare n (cell done.now (width_of n)) → Tracks n (table ws) R (cell done.now (width_of n)) → Pivots n R (column_of pivots.now) → Tells n ws s (bit_of out.new) result }
{
    let width = matrix::width(n);
    bits::zero(out);
    for (i, column) in pivots.iter().enumerate() {
        let made = matrix::row(done, width, i);
        if bits::parity_and(made, lit) {
            if *column >= n {
                out.copy_from_slice(made);
                return false;
            }
            bits::flip(out, *column);
        }
    }
    true
}

// How many rows are zero: as many as there are columns without a pivot, and two to that many ways, if there is one.
// It is given pivots and not `Steps`: it holds of any number of them.
pub fn zero_rows(pivots: &[u16], n: u16) -> u16
    requires { length pivots.now ≡ n }
    ensures rows { result ≡ tally (zero_row n (column_of pivots.now)) n }
    ensures board { (ws : List Wire) (R T : Rows) → Tracks n (table ws) R T → Pivots n R (column_of pivots.now) → Counts n ws result }
{
    echelon::zero_rows(pivots, n)
}
