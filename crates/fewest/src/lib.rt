// The fewest presses among all ways, and the fewest lamps among all sets that show that there is none.
#![tactic(auto)]

ghost use Rattle.std.specs.Prelude.{◌≡◌, ℕ, Bool, ◌+◌, ◌*◌, ◌<◌, ◌≤◌, length};
ghost use Rattle.std.specs.Option.{IfSome, option_copied};
ghost use Rattle.gf2.specs.Rows.{Rows, tally};
ghost use Rattle.gf2.specs.Reduction.{Tracks, Pivots};
ghost use Rattle.bits.specs.Bits.{bit_of};
ghost use Rattle.solve.specs.Solved.{Within, zero_row};
ghost use Rattle.matrix.specs.Cells.{width_of, cell, Spare};
ghost use Rattle.echelon.specs.Steps.{column_of};
ghost use Rattle.fewest.specs.Sets.{taken, free, QuietSet, Copied, Written, Collected, Spans, OneChoice, Least, may_take, FewestWay, FewestNever};

// Writes the quiet set of the free column `f`: bit `f`, and the pivot of each row that has bit `f`.
// Slices and not `Steps`: the public functions here read two of its three, and are lent those alone.
pub fn quiet_set(rows: &[u64], pivots: &[u16], n: u16, f: u16, out: &mut [u64])
    requires small { n ≤ 1024 }
    requires rows { length rows.now ≡ n * width_of n }
    requires pivots { length pivots.now ≡ n }
    requires column { f < n }
    requires out { length out.old ≡ width_of n }
    ensures { QuietSet n (cell rows.now (width_of n)) (column_of pivots.now) f (bit_of out.new) }
{
    let width = matrix::width(n);
    bits::zero(out);
    bits::flip(out, f);
    for (i, column) in pivots.iter().enumerate() {
        if *column < n && matrix::has(rows, width, i, f) {
            bits::flip(out, *column);
        }
    }
}

// Sets the bit of each column that is some row's pivot, and no other.
fn mark_pivots(pivots: &[u16], n: u16, columns: &mut [u64])
    requires { n ≤ 64 * length columns.old }
    ensures { (j : ℕ) → j < n → bit_of columns.new j ≡ taken (length pivots.now) (column_of pivots.now) j }
{
    bits::zero(columns);
    for column in pivots {
        if *column < n && !bits::get(columns, *column) {
            bits::flip(columns, *column);
        }
    }
}

// How many of the columns, or of the rows, count; a row for each of the first sixteen is written into `sets`, one after another.
fn collect_by<C: Fn(u16) -> bool, W: Fn(u16, &mut [u64])>(
    n: u16,
    counts: C,
    write: W,
    sets: &mut [u64],
) -> u16
    requires sets { 16 * width_of n ≤ length sets.old }
    requires counts { (i : ℕ) → i < n → C.pre counts i }
    requires writes { (i : ℕ) (row : _) → i < n → length row.now ≡ width_of n → W.pre write i row }
    ensures { (g : ℕ → Bool) → ((i : ℕ) (b : Bool) → i < n → C.post counts i b → b ≡ g i) → Collected g (Written (width_of n) (λ i row row'. W.post write i row tt row')) n result (cell sets.new (width_of n)) }
{
    let width = matrix::width(n);
    let mut k = 0;
    for i in 0..n {
        if counts(i) {
            if k < 16 {
                let start = k as usize * width;
                write(i, &mut sets[start..start + width]);
            }
            // all are counted, and the first sixteen written
            k += 1;
        }
    }
    k
}

// How many columns are free; the quiet sets of the first sixteen are written into `sets`, one after another. If there are no more,
// every set of presses that does nothing is the sum of one choice of them, and of no other.
pub fn collect(rows: &[u64], pivots: &[u16], n: u16, sets: &mut [u64]) -> u16
    requires small { n ≤ 1024 }
    requires rows { length rows.now ≡ n * width_of n }
    requires pivots { length pivots.now ≡ n }
    requires sets { 16 * width_of n ≤ length sets.old }
    ensures sets { Collected (free n (column_of pivots.now)) (QuietSet n (cell rows.now (width_of n)) (column_of pivots.now)) n result (cell sets.new (width_of n)) }
    ensures spans { result ≤ 16 → (A T : Rows) → Tracks n A (cell rows.now (width_of n)) T → Pivots n (cell rows.now (width_of n)) (column_of pivots.now) → Spans n A result (cell sets.new (width_of n)) × OneChoice n result (cell sets.new (width_of n)) }
{
    // as many words as the widest row has: nothing here asks for memory
    let mut columns = [0; 16];
    mark_pivots(pivots, n, &mut columns);
    collect_by(
        n,
        |f| !bits::get(&columns, f),
        |f, row| quiet_set(rows, pivots, n, f, row),
        sets,
    )
}

// How many rows are zero; what was done to make the first sixteen is copied into `sets`, one after another.
pub fn collect_zero(done: &[u64], pivots: &[u16], n: u16, sets: &mut [u64]) -> u16
    requires small { n ≤ 1024 }
    requires done { length done.now ≡ n * width_of n }
    requires pivots { length pivots.now ≡ n }
    requires sets { 16 * width_of n ≤ length sets.old }
    ensures { Collected (zero_row n (column_of pivots.now)) (Copied (cell done.now (width_of n))) n result (cell sets.new (width_of n)) }
{
    let width = matrix::width(n);
    collect_by(
        n,
        |i| pivots[i as usize] >= n,
        |i, row| row.copy_from_slice(matrix::row(done, width, i as usize)),
        sets,
    )
}

// Whether the row may be taken: if it is to be odd `against` a set, it has an odd number of bits in common with it.
fn accepted(row: &[u64], against: &Option<&[u64]>) -> bool
    requires { IfSome against.now (λ set. length set.now ≡ length row.now) }
    ensures { result ≡ may_take (64 * length row.now) (option_copied against.now) (bit_of row.now) }
{
    match against {
        Some(set) => bits::parity_and(row, set),
        None => true,
    }
}

// Goes through the sums of `current` with some of the first `k` sets, and keeps the least that may be taken in `best`, of `best_count` bits.
// The sets come beside their number, which is one less at each call. `against` is lent: a copy of it for each call takes a third of the time again.
pub fn least(
    k: usize,
    current: &mut [u64],
    best: &mut [u64],
    best_count: u32,
    sets: &[u64],
    against: &Option<&[u64]>,
) -> u32
    requires narrow { length current.old ≤ 16 }
    requires best { length best.old ≡ length current.old }
    requires sets { k * length current.old ≤ length sets.now }
    requires counted { best_count ≡ tally (bit_of best.old) (64 * length current.old) }
    requires against { IfSome against.now (λ set. length set.now ≡ length current.old) }
    ensures back { current.new ≡ current.old }
    ensures least { Least (64 * length current.old) k (cell sets.now (length current.old)) (may_take (64 * length current.old) (option_copied against.now)) (bit_of current.old) (bit_of best.old) (bit_of best.new) best_count result }
{
    if k == 0 {
        let count = bits::count(current);
        if count < best_count && accepted(current, against) {
            best.copy_from_slice(current);
            return count;
        }
        return best_count;
    }
    let set = matrix::row(sets, current.len(), k - 1);
    let without = least(k - 1, current, best, best_count, sets, against);
    bits::xor_into(current, set);
    let with = least(k - 1, current, best, without, sets, against);
    bits::xor_into(current, set);
    with
}

// The row becomes the least among its sums with some of the first `k` sets that may be taken.
fn improve(row: &mut [u64], k: usize, sets: &[u64], against: &Option<&[u64]>)
    requires narrow { length row.old ≤ 16 }
    requires sets { k * length row.old ≤ length sets.now }
    requires against { IfSome against.now (λ set. length set.now ≡ length row.old) }
    ensures { Least (64 * length row.old) k (cell sets.now (length row.old)) (may_take (64 * length row.old) (option_copied against.now)) (bit_of row.old) (bit_of row.old) (bit_of row.new) (tally (bit_of row.old) (64 * length row.old)) (tally (bit_of row.new) (64 * length row.old)) }
{
    // as many words as the widest row has: nothing here asks for memory
    let mut space = [0; 16];
    let current = &mut space[0..row.len()];
    current.copy_from_slice(row);
    let count = bits::count(row);
    let _ = least(k, current, row, count, sets, against);
}

// From a way, one with the fewest presses, if at most sixteen columns are free; else the same. Returns how many are free.
pub fn fewest_way(rows: &[u64], pivots: &[u16], n: u16, way: &mut [u64]) -> u16
    requires small { n ≤ 1024 }
    requires rows { length rows.now ≡ n * width_of n }
    requires pivots { length pivots.now ≡ n }
    requires way { length way.old ≡ width_of n }
    ensures { FewestWay n (cell rows.now (width_of n)) (column_of pivots.now) way.old way.new result }
{
    let k = echelon::zero_rows(pivots, n);
    if k <= 16 {
        // sixteen rows of the widest
        let mut sets = [0; 256];
        let _ = collect(rows, pivots, n, &mut sets);
        improve(way, k as usize, &sets, &None);
    }
    k
}

// From a set that shows that there is no way, one with the fewest lamps, if at most sixteen rows are zero; else the same. Returns how many are zero.
pub fn fewest_never(done: &[u64], pivots: &[u16], n: u16, lit: &[u64], set: &mut [u64]) -> u16
    requires small { n ≤ 1024 }
    requires done { length done.now ≡ n * width_of n }
    requires pivots { length pivots.now ≡ n }
    requires lit { length lit.now ≡ width_of n }
    requires set { length set.old ≡ width_of n }
    ensures { Within n (bit_of lit.now) → Spare n (cell done.now (width_of n)) → FewestNever n (cell done.now (width_of n)) (column_of pivots.now) (bit_of lit.now) set.old set.new result }
{
    // sixteen rows of the widest
    let mut sets = [0; 256];
    let k = collect_zero(done, pivots, n, &mut sets);
    if k <= 16 {
        improve(set, k as usize, &sets, &Some(lit));
    }
    k
}
