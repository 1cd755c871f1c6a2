// A row of the system is replaced by another while its steps are kept.
#![tactic(auto)]

ghost use Rattle.std.specs.Prelude.{◌≡◌, ℕ, ◌*◌, ◌<◌, ◌≤◌, false, length};
ghost use Rattle.gf2.specs.Rows.{only, nowhere};
ghost use Rattle.bits.specs.Bits.{bit_of};
ghost use Rattle.matrix.specs.Cells.{width_of, cell};
ghost use Rattle.matrix.specs.Said.{RowPut};
ghost use Rattle.echelon.specs.Steps.{column_of, InSteps};
ghost use Rattle.echelon.specs.Places.{InPlace};
ghost use Rattle.update.specs.Said.{Marked, Taking, Frees, Replaces, Refreshes};

use echelon::Steps;

// A row that was made with row `l`, a zero row if one was.
// It and the next two touch two of the three slices of `Steps`, and are lent those alone.
pub fn choose(done: &[u64], pivots: &[u16], n: u16, l: u16) -> Option<u16>
    requires small { n ≤ 1024 }
    requires done { length done.now ≡ n * width_of n }
    requires pivots { length pivots.now ≡ n }
    requires within { l < n }
    ensures { Taking n (width_of n) done.now (column_of pivots.now) l n result }
{
    let width = matrix::width(n);
    let mut chosen = None;
    for (i, column) in pivots.iter().enumerate() {
        let k = i as u16;
        if matrix::has(done, width, i, l) {
            if *column >= n {
                return Some(k);
            }
            chosen = Some(k);
        }
    }
    chosen
}

// Adds row `k` to each other row that was made with row `l`. It is like echelon::clear_column, but for the table that is looked at: each has a definition of its own,
// and one function of both would have to promise by a test of rows that change.
pub fn free(rows: &mut [u64], done: &mut [u64], n: u16, k: u16, l: u16)
    requires small { n ≤ 1024 }
    requires rows { length rows.old ≡ n * width_of n }
    requires done { length done.old ≡ n * width_of n }
    requires within { k < n }
    requires lamp { l < n }
    ensures { Frees n (width_of n) rows.old done.old rows.new done.new k l n }
{
    let width = matrix::width(n);
    for m in 0..n {
        if m != k && matrix::has(done, width, m as usize, l) {
            echelon::add_row(rows, done, width, m as usize, k as usize);
        }
    }
}

// Row `k` is `new`, made with row `l` alone.
pub fn put_row(rows: &mut [u64], done: &mut [u64], n: u16, k: u16, l: u16, new: &[u64])
    requires small { n ≤ 1024 }
    requires rows { length rows.old ≡ n * width_of n }
    requires done { length done.old ≡ n * width_of n }
    requires within { k < n }
    requires lamp { l < n }
    requires long { length new.now ≡ width_of n }
    ensures rows { RowPut rows.old rows.new (width_of n) k (bit_of new.now) }
    ensures done { RowPut done.old done.new (width_of n) k (only l) }
{
    let width = matrix::width(n);
    matrix::write_row(rows, width, k as usize, new);
    matrix::write_unit(done, width, k as usize, l);
}

// Replaces row `l` of the system by `new`, and keeps the steps.
pub fn replace_row(steps: &mut Steps, l: u16, new: &[u64])
    requires within { l < steps.old.n }
    requires long { length new.now ≡ width_of steps.old.n }
    ensures replaces { Replaces steps.old.n (width_of steps.old.n) steps.old.rows.now steps.old.done.now (column_of steps.old.pivots.now) steps.new.rows.now steps.new.done.now (column_of steps.new.pivots.now) l (bit_of new.now) }
    ensures place { InPlace steps.old steps.new }
{
    let n = steps.n;
    let done = &mut *steps.done;
    let pivots = &mut *steps.pivots;
    if let Some(k) = choose(done, pivots, n, l) {
        free(steps.rows, steps.done, n, k, l);
        put_row(steps.rows, steps.done, n, k, l, new);
        steps.settle(k);
    }
}

// Replaces each marked row of the system by that of the wires, and clears the marks.
pub fn refresh(wires: &[u64], steps: &mut Steps, marks: &mut [u64])
    requires wires { steps.old.n * width_of steps.old.n ≤ length wires.now }
    requires marks { length marks.old ≡ width_of steps.old.n }
    ensures steps { Refreshes steps.old.n (width_of steps.old.n) wires.now marks.old steps.old.rows.now steps.old.done.now (column_of steps.old.pivots.now) steps.new.rows.now steps.new.done.now (column_of steps.new.pivots.now) }
    ensures place { InPlace steps.old steps.new }
    ensures cleared { (j : ℕ) → bit_of marks.new j ≡ false }
{
    let width = steps.width();
    for l in 0..steps.n {
        if bits::get(marks, l) {
            replace_row(steps, l, matrix::row(wires, width, l as usize));
        }
    }
    bits::zero(marks);
}

// The steps of a system of zeros.
fn zero_steps(steps: &mut Steps)
    ensures steps { InSteps steps.old.n (λ _. nowhere) (cell steps.new.rows.now (width_of steps.old.n)) (cell steps.new.done.now (width_of steps.old.n)) (column_of steps.new.pivots.now) }
    ensures place { InPlace steps.old steps.new }
{
    let width = steps.width();
    bits::zero(steps.rows);
    matrix::identity(steps.done, width, steps.n as usize);
    steps.no_pivots();
}

// Sets each of the first `n` bits, and no other.
fn set_first(row: &mut [u64], n: u16)
    requires { n ≤ 64 * length row.old }
    ensures { Marked row.new n }
{
    bits::zero(row);
    for i in 0..n {
        bits::flip(row, i);
    }
}

// The steps of a system of zeros, with every row marked. Here and in `renew` the slices come one by one: of a struct of steps that is made from the fields of
// another struct, that one would not learn what was written.
pub fn start(rows: &mut [u64], done: &mut [u64], pivots: &mut [u16], marks: &mut [u64], n: u16)
    requires small { n ≤ 1024 }
    requires rows { length rows.old ≡ n * width_of n }
    requires done { length done.old ≡ n * width_of n }
    requires pivots { length pivots.old ≡ n }
    requires marks { length marks.old ≡ width_of n }
    ensures steps { InSteps n (λ _. nowhere) (cell rows.new (width_of n)) (cell done.new (width_of n)) (column_of pivots.new) }
    ensures marked { Marked marks.new n }
{
    zero_steps(&mut Steps {
        n,
        rows,
        done,
        pivots,
    });
    set_first(marks, n);
}

// The steps of the wires, from nothing.
pub fn from_nothing(wires: &[u64], steps: &mut Steps, marks: &mut [u64])
    requires { length wires.now ≡ steps.old.n * width_of steps.old.n }
    ensures steps { InSteps steps.old.n (cell wires.now (width_of steps.old.n)) (cell steps.new.rows.now (width_of steps.old.n)) (cell steps.new.done.now (width_of steps.old.n)) (column_of steps.new.pivots.now) }
    ensures place { InPlace steps.old steps.new }
    ensures cleared { (j : ℕ) → bit_of marks.new j ≡ false }
{
    steps.rows.copy_from_slice(wires);
    blocks::bring_into_steps(steps);
    bits::zero(marks);
}

// The steps become those of the wires, and the marks are cleared: row by row if at most an eighth of the rows is marked, and else from nothing.
pub fn renew(
    wires: &[u64],
    rows: &mut [u64],
    done: &mut [u64],
    pivots: &mut [u16],
    marks: &mut [u64],
    n: u16,
)
    requires small { n ≤ 1024 }
    requires wires { length wires.now ≡ n * width_of n }
    requires rows { length rows.old ≡ n * width_of n }
    requires done { length done.old ≡ n * width_of n }
    requires pivots { length pivots.old ≡ n }
    requires marks { length marks.old ≡ width_of n }
    ensures steps { Refreshes n (width_of n) wires.now marks.old rows.old done.old (column_of pivots.old) rows.new done.new (column_of pivots.new) }
    ensures cleared { (j : ℕ) → bit_of marks.new j ≡ false }
{
    let mut steps = Steps {
        n,
        rows,
        done,
        pivots,
    };
    if bits::count(marks) > n as u32 / 8 {
        from_nothing(wires, &mut steps, marks);
    } else {
        refresh(wires, &mut steps, marks);
    }
}
