// A row of bits in words of 64 bits, in memory that the caller lends.
#![tactic(auto)]

ghost use Rattle.std.specs.Prelude.{◌≡◌, ℕ, ◌*◌, ◌/◌, ◌<◌, ◌≤◌, false, length, ◌==◌};
ghost use Rattle.gf2.specs.Rows.{differ, tally, dot};
ghost use Rattle.bits.specs.Bits.{bit_of};
ghost use Rattle.bits.specs.Said.{Added, FirstSet};

// Whether bit `k` of the row is set.
pub fn get(row: &[u64], k: u16) -> bool
    requires { k / 64 < length row.now }
    ensures { result ≡ bit_of row.now k }
{
    (row[(k / 64) as usize] >> (k % 64)) & 1 == 1
}

// Turns bit `k` of the row over, and leaves every other as it is.
pub fn flip(row: &mut [u64], k: u16)
    requires { k / 64 < length row.old }
    ensures { (i : ℕ) → bit_of row.new i ≡ differ (bit_of row.old i) (i == k) }
{
    row[(k / 64) as usize] ^= 1 << (k % 64);
}

// Writes 0 into each word: no bit is set.
pub fn zero(row: &mut [u64])
    ensures { (k : ℕ) → bit_of row.new k ≡ false }
{
    row.fill(0);
}

// Adds a row to another, bit by bit: a bit of `to` is turned over where `from` has it set.
pub fn xor_into(to: &mut [u64], from: &[u64])
    requires { length to.old ≡ length from.now }
    ensures { Added to.new to.old from.now }
{
    // the other row by its place: of what is written in step with it, by `zip`, the proof knows nothing afterwards
    for (i, word) in to.iter_mut().enumerate() {
        *word ^= from[i];
    }
}

// How many bits of a row of at most sixteen words are set.
pub fn count(row: &[u64]) -> u32
    requires { length row.now ≤ 16 }
    ensures { result ≡ tally (bit_of row.now) (64 * length row.now) }
{
    let mut set = 0;
    for word in row {
        set += word.count_ones();
    }
    set
}

// Whether two rows have an odd number of set bits in common.
pub fn parity_and(a: &[u64], b: &[u64]) -> bool
    requires { length a.now ≡ length b.now }
    ensures { result ≡ dot (64 * length a.now) (bit_of a.now) (bit_of b.now) }
{
    let mut sum = 0;
    // by its place, as in xor_into
    for (i, word) in a.iter().enumerate() {
        sum ^= *word & b[i];
    }
    sum.count_ones() % 2 == 1
}

// The first of the first `n` bits that the row has set.
pub fn first_set(row: &[u64], n: u16) -> Option<u16>
    requires { length row.now ≤ 16 }
    ensures { FirstSet n (bit_of row.now) result }
{
    for (i, word) in row.iter().enumerate() {
        if *word != 0 {
            let j = 64 * (i as u16) + word.trailing_zeros() as u16;
            return (j < n).then_some(j);
        }
    }
    None
}
