// The lines of a text, read from bytes: calls, and claims about a board.
#![tactic(auto)]

ghost use Rattle.std.specs.Prelude.{◌≡◌, ℕ, ◌≤◌, Ok, Err, Result, drop, slice_index};
ghost use Rattle.std.specs.List.{fold};
ghost use Rattle.lines.specs.Readers.{has as holds, here, found, ends, word, number as numeral, numbers, next, binary, bits, further};
ghost use Rattle.lines.specs.Laws.{OfLines, OfClaims};
ghost use Rattle.lines.specs.Lines.{line_of, claim_of, says_nothing, serves, after};

use calls::Call;

mod refusal;

pub use refusal::Refusal;

// What a line of calls says.
#[derive(Clone, Copy, PartialEq, Eq, Debug)]
pub enum Line {
    Lamps(u16),
    Grid(u16, u16),
    Call(Call),
    Nothing,
}

// What a line of a board and of claims says: a set of lamps has lamp 0 in the lowest bit.
#[derive(Clone, Copy, PartialEq, Eq, Debug)]
pub enum Claim {
    Lamps(u16),
    Wire(u16, u16),
    Turn(u16),
    Press(u64),
    Never(u64),
    Nothing,
}

// A line and a place of it stay two parameters in what follows: a struct of the two is no plainer, since clauses and callers name each place by its number.

// Whether the byte stands at a place of the line.
fn has(line: &[u8], at: usize, byte: u8) -> bool
    ensures { result ≡ holds line.now at byte }
{
    line.get(at) == Some(&byte)
}

// The place after the word that the line has at `at`, or the place where it leaves the word.
fn pass(line: &[u8], at: usize, keyword: &[u8]) -> Result<usize, usize>
    ensures { result ≡ word keyword.now here at (drop at line.now) }
{
    for (i, byte) in keyword.iter().enumerate() {
        if !has(line, at + i, *byte) {
            return Err(at + i);
        }
    }
    Ok(at + keyword.len())
}

// The byte at a place of the line, or 0 past its end, which is no digit: so the definitions read it.
fn byte_at(line: &[u8], at: usize) -> u8
    ensures { result ≡ slice_index line.now at }
{
    line.get(at).copied().unwrap_or(0)
}

// The number with one more digit, if the byte is a digit that takes it on to at most 65,535.
fn extended(value: u16, byte: u8) -> Option<u16>
    ensures { result ≡ next value byte }
{
    if !byte.is_ascii_digit() {
        return None;
    }
    value.checked_mul(10)?.checked_add((byte - b'0') as u16)
}

// The number that stands at `at`, with the place after it; or the place of the first byte that doesn't fit.
fn number(line: &[u8], at: usize) -> Result<(u16, usize), usize>
    ensures { result ≡ numeral found at (drop at line.now) }
{
    if extended(0, byte_at(line, at)).is_none() {
        return Err(at);
    }
    let mut value = 0;
    for (i, byte) in line[at..].iter().enumerate() {
        let Some(more) = extended(value, *byte) else {
            return Ok((value, at + i));
        };
        value = more;
    }
    Ok((value, line.len()))
}

// That the line ends at `at`; or that place.
fn end(line: &[u8], at: usize) -> Result<(), usize>
    ensures { result ≡ ends tt at (drop at line.now) }
{
    if at < line.len() { Err(at) } else { Ok(()) }
}

// The two numbers, one space between them, that stand at `at`, with the place after them; or the place of the first byte that doesn't fit.
#[tactic(auto, using(crate::proofs::Forms::numbers_then, crate::proofs::Forms::stopped))]
fn pair(line: &[u8], at: usize) -> Result<((u16, u16), usize), usize>
    ensures { result ≡ numbers found at (drop at line.now) }
{
    let (i, at) = number(line, at)?;
    let at = pass(line, at, b" ")?;
    let (j, at) = number(line, at)?;
    Ok(((i, j), at))
}

// Whether the byte is a digit 0 or 1.
fn is_binary(byte: u8) -> bool
    ensures { result ≡ binary byte }
{
    byte == b'0' || byte == b'1'
}

// The set of `n` lamps whose digits, 0 or 1, stand at `at`, with the place after them; or the place of the first byte that doesn't fit.
fn digits(line: &[u8], at: usize, n: u16) -> Result<(u64, usize), usize>
    requires { n ≤ 64 }
    ensures { result ≡ bits n found at (drop at line.now) }
{
    if n == 0 {
        return Ok((0, at));
    }
    let byte = byte_at(line, at);
    if !is_binary(byte) {
        return Err(at);
    }
    let (later, end) = digits(line, at + 1, n - 1)?;
    Ok(((byte - b'0') as u64 + 2 * later, end))
}

// What the reading finds behind the keyword, where the line ends after it; or the place where the line leaves this form.
fn after<X: Drop, R: FnOnce(&[u8], usize) -> Result<(X, usize), usize>>(
    line: &[u8],
    keyword: &[u8],
    reading: R,
) -> Result<X, usize>
    requires { R.IsAlwaysCallable reading }
    ensures { (read : ℕ → Result (X × ℕ) ℕ) → ((bs : _) (at : ℕ) (r : _) → bs.now ≡ line.now → R.post reading bs at r → r ≡ read at) → result ≡ after keyword.now read line.now }
{
    let at = pass(line, 0, keyword)?;
    let (found, at) = reading(line, at)?;
    end(line, at)?;
    Ok(found)
}

// Whether the line is empty or begins with `#`.
fn says_nothing(line: &[u8]) -> bool
    ensures { result ≡ says_nothing line.now }
{
    matches!(line, [] | [b'#', ..])
}

// Whether a board of `n` lamps is served.
fn is_served(n: u16) -> bool
    ensures { result ≡ serves n }
{
    (1..=64).contains(&n)
}

// The first of the readings that comes to the end of its line, or the furthest place to which one comes.
#[tactic(auto, using(crate::proofs::Steps::read_found, crate::proofs::Steps::read_far))]
fn furthest<X: Copy>(readings: &[Result<X, usize>]) -> Result<X, usize>
    ensures { result ≡ fold further (Err 0) readings.now }
{
    let mut far = 0;
    for reading in readings {
        match *reading {
            Ok(found) => return Ok(found),
            Err(place) => far = far.max(place),
        }
    }
    Err(far)
}

// What a line of calls says, or the place where it can't be read on.
pub fn read_line(line: &[u8]) -> Result<Line, usize>
    ensures { result ≡ line_of line.now }
{
    if says_nothing(line) {
        return Ok(Line::Nothing);
    }
    furthest(&[
        after(line, b"lamps ", number).map(Line::Lamps),
        after(line, b"grid ", pair).map(|(w, h)| Line::Grid(w, h)),
        after(line, b"wire ", pair).map(|(i, j)| Line::Call(Call::Wire(i, j))),
        after(line, b"turn ", number).map(|i| Line::Call(Call::Turn(i))),
        after(line, b"press ", number).map(|i| Line::Call(Call::Press(i))),
        after(line, b"lit", |_, at| Ok(((), at))).map(|()| Line::Call(Call::Lit)),
        after(line, b"out", |_, at| Ok(((), at))).map(|()| Line::Call(Call::Out)),
        after(line, b"ways", |_, at| Ok(((), at))).map(|()| Line::Call(Call::Ways)),
    ])
}

// What a line of a board of `n` lamps and of claims about it says, or the place where it can't be read on.
// `n` counts lamps, as claim_of has it, so it is 0 where there is no board yet, and no Option.
pub fn read_claim(line: &[u8], n: u16) -> Result<Claim, usize>
    ensures { result ≡ claim_of n line.now }
{
    if says_nothing(line) {
        return Ok(Claim::Nothing);
    }
    let board = furthest(&[
        after(line, b"lamps ", number).map(Claim::Lamps),
        after(line, b"wire ", pair).map(|(i, j)| Claim::Wire(i, j)),
        after(line, b"turn ", number).map(Claim::Turn),
    ]);
    if !is_served(n) {
        return board;
    }
    furthest(&[
        board,
        after(line, b"press ", |line, at| digits(line, at, n)).map(Claim::Press),
        after(line, b"never, by ", |line, at| digits(line, at, n)).map(Claim::Never),
    ])
}

// The laws of lines: where a line is refused, and that what is printed is read as what it was.
pub fn laws_stand()
    ensures lines { OfLines }
    ensures claims { OfClaims }
{}
