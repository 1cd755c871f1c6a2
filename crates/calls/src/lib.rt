// Calls and answers as bytes.
#![tactic(auto)]

ghost use Rattle.std.specs.Prelude.{◌≡◌, ◌+◌, ◌*◌, ◌/◌, ◌<◌, ◌≤◌, min, ◌∷◌, length};
ghost use Rattle.lamps.specs.Lamps.{listed};
ghost use Rattle.bits.specs.Bits.{bit_of};
ghost use Rattle.calls.specs.Bytes.{two_bytes, eight, packed, Put, Puts};
ghost use Rattle.calls.specs.Reading.{decoded, encoded};
ghost use Rattle.calls.specs.Saying.{number_of, place_of, said, written, lamps_of, with_lamps};
ghost use Rattle.calls.specs.Laws.{Reads, OfCalls, OfAnswers};

// What is asked of the desk. In bytes: the number of the call, from 0 in this order, then its lamps.
#[derive(Clone, Copy, PartialEq, Eq, Debug)]
pub enum Call {
    Wire(u16, u16),
    Turn(u16),
    Press(u16),
    Lit,
    Out,
    Ways,
}

// Why it is turned away: the bytes cease to be a call at a place, a wire would join a lamp to itself,
// a board can't be opened with so many lamps, or in so little memory, or there is no such lamp.
#[derive(Clone, Copy, PartialEq, Eq, Debug)]
pub enum Refusal {
    Unreadable(u16),
    Itself,
    BadSize,
    ShortMemory,
    NoLamp,
}

// What is answered. The last four have a number of lamps; the lamps themselves are a row of bits beside.
#[derive(Clone, Copy, PartialEq, Eq, Debug)]
pub enum Answer {
    Refused(Refusal),
    Number(u16),
    Lit(u16),
    Fewest(u16),
    SomeWay(u16),
    Never(u16),
}

impl Refusal {
    // The number by which other languages and texts know it.
    pub fn number(self) -> u8
        ensures { result ≡ number_of self }
    {
        match self {
            Refusal::Unreadable(_) => 1,
            Refusal::Itself => 2,
            Refusal::BadSize | Refusal::ShortMemory => 3,
            Refusal::NoLamp => 4,
        }
    }

    // The place that it names.
    pub fn place(self) -> u16
        ensures { result ≡ place_of self }
    {
        match self {
            Refusal::Unreadable(place) => place,
            Refusal::ShortMemory => 1,
            Refusal::Itself | Refusal::BadSize | Refusal::NoLamp => 0,
        }
    }
}

// The refusal of bytes that are not as many as their call should have.
fn ceased(bytes: &[u8], whole: u16) -> Refusal
    ensures { result ≡ Refusal.Unreadable (min (length bytes.now) whole) }
{
    Refusal::Unreadable(bytes.len().min(whole as usize) as u16)
}

// The call that the bytes are, or where they cease to be one.
#[tactic(auto, unfolding(crate::specs::Reading::decoded))]
pub fn read_call(bytes: &[u8]) -> Result<Call, Refusal>
    ensures value { result ≡ decoded bytes.now }
    ensures reads { Reads bytes.now result }
{
    match bytes {
        [0, low, high, other_low, other_high] => Ok(Call::Wire(
            u16::from_le_bytes([*low, *high]),
            u16::from_le_bytes([*other_low, *other_high]),
        )),
        [1, low, high] => Ok(Call::Turn(u16::from_le_bytes([*low, *high]))),
        [2, low, high] => Ok(Call::Press(u16::from_le_bytes([*low, *high]))),
        [3] => Ok(Call::Lit),
        [4] => Ok(Call::Out),
        [5] => Ok(Call::Ways),
        [0, ..] => Err(ceased(bytes, 5)),
        [1 | 2, ..] => Err(ceased(bytes, 3)),
        [3..=5, ..] => Err(ceased(bytes, 1)),
        _ => Err(Refusal::Unreadable(0)),
    }
}

// A number of one byte, and then one of two, the low one first.
fn with_number(number: u8, n: u16) -> [u8; 3]
    ensures { result ≡ number ∷ two_bytes n }
{
    let [low, high] = n.to_le_bytes();
    [number, low, high]
}

// Writes the bytes into the first ones, and says how many they are.
fn put(bytes: &[u8], out: &mut [u8]) -> usize
    requires { length bytes.now ≤ length out.old }
    ensures { Put bytes.now out.old out.new result }
{
    out[..bytes.len()].copy_from_slice(bytes);
    bytes.len()
}

// The same where there is room for them; else nothing is written.
fn put_if_room(bytes: &[u8], out: &mut [u8]) -> Option<usize>
    ensures { Puts bytes.now out.old out.new result }
{
    if out.len() < bytes.len() {
        return None;
    }
    Some(put(bytes, out))
}

// Writes the bytes of a call, and says how many they are; where there is no room for them nothing is written.
pub fn write_call(call: Call, out: &mut [u8]) -> Option<usize>
    ensures { Puts (encoded call) out.old out.new result }
{
    match call {
        Call::Wire(one, other) => {
            let [low, high] = one.to_le_bytes();
            let [other_low, other_high] = other.to_le_bytes();
            put_if_room(&[0, low, high, other_low, other_high], out)
        }
        Call::Turn(lamp) => put_if_room(&with_number(1, lamp), out),
        Call::Press(lamp) => put_if_room(&with_number(2, lamp), out),
        Call::Lit => put_if_room(&[3], out),
        Call::Out => put_if_room(&[4], out),
        Call::Ways => put_if_room(&[5], out),
    }
}

// Lamps as the first bits of a row. It is made to be written, and compared with nothing.
#[derive(Clone, Copy)]
struct LampRow<'a> {
    count: u16,
    row: &'a [u64],
    ghost held: { (count + 63) / 64 ≤ length row.now },
}

impl LampRow<'_> {
    // Eight of them, from lamp 8 × i on: those past the last are 0.
    fn byte(&self, i: usize) -> u8
        requires { 8 * i < self.now.count }
        ensures { result ≡ eight (listed self.now.count (bit_of self.now.row.now)) i }
    {
        let left = (self.count as usize - 8 * i).min(8);
        ((self.row[i / 8] >> (8 * (i % 8))) & ((1 << left) - 1)) as u8
    }

    // Writes them as bits, eight to a byte.
    fn fill(&self, out: &mut [u8])
        requires { length out.old ≡ (self.now.count + 7) / 8 }
        ensures { out.new ≡ packed (listed self.now.count (bit_of self.now.row.now)) }
    {
        for (i, byte) in out.iter_mut().enumerate() {
            *byte = self.byte(i);
        }
    }

    // Writes an answer of this number: how many they are, and then they themselves.
    fn write(&self, number: u8, out: &mut [u8]) -> usize
        requires { (self.now.count + 7) / 8 + 3 ≤ length out.old }
        ensures { Put (with_lamps number (listed self.now.count (bit_of self.now.row.now))) out.old out.new result }
    {
        let end = 3 + self.count.div_ceil(8) as usize;
        put(&with_number(number, self.count), out);
        self.fill(&mut out[3..end]);
        end
    }
}

// Writes the bytes of an answer, and says how many they are.
pub fn write_answer(answer: Answer, row: &[u64], out: &mut [u8]) -> usize
    requires room { (lamps_of answer + 7) / 8 + 4 ≤ length out.old }
    requires long { (lamps_of answer + 63) / 64 ≤ length row.now }
    ensures { Put (written (said answer row.now)) out.old out.new result }
{
    match answer {
        Answer::Refused(refusal) => {
            let [low, high] = refusal.place().to_le_bytes();
            put(&[0, refusal.number(), low, high], out)
        }
        Answer::Number(k) => put(&with_number(1, k), out),
        Answer::Lit(count) => LampRow { count, row }.write(2, out),
        Answer::Fewest(count) => LampRow { count, row }.write(3, out),
        Answer::SomeWay(count) => LampRow { count, row }.write(4, out),
        Answer::Never(count) => LampRow { count, row }.write(5, out),
    }
}

// The laws of calls and answers as bytes: what a caller's own proofs may lean on.
pub fn laws_stand()
    ensures calls { OfCalls }
    ensures answers { OfAnswers }
{}
