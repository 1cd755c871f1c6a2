// What a line is answered by, and how that is printed.
ghost use Rattle.std.specs.Prelude.{◌≡◌, ◌≤◌, Some};
ghost use Rattle.calls.specs.Saying.{lamps_of, meant, said};
ghost use Rattle.text.specs.Lines.{numbered, told, line_for};

use super::lamp_set::LampSet;
use calls::{Answer, Call};
use lines::Refusal;
use std::fmt;

// Nothing, a refusal, or that a board of so many lamps is open; to a call its lamp, in how many ways everything goes out, or lamps.
#[derive(Clone, Copy, PartialEq, Eq, Debug)]
pub enum Reply {
    Nothing,
    Refused(Refusal),
    Opened(u16),
    Lamp(u16),
    NoWay,
    TwoToThe(u16),
    Lit(LampSet),
    Fewest(LampSet),
    SomeWay(LampSet),
    Never(LampSet),
}

// A reply is a line, or nothing.
impl fmt::Display for Reply {
    ghost output = { λ r. Some (line_for r) };

    fn fmt<W: fmt::Write>(&self, f: &mut fmt::Formatter<W>) -> fmt::Result {
        match self {
            Reply::Nothing => Ok(()),
            Reply::Refused(refusal) => writeln!(f, "{refusal}"),
            Reply::Opened(lamps) => writeln!(f, "lamps {lamps}"),
            Reply::Lamp(k) => writeln!(f, "lamp {k}"),
            Reply::NoWay => writeln!(f, "no way"),
            Reply::TwoToThe(k) => writeln!(f, "2^{k} ways"),
            Reply::Lit(lamps) => writeln!(f, "lit {lamps}"),
            Reply::Fewest(lamps) => writeln!(f, "press {lamps}"),
            Reply::SomeWay(lamps) => writeln!(f, "some way, press {lamps}"),
            Reply::Never(lamps) => writeln!(f, "never, by {lamps}"),
        }
    }
}

// The reply to a call that is answered by a number.
fn number(call: Call, k: u16) -> Reply
    ensures { line_for result ≡ numbered (meant call) k }
{
    match (call, k) {
        (Call::Ways, 0) => Reply::NoWay,
        (Call::Ways, k) => Reply::TwoToThe(k - 1),
        _ => Reply::Lamp(k),
    }
}

// The reply to a call: what its answer says.
pub fn tell(call: Call, answer: Answer, row: [u64; 1]) -> Reply
    requires { lamps_of answer ≤ 64 }
    ensures { line_for result ≡ told (meant call) (said answer row) }
{
    match answer {
        Answer::Refused(why) => Reply::Refused(Refusal::Call(why)),
        Answer::Number(k) => number(call, k),
        Answer::Lit(count) => Reply::Lit(LampSet { count, row }),
        Answer::Fewest(count) => Reply::Fewest(LampSet { count, row }),
        Answer::SomeWay(count) => Reply::SomeWay(LampSet { count, row }),
        Answer::Never(count) => Reply::Never(LampSet { count, row }),
    }
}
