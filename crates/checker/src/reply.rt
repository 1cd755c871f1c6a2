// What a line is answered by, and how that is printed.
ghost use Rattle.std.specs.Prelude.{◌≡◌, Some};
ghost use Rattle.checker.specs.Texts.{line_found, line_for};
ghost use Rattle.checker.specs.declared.reply.Reply.{Reply};

use claims::Verdict;
use lines::Refusal;
use std::fmt;

// Nothing, a refusal, or what a claim is found to be.
#[derive(Clone, Copy, PartialEq, Eq, Debug)]
pub enum Reply {
    Nothing,
    Refused(Refusal),
    Found(Verdict),
}

// A reply is a line, or nothing.
impl fmt::Display for Reply {
    ghost output = { λ r. Some (line_for r) };

    fn fmt<W: fmt::Write>(&self, f: &mut fmt::Formatter<W>) -> fmt::Result {
        match self {
            Reply::Nothing => Ok(()),
            Reply::Refused(refusal) => writeln!(f, "{refusal}"),
            Reply::Found(Verdict::Right) => writeln!(f, "right"),
            Reply::Found(Verdict::Lamp(k)) => writeln!(f, "{k}"),
            Reply::Found(Verdict::Even) => writeln!(f, "even"),
        }
    }
}
