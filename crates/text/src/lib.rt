// Calls in text: a line for each call, and a line for each answer. A board has at most 64 lamps.
#![tactic(auto)]

ghost use Rattle.std.specs.Prelude.{IfOk, string_bytes};
ghost use Rattle.text.specs.Transcript.{Answered};

use std::alloc::{AllocError, Global};
use std::fmt::Write;
use wall::Wall;

mod lamp_set;
mod reply;
mod wall;

// The answers to the lines of a text. checker::verdicts is like it, but for who answers a line and what is promised of it: a generic form of the two would be longer.
pub fn answers(heap: Global, text: &[u8]) -> Result<String, AllocError>
    ensures { IfOk result (λ s. Answered text.now (string_bytes s)) }
{
    let mut wall = Wall::new();
    let mut out = String::new(heap);
    let mut rest = Some(text);
    while let Some(lines) = rest {
        let end = lines
            .iter()
            .position(|byte| *byte == b'\n')
            .unwrap_or(lines.len());
        let reply = wall.answer_line(&lines[..end]);
        write!(out, "{reply}")?;
        rest = lines.get(end + 1..);
    }
    Ok(out)
}
