// Answers the calls of a text, a line for each: of the file that is named, or of the standard input.
#![tactic(auto)]

use std::{env, io};

fn main(rt: HostRuntime) -> io::Result<()> {
    let path = env::args(&rt)?.nth(1);
    let bytes = input::read_all(&rt, path, rt.stdin(), "answer: can't read")?;
    let out = text::answers(rt.alloc(), bytes.as_slice())?;
    rt.print(out)
}
