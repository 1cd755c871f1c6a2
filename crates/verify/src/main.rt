// Checks claims about a board of lamps, from a file or from standard input, without any solver.
#![tactic(auto)]

use std::{env, io};

fn main(rt: HostRuntime) -> io::Result<()> {
    let path = env::args(&rt)?.nth(1);
    let text = input::read_all(&rt, path, rt.stdin(), "verify:")?;
    let answers = checker::verdicts(rt.alloc(), text.as_slice())?;
    print!(rt; "{answers}")
}
