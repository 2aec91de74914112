// Plays a day from a file of records, or from standard input, and prints a line for each.
#![tactic(auto)]

use input::read_input;
use std::io::Write;
use transcript::texts::transcribe;

fn main(rt: HostRuntime) -> anyhow::Result<()> {
    let bytes = read_input(&rt)?;
    let text = transcribe(rt.alloc(), &bytes)?;
    rt.stdout().write_all(&text)?;
    Ok(())
}
