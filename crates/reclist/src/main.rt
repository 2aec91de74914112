// Lists the records of a file, or of standard input: a line for each.
#![tactic(auto)]

use input::read_input;
use listing::texts::list;
use std::io::Write;

fn main(rt: HostRuntime) -> anyhow::Result<()> {
    let bytes = read_input(&rt)?;
    let text = list(rt.alloc(), &bytes)?;
    rt.stdout().write_all(&text)?;
    Ok(())
}
