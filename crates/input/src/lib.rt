// The input of a program: the file that its argument names, or else standard input.
#![tactic(auto)]

ghost use Rattle.std.specs.Prelude.{◌≤◌, IfOk, vec_len};

use anyhow::anyhow;
use std::alloc::Global;
use std::io::Read;
use std::{env, fs, io};

/// The most bytes that a program takes: what lies behind them is not read.
pub const MOST: usize = 65_536;

/// Reads what a source holds, and no more than is taken.
pub fn read_most<R: Read + Drop>(source: R, heap: Global) -> io::Result<Vec<u8>>
    ensures { IfOk result (λ v. vec_len v ≤ 65536) }
{
    let mut bytes = Vec::new(heap);
    source.take(MOST as u64).read_to_end(&mut bytes)?;
    // No contract of a source bounds what `take` lets through, so the bytes are cut off at the most too.
    bytes.truncate(MOST);
    Ok(bytes)
}

/// Reads the file that the argument names, or else standard input.
pub fn read_input(rt: &HostRuntime) -> anyhow::Result<Vec<u8>>
    ensures { IfOk result (λ v. vec_len v ≤ 65536) }
{
    let mut args = env::args(rt)?.skip(1);
    let Some(name) = args.next() else {
        return Ok(read_most(rt.stdin(), rt.alloc())?);
    };
    if args.next().is_some() {
        return Err(anyhow!("name one file, or none for standard input"));
    }
    // A match: a file that cannot be opened is named before the error goes on.
    match fs::open(rt, name.as_str()) {
        Ok(file) => Ok(read_most(file, rt.alloc())?),
        Err(error) => {
            eprintln!(rt; "cannot open {name}")?;
            Err(error.into())
        }
    }
}
