// Runs vectors of the record reader and writer, a command to a line of the input:
//
//     # any text                        a comment
//     read HEX..                        lists the bytes
//     at PLACE HEX..                    reads the record at that place, and passes over it
//     write KIND MAP SIZE AT HEX..      reads the record, and writes it as KIND with the bit map MAP into SIZE bytes at AT
//
// Each line is echoed, and its outcome follows.
#![tactic(auto)]

use anyhow::Context;
use input::read_input;
use listing::texts::list;
use records::parts::Record;
use records::reading::{read, skip};
use records::writing::write;
use std::io::Write;
use std::str::SplitWhitespace;

/// What every byte of a buffer holds before a record is written into it.
const UNTOUCHED: u8 = 0xee;

// Any letter: the vectors try those of no kind too.
/// A command to write a record.
#[derive(Drop)]
struct Order {
    kind: char,
    map: u16,
    size: usize,
    at: usize,
}

fn read_number(words: &mut SplitWhitespace) -> Option<usize> {
    words.next()?.parse::<usize>().ok()
}

fn read_order(words: &mut SplitWhitespace) -> Option<Order> {
    let kind = words.next()?.chars().next()?;
    let map = words.next()?.parse::<u16>().ok()?;
    let size = read_number(words)?;
    let at = read_number(words)?;
    Some(Order {
        kind,
        map,
        size,
        at,
    })
}

fn bytes_of(rt: &HostRuntime, words: &mut SplitWhitespace) -> anyhow::Result<Vec<u8>> {
    let mut bytes = Vec::new(rt.alloc());
    for word in words {
        bytes.push(u8::from_str_radix(word, 16)?)?;
    }
    Ok(bytes)
}

fn show(rt: &HostRuntime, buffer: &[u8]) -> anyhow::Result<()> {
    for byte in buffer {
        print!(rt; " {byte:02x}")?;
    }
    println!(rt; "")?;
    Ok(())
}

// A match for each outcome: `ok` goes before what is given, and a refusal shows itself.
fn run_at(rt: &HostRuntime, at: usize, bytes: &[u8]) -> anyhow::Result<()> {
    let mut fields = Record::blank(0);
    match read(bytes, at, &mut fields) {
        Ok((kind, next)) => print!(rt; "ok {kind} {next}")?,
        Err(refusal) => print!(rt; "{refusal}")?,
    }
    print!(rt; ", ")?;
    match skip(bytes, at) {
        Ok(next) => print!(rt; "ok {next}")?,
        Err(refusal) => print!(rt; "{refusal}")?,
    }
    println!(rt; "")?;
    Ok(())
}

fn run_write(rt: &HostRuntime, order: Order, bytes: &[u8]) -> anyhow::Result<()> {
    let mut fields = Record::blank(0);
    let _ = read(bytes, 0, &mut fields);
    fields.map = order.map;
    let mut buffer = vec![in rt.alloc(); UNTOUCHED; order.size]?;
    match write(order.kind, &fields, &mut buffer, order.at) {
        Ok(next) => print!(rt; "ok {next}")?,
        Err(refusal) => print!(rt; "{refusal}")?,
    }
    show(rt, &buffer)
}

fn run_line(rt: &HostRuntime, line: &str) -> anyhow::Result<()> {
    println!(rt; "> {line}")?;
    let mut words = line.split_whitespace();
    match words.next() {
        Some("read") => {
            let bytes = bytes_of(rt, &mut words)?;
            let text = list(rt.alloc(), &bytes)?;
            rt.stdout().write_all(&text)?;
            Ok(())
        }
        Some("at") => {
            let at = read_number(&mut words).context("an at wants PLACE")?;
            let bytes = bytes_of(rt, &mut words)?;
            run_at(rt, at, &bytes)
        }
        Some("write") => {
            let order = read_order(&mut words).context("a write wants KIND MAP SIZE AT")?;
            let bytes = bytes_of(rt, &mut words)?;
            run_write(rt, order, &bytes)
        }
        _ => Ok(()),
    }
}

fn run(rt: &HostRuntime) -> anyhow::Result<()> {
    let text = String::from_utf8(read_input(rt)?)?;
    for line in text.lines() {
        run_line(rt, line)?;
    }
    Ok(())
}

fn main(rt: HostRuntime) -> anyhow::Result<()> {
    run(&rt)
}
