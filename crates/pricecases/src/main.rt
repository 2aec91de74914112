// Prices and readings at the edges, a line for each.
#![tactic(auto)]

use prices::pricing::price_at;
use prices::rows::{Leg, Pair, Ticks};
use prices::sources::{Aged, Crossed, Sheet, Source, post_and_read, stack};
use records::causes::Refusal;
use records::parts::Price;
use std::fmt::{self, Display};
use std::io;

const LEGS: [(&str, Leg); 2] = [("selling", Leg::Selling), ("buying", Leg::Buying)];

const TICKS: [u32; 6] = [1, 2, 5, 100, 10_000_000, 0];

const SIDES: [u32; 7] = [0, 1, 4, 1_000_100, 1_000_200, 999_999_999, 4_294_967_295];

const LETTERS: [char; 4] = ['B', 'O', 'M', 'X'];

const NUMBERS: [u32; 5] = [0, 1, 999_999_999, 1_000_000_000, 4_294_967_295];

const LIMITS: [u32; 5] = [0, 1, 60_000, 86_400_000, 4_294_967_295];

const TIMES: [u32; 6] = [0, 1, 27_000_000, 27_060_000, 27_060_001, 4_294_967_295];

const STACKED: [(u32, u32, u32); 3] = [(5, 5, 60_000), (5, 4, 60_000), (5, 4, 60_001)];

const PLACES: [usize; 4] = [0, 63, 64, 18_446_744_073_709_551_615];

/// What a call came to, as a line shows it: ok and what it gave, or no with number, layer and place of the refusal.
#[derive(Drop)]
struct Shown<T>(Result<T, Refusal>);

impl<T: Display> Display for Shown<T> {
    fn fmt<W: fmt::Write>(&self, f: &mut fmt::Formatter<W>) -> fmt::Result {
        match &self.0 {
            Ok(given) => write!(f, "ok {given}"),
            Err(refusal) => write!(f, "{refusal}"),
        }
    }
}

/// A bid, an offer and their posting time.
#[derive(Drop)]
struct Reading((u32, u32, u32));

impl Display for Reading {
    fn fmt<W: fmt::Write>(&self, f: &mut fmt::Formatter<W>) -> fmt::Result {
        let (bid, offer, posted) = self.0;
        write!(f, "{bid} {offer} {posted}")
    }
}

fn read_shown<S: Source>(source: &S, place: usize, time: u32) -> Shown<Reading> {
    Shown(source.read(place, time).map(Reading))
}

/// The prices of both legs, at each letter that needs a source.
fn price_legs(rt: &HostRuntime, sheet: &Sheet, tick: u32, bid: u32, offer: u32) -> io::Result<()> {
    for letter in LETTERS {
        let price = Price { letter, number: 0 };
        for (name, leg) in LEGS {
            let shown = Shown(price_at(sheet, 7, 0, Ticks { tick }, leg, price));
            println!(rt; "{letter} {name} {bid} {offer} tick {tick}: {shown}")?;
        }
    }
    Ok(())
}

fn price_pairs(rt: &HostRuntime, tick: u32) -> io::Result<()> {
    for bid in SIDES {
        for offer in SIDES {
            let mut sheet = Sheet::new();
            let _ = sheet.post(7, Some(Pair { bid, offer }), 0);
            price_legs(rt, &sheet, tick, bid, offer)?;
        }
    }
    Ok(())
}

/// L needs no source: the sheet is empty, and the place is none of its own.
fn price_numbers(rt: &HostRuntime) -> io::Result<()> {
    let sheet = Sheet::new();
    for number in NUMBERS {
        let price = Price {
            letter: 'L',
            number,
        };
        let shown = Shown(price_at(&sheet, 64, 0, Ticks { tick: 5 }, Leg::Buying, price));
        println!(rt; "L {number}: {shown}")?;
    }
    Ok(())
}

fn read_ages(rt: &HostRuntime, limit: u32) -> io::Result<()> {
    let pair = Pair { bid: 2, offer: 1 };
    for posted in TIMES {
        for time in TIMES {
            let mut source = Aged::over(Sheet::new(), limit);
            let reading = post_and_read(&mut source, 7, Some(pair), posted, time);
            let shown = Shown(reading.map(Reading));
            println!(rt; "limit {limit} posted {posted} read {time}: {shown}")?;
        }
    }
    Ok(())
}

/// The stack of the program: crossed over age over the sheet. What is old and crossed is old.
fn read_stack(rt: &HostRuntime, bid: u32, offer: u32, time: u32) -> io::Result<()> {
    let mut source = stack(60_000);
    println!(rt; "stack never at {time}: {}", read_shown(&source, 7, time))?;
    let _ = source.post(7, None, 0);
    println!(rt; "stack gone at {time}: {}", read_shown(&source, 7, time))?;
    let _ = source.post(7, Some(Pair { bid, offer }), 0);
    println!(rt;
        "stack {bid} {offer} at {time}: {}",
        read_shown(&source, 7, time)
    )?;
    println!(rt;
        "stack beside it at {time}: {}",
        read_shown(&source, 8, time)
    )
}

fn read_places(rt: &HostRuntime) -> io::Result<()> {
    let pair = Pair { bid: 1, offer: 2 };
    for place in PLACES {
        let mut source = Crossed::over(Sheet::new());
        let reading = post_and_read(&mut source, place, Some(pair), 3, 4);
        println!(rt; "place {place}: {}", Shown(reading.map(Reading)))?;
    }
    Ok(())
}

fn main(rt: HostRuntime) -> io::Result<()> {
    for tick in TICKS {
        price_pairs(&rt, tick)?;
    }
    price_numbers(&rt)?;
    for limit in LIMITS {
        read_ages(&rt, limit)?;
    }
    for (bid, offer, time) in STACKED {
        read_stack(&rt, bid, offer, time)?;
    }
    read_places(&rt)
}
