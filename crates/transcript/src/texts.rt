// The text of a file of records.
ghost use Rattle.std.specs.Prelude.{◌≡◌, ◌++◌, length, IfOk, OnOk};
ghost use Rattle.venue.specs.Setting.{nothing_set};
ghost use Rattle.transcript.specs.Runs.{State.setting};
ghost use Rattle.transcript.specs.Said.{Within, told};
ghost use Rattle.transcript.specs.States.{state_of};
ghost use Rattle.transcript.specs.Texts.{Enough, Turned, text as text_of, transcript};

use super::lines::{Answer, add_line};
use super::runs::Run;
use super::turns::Turn;
use day::forms::Setup;
use listing::texts::letter_shown;
use prices::sources::{Source, stack};
use records::parts::{Kind, Record};
use records::reading::{read, skip};
use std::alloc::{AllocError, Global};

/// What the record at a place comes to: the day as it is then, what is answered, and where the next record begins, if that can
/// be told.
fn take_turn<S: Source + Drop>(
    run: Run<S>,
    bytes: &[u8],
    at: usize,
    buffer: &mut [u8],
) -> Result<(Run<S>, Answer, Option<usize>), AllocError>
    ensures turned { IfOk result (λ q. Turned (length buffer.old) bytes.now at (state_of S.rows S.screen run) (state_of S.rows S.screen q.0) (told buffer.new q.1) q.2) }
    ensures within { IfOk result (λ q. Within buffer.new q.1) }
{
    let mut fields = Record::blank(0);
    // A match: a record that was not read leaves the day, and is passed over if its end can be told.
    match read(bytes, at, &mut fields) {
        Ok((kind, next)) => {
            let kind = Kind::of(kind);
            let (then, answer) = run.answer(&Turn { at, kind, fields }, buffer)?;
            Ok((then, answer, Some(next)))
        }
        Err(refusal) => Ok((run, Err(refusal), skip(bytes, at).ok())),
    }
}

/// Adds the line of each record.
fn add_lines<S: Source + Drop>(
    text: &mut Vec<u8>,
    start: Run<S>,
    bytes: &[u8],
    buffer: &mut [u8],
) -> Result<(), AllocError>
    ensures { OnOk result (text.new.items ≡ text.old.items ++ text_of (length buffer.old) (length bytes.now) bytes.now 0 1 (state_of S.rows S.screen start)) }
{
    let mut run = start;
    let mut next = Some(0);
    // A `for` over the bytes, of which there are at least as many as records: it bounds the run.
    for passed in 0..bytes.len() {
        let Some(at) = next else { return Ok(()) };
        if at >= bytes.len() {
            return Ok(());
        }
        let (then, answer, place) = take_turn(run, bytes, at, buffer)?;
        add_line(text, passed + 1, letter_shown(bytes, at), answer, buffer)?;
        run = then;
        next = place;
    }
    Ok(())
}

/// The text of a file of records, over a source.
fn transcribe_over<S: Source + Drop>(
    heap: Global,
    source: S,
    bytes: &[u8],
) -> Result<Vec<u8>, AllocError>
    ensures { IfOk result (λ v. v.items ≡ text_of 32768 (length bytes.now) bytes.now 0 1 (setting nothing_set (S.rows source) (S.screen source))) }
{
    let mut text = Vec::new(heap);
    let mut buffer = [0u8; 32768];
    let start = Run::Setting(Box::new(heap, Setup::new(source))?);
    add_lines(&mut text, start, bytes, &mut buffer)?;
    Ok(text)
}

/// The text of a file of records: a line for each record, until the bytes end or the end of a record cannot be told.
pub fn transcribe(heap: Global, bytes: &[u8]) -> Result<Vec<u8>, AllocError>
    ensures text { IfOk result (λ v. v.items ≡ transcript bytes.now) }
    ensures enough { Enough }
{
    transcribe_over(heap, stack(60_000), bytes)
}
