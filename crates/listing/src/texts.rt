// The text of a file of records.
ghost use Rattle.std.specs.Prelude.{◌≡◌, ◌+◌, ◌<◌, ◌≤◌, true, cond, ◌++◌, length, IfOk, Ok, Err, OnOk};
ghost use Rattle.records.specs.Fields.{blank};
ghost use Rattle.records.specs.Reading.{read_answer, read_record};
ghost use Rattle.listing.specs.Listing.{Enough, is_read, letter_at as letter_of, line_at, listing, next_at, same_again as is_same, same_words as words_of, totals, Turned};

use super::lines::{Front, add, add_record, add_refusal};
use records::parts::{Kind, Record};
use records::reading::{read, skip};
use records::writing::write;
use std::alloc::{AllocError, Global};

// It is copied and no more: nobody compares or shows it.
/// How many records were read and refused so far, and whether all that were read were written back the same.
#[derive(Clone, Copy)]
struct Tally {
    read: usize,
    refused: usize,
    // A yes or no for the last line, and not a state: nothing else asks it.
    same: bool,
}

/// The kind letter at a place, or ? where it is unknown, and past the end of the bytes.
pub fn letter_shown(bytes: &[u8], at: usize) -> char
    ensures { result ≡ letter_of bytes.now at }
{
    match bytes.get(at).map(|byte| char::from(*byte)) {
        Some(letter) if Kind::of(letter).is_some() => letter,
        _ => '?',
    }
}

// By its letter, as `read` gives it; the buffer only serves to compare.
/// Whether the record is written back as these bytes.
fn same_again(bytes: &[u8], kind: char, fields: &Record, buffer: &mut [u8]) -> bool
    ensures { result ≡ is_same bytes.now kind fields.now buffer.old }
{
    write(kind, fields, buffer, 0).is_ok_and(|len| &buffer[..len] == bytes)
}

/// What the totals say of the records written back.
fn same_words(same: bool) -> &'static str
    ensures { result.now ≡ words_of same }
{
    if same {
        " bytes, all written back the same\n"
    } else {
        " bytes, not all written back the same\n"
    }
}

/// Adds the totals.
fn add_totals(text: &mut Vec<u8>, tally: Tally, len: usize) -> Result<(), AllocError>
    ensures { OnOk result (text.new.items ≡ text.old.items ++ totals tally.same tally.read tally.refused len) }
{
    let read = tally.read;
    let refused = tally.refused;
    let words = same_words(tally.same);
    add(
        text,
        format_args!("{read} read, {refused} refused, {len}{words}"),
    )
}

/// Whether the record that was read there is written back as the same bytes: it is.
fn written_back(bytes: &[u8], at: usize, next: usize, kind: char, fields: &Record) -> bool
    requires answer { read_answer bytes.now at ≡ Ok (kind, next) }
    requires fields { fields.now ≡ read_record bytes.now at (blank 0) }
    requires within { (at ≤ next) × (next ≤ length bytes.now) }
    ensures { result ≡ true }
{
    let mut buffer = [0u8; 256];
    same_again(&bytes[at..next], kind, fields, &mut buffer)
}

/// Adds the line of the record at a place, counts it, and says where the next record begins, if that can be told.
fn add_turn(
    text: &mut Vec<u8>,
    tally: &mut Tally,
    bytes: &[u8],
    at: usize,
) -> Result<Option<usize>, AllocError>
    requires inside { at < length bytes.now }
    requires few { tally.old.read + tally.old.refused < length bytes.now }
    ensures { IfOk result (λ next. Turned bytes.now at text.old.items text.new.items tally.old.read tally.old.refused tally.new.read tally.new.refused tally.old.same tally.new.same next) }
{
    let count = tally.read + tally.refused + 1;
    let mut fields = Record::blank(0);
    // A match: each arm adds a line of its own and counts for itself.
    match read(bytes, at, &mut fields) {
        Ok((kind, next)) => {
            add_record(text, Front { count, at, kind }, &fields)?;
            tally.read += 1;
            tally.same &= written_back(bytes, at, next, kind, &fields);
            Ok(Some(next))
        }
        Err(refusal) => {
            let kind = letter_shown(bytes, at);
            add_refusal(text, Front { count, at, kind }, refusal)?;
            tally.refused += 1;
            Ok(skip(bytes, at).ok())
        }
    }
}

/// Adds the line of each record, and gives the counts for the totals.
fn add_lines(text: &mut Vec<u8>, bytes: &[u8]) -> Result<Tally, AllocError>
    ensures { IfOk result (λ t. text.new.items ++ totals t.same t.read t.refused (length bytes.now) ≡ text.old.items ++ listing bytes.now) }
{
    let mut tally = Tally {
        read: 0,
        refused: 0,
        same: true,
    };
    // A walk of its own beside that of `transcript`: this one counts, that one moves a day. Each record says where the next begins.
    let mut at: usize = 0;
    while at < bytes.len() {
        match add_turn(text, &mut tally, bytes, at)? {
            Some(next) => at = next,
            None => return Ok(tally),
        }
    }
    Ok(tally)
}

/// The text of a file of records: a line for each record, until the bytes end or the end of a record cannot be told, and
/// then the totals.
pub fn list(heap: Global, bytes: &[u8]) -> Result<Vec<u8>, AllocError>
    ensures text { IfOk result (λ v. v.items ≡ listing bytes.now) }
    ensures enough { Enough }
{
    let mut text = Vec::new(heap);
    let tally = add_lines(&mut text, bytes)?;
    add_totals(&mut text, tally, bytes.len())?;
    Ok(text)
}
