// The line of a record: its count, its kind, and what it was answered.
ghost use Rattle.std.specs.Prelude.{◌≡◌, ◌++◌, OnOk};
ghost use Rattle.transcript.specs.Said.{Within, byte_text, given_text, head_text, line, page_text, said_text, told};
ghost use Rattle.transcript.specs.declared.lines.Given.TheVariants.{Number};

use listing::lines::{add, add_cause, hex};
use records::causes::Refusal;
use std::alloc::AllocError;

/// What a call gives: a number, or a page of a length, which stands at the front of a buffer.
#[derive(Clone, Copy, Debug, PartialEq, Eq)]
pub enum Given {
    Number(u64),
    Page(usize),
}

/// What a record is answered: what it is given, or why it is refused.
pub type Answer = Result<Given, Refusal>;

/// A call that has nothing to give is answered by 0.
impl From<()> for Given {
    ghost from_gives = { λ _ given. given ≡ Number 0 };

    fn from(_nothing: ()) -> Given {
        Given::Number(0)
    }
}

// One impl for all that is `Into<u64>` would conflict with std's `From<T> for T`.
impl From<u16> for Given {
    ghost from_gives = { λ number given. given ≡ Number number };

    fn from(number: u16) -> Given {
        Given::Number(u64::from(number))
    }
}

impl From<u32> for Given {
    ghost from_gives = { λ number given. given ≡ Number number };

    fn from(number: u32) -> Given {
        Given::Number(u64::from(number))
    }
}

/// Adds a byte of a page: a space and two digits.
fn add_byte(text: &mut Vec<u8>, byte: u8) -> Result<(), AllocError>
    ensures { OnOk result (text.new.items ≡ text.old.items ++ byte_text byte) }
{
    text.push(b' ')?;
    text.extend_from_slice(&hex(byte))
}

/// Adds the bytes of a page.
fn add_bytes(text: &mut Vec<u8>, page: &[u8]) -> Result<(), AllocError>
    ensures { OnOk result (text.new.items ≡ text.old.items ++ page_text page.now) }
{
    for byte in page {
        add_byte(text, *byte)?;
    }
    Ok(())
}

// By its letter and no kind: it is ? where the kind is unknown.
/// Adds what a line begins with.
fn add_head(text: &mut Vec<u8>, count: usize, kind: char) -> Result<(), AllocError>
    ensures { OnOk result (text.new.items ≡ text.old.items ++ head_text count kind) }
{
    add(text, format_args!("{count} {kind}"))
}

/// Adds what a line says of an answer: the number given, and the bytes of a page.
fn add_given(text: &mut Vec<u8>, number: u64, page: &[u8]) -> Result<(), AllocError>
    ensures { OnOk result (text.new.items ≡ text.old.items ++ given_text number page.now) }
{
    add(text, format_args!(" ok {number}"))?;
    add_bytes(text, page)?;
    text.push(b'\n')?;
    Ok(())
}

/// Adds what a line says of an answer, whose page stands at the front of a buffer.
fn add_answer(text: &mut Vec<u8>, answer: Answer, buffer: &[u8]) -> Result<(), AllocError>
    requires { Within buffer.now answer }
    ensures { OnOk result (text.new.items ≡ text.old.items ++ said_text (told buffer.now answer)) }
{
    // A match: a number, a page and a refusal each have a text of their own.
    match answer {
        Ok(Given::Number(number)) => add_given(text, number, &[]),
        Ok(Given::Page(len)) => add_given(text, len as u64, &buffer[..len]),
        Err(refusal) => add_cause(text, refusal),
    }
}

/// Adds the line of a record with a count and a kind letter.
pub(crate) fn add_line(
    text: &mut Vec<u8>,
    count: usize,
    kind: char,
    answer: Answer,
    buffer: &[u8],
) -> Result<(), AllocError>
    requires { Within buffer.now answer }
    ensures { OnOk result (text.new.items ≡ text.old.items ++ line count kind (told buffer.now answer)) }
{
    add_head(text, count, kind)?;
    add_answer(text, answer, buffer)
}
