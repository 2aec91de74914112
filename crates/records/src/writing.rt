// Writing a record as bytes into a lent buffer.
ghost use Rattle.std.specs.Prelude.{◌≡◌, ◌+◌, ◌/◌, ◌%◌, ◌≤◌, cond, [], ◌∷◌, length, IfOk, IfSome, Some, None, Err, nat_lt};
ghost use Rattle.std.specs.List.{flat_map};
ghost use Rattle.records.specs.Bytes.{field_bytes, standing};
ghost use Rattle.records.specs.Layout.{layout};
ghost use Rattle.records.specs.Trips.{WriteRead};
ghost use Rattle.records.specs.Writing.{encode, judge_write, laid_answer, laid_buffer, length_of, over, placed, write_answer, write_buffer};

use super::causes::{Cause, Refusal};
use super::heads::Head;
use super::parts::{Field, Record, Value};

// Not `u8::try_from`: `lay` takes any letter, and has to give a byte for each.
/// The low byte of a letter's code. The letters of records have no other.
fn low(letter: char) -> u8
    ensures { result ≡ letter % 256 }
{
    (u32::from(letter) % 256) as u8
}

impl Head {
    /// The letter and then the map, as bytes.
    fn bytes(self) -> [u8; 3]
        ensures { result ≡ self.letter ∷ self.map % 256 ∷ self.map / 256 % 256 ∷ [] }
    {
        let [a, b] = self.map.to_le_bytes();
        [low(self.letter), a, b]
    }
}

// Buffer and place stay two parameters: a struct of both would have to say, method by method, that it is the same buffer.
/// Writes bytes, and says where the next go.
fn put_bytes(out: &mut [u8], at: usize, bytes: &[u8]) -> usize
    requires { at + length bytes.now ≤ length out.old }
    ensures after { out.new ≡ over out.old at bytes.now }
    ensures value { result ≡ at + length bytes.now }
{
    let end = at + bytes.len();
    out[at..end].copy_from_slice(bytes);
    end
}

/// Writes a field of a record, and says where the next goes.
fn put_field(out: &mut [u8], at: usize, field: Field, fields: &Record) -> usize
    requires { at + length (field_bytes fields.now field) ≤ length out.old }
    ensures after { out.new ≡ over out.old at (field_bytes fields.now field) }
    ensures next { result ≡ at + length (field_bytes fields.now field) }
{
    match fields.value(field) {
        Value::Number(n) => put_bytes(out, at, &n.to_le_bytes()[..field.shape().width()]),
        Value::Letter(letter) => put_bytes(out, at, &[low(letter)]),
        Value::Quoted(price) => {
            let [a, b, c, d] = price.number.to_le_bytes();
            put_bytes(out, at, &[low(price.letter), a, b, c, d])
        }
        Value::Name(name) => put_bytes(out, at, &name),
        Value::Letters(mark) => put_bytes(out, at, &mark),
    }
}

/// Writes all the fields that stand.
fn put_fields(out: &mut [u8], start: usize, head: Head, fields: &Record)
    requires { start + length (flat_map (field_bytes fields.now) (standing (layout head.kind) head.map)) ≤ length out.old }
    ensures { out.new ≡ over out.old start (flat_map (field_bytes fields.now) (standing (layout head.kind) head.map)) }
{
    let mut at = start;
    for field in head.fields() {
        at = put_field(out, at, field, fields);
    }
}

/// Where so many bytes from a place on end, if they end within the room.
fn end_within(room: usize, at: usize, len: usize) -> Option<usize>
    ensures value { result ≡ cond (nat_lt room (at + len)) None (Some (at + len)) }
    ensures within { IfSome result (λ end. (end ≡ at + len) × (end ≤ room)) }
{
    at.checked_add(len).filter(|end| *end <= room)
}

// By its letter, as `read` gives it: any may be given, and one of no kind has a head alone.
/// How many bytes a record of the kind with this letter takes.
pub fn encoded_len(kind: char, fields: &Record) -> usize
    ensures value { result ≡ length_of kind fields.now }
    ensures bytes { result ≡ length (encode kind fields.now) }
    ensures bound { result ≤ 131 }
{
    match Head::new(kind, fields.map) {
        Ok(head) => 3 + head.fields().size(),
        Err(_) => 3,
    }
}

/// Where the next record would go, or why this one is refused.
fn judge(head: Head, fields: &Record, room: usize, at: usize) -> Result<usize, Cause>
    requires { head.map ≡ fields.now.map }
    ensures value { result ≡ judge_write head.letter fields.now room at }
    ensures room { IfOk result (λ next. next ≡ at + length (encode head.letter fields.now)) }
    ensures within { IfOk result (λ next. (at + 3 ≤ next) × (next ≤ room)) }
{
    if head.foreign() {
        return Err(Cause::ForeignBit);
    }
    if head.absent() {
        return Err(Cause::FieldAbsent);
    }
    if head.fields().wrong(fields) {
        return Err(Cause::WrongLetter);
    }
    // By its letter: how long a record is, is said of a letter and fields, and so is what is written.
    end_within(room, at, encoded_len(head.letter, fields)).ok_or(Cause::BufferShort)
}

/// Writes a record: its head, and then its fields.
fn put_record(out: &mut [u8], at: usize, head: Head, fields: &Record)
    requires map { head.map ≡ fields.now.map }
    requires room { at + length (encode head.letter fields.now) ≤ length out.old }
    ensures { out.new ≡ over out.old at (encode head.letter fields.now) }
{
    let next = put_bytes(out, at, &head.bytes());
    put_fields(out, next, head, fields);
}

// By its letter, as `read` gives it: any may be given.
/// Lays the bytes of a record of the kind with this letter into the buffer at a place, whatever its fields hold, and says
/// where the next record goes. Where the letter is of no kind or there is no room, the buffer is left as it was.
pub fn lay(kind: char, fields: &Record, out: &mut [u8], at: usize) -> Option<usize>
    ensures answer { result ≡ laid_answer kind fields.now (length out.old) at }
    ensures out { out.new ≡ laid_buffer kind fields.now out.old at }
{
    let head = Head::new(kind, fields.map).ok()?;
    let next = end_within(out.len(), at, encoded_len(head.letter, fields))?;
    put_record(out, at, head, fields);
    Some(next)
}

/// Writes a record that may stand there, and says where the next record goes.
fn put_judged(kind: char, fields: &Record, out: &mut [u8], at: usize) -> Result<usize, Cause>
    ensures answer { result ≡ judge_write kind fields.now (length out.old) at }
    ensures out { out.new ≡ write_buffer kind fields.now out.old at }
    ensures within { IfOk result (λ next. (at + 3 ≤ next) × (next ≤ length out.old)) }
{
    let head = Head::new(kind, fields.map)?;
    let next = judge(head, fields, out.len(), at)?;
    put_record(out, at, head, fields);
    Ok(next)
}

/// A refusal by the record layer names the place, and one by the book layer names 0.
fn refused(cause: Cause, at: usize) -> Refusal
    ensures { Err result ≡ placed at (Err cause) }
{
    cause.at(if cause.layer() == 'R' { at } else { 0 })
}

// By its letter, as `read` gives it: any may be given.
/// Writes a record of the kind with this letter at a place in the buffer, and says where the next record goes. A refusal
/// leaves the buffer as it was.
pub fn write(kind: char, fields: &Record, out: &mut [u8], at: usize) -> Result<usize, Refusal>
    ensures answer { result ≡ write_answer kind fields.now (length out.old) at }
    ensures out { out.new ≡ write_buffer kind fields.now out.old at }
    ensures within { IfOk result (λ next. (at + 3 ≤ next) × (next ≤ length out.old)) }
    ensures back { WriteRead }
{
    put_judged(kind, fields, out, at).map_err(|cause| refused(cause, at))
}
