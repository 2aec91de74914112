// Reading a record from bytes.
ghost use Rattle.std.specs.Prelude.{◌≡◌, ◌+◌, ◌-◌, ◌≤◌, length, drop, IfOk, IfErr, Err, slice_index};
ghost use Rattle.records.specs.Bytes.{standing, size};
ghost use Rattle.records.specs.Fields.{blank as blank_of};
ghost use Rattle.records.specs.Layout.{layout};
ghost use Rattle.records.specs.Reading.{fill as fill_of, map_in, measure as measure_of, measure_fields, parse, parse_fields, read_answer, read_record, skip_answer};
ghost use Rattle.records.specs.Trips.{ReadWrite};

use super::causes::{Cause, Refusal};
use super::heads::Head;
use super::parts::{Kind, Price, Record};

impl Record {
    /// The record in which every field has the value that it has where it lacks.
    pub fn blank(map: u16) -> Record
        ensures { result ≡ blank_of map }
    {
        Record {
            map,
            minimum: 1,
            expiry: 63_000_000,
            floor: 1,
            rest: 'C',
            ..Record::default()
        }
    }
}

impl Head {
    /// The fields, one after the other, from the bytes behind the head.
    fn fill(self, bytes: &[u8]) -> Record
        requires { size (standing (layout self.kind) self.map) ≤ length bytes.now }
        ensures { result ≡ fill_of (standing (layout self.kind) self.map) bytes.now (blank_of self.map) }
    {
        let mut fields = Record::blank(self.map);
        // A `for`: of what a closure changes, nothing is known behind the call that takes it.
        let mut rest = bytes;
        for field in self.fields() {
            fields.set(field, rest);
            rest = &rest[field.shape().width()..];
        }
        fields
    }

    /// How long the record is with its head, given the bytes behind the head.
    fn measure(self, bytes: &[u8]) -> Result<usize, Cause>
        ensures value { result ≡ measure_fields self.kind self.map bytes.now }
        ensures within { IfOk result (λ n. (3 ≤ n) × (n ≤ 3 + length bytes.now)) }
    {
        let size = self.fields().size();
        if bytes.len() < size {
            return Err(Cause::CutShort);
        }
        if self.foreign() {
            return Err(Cause::ForeignBit);
        }
        Ok(3 + size)
    }

    /// How long the record is with its head, and its fields, from the bytes behind the head.
    fn read(self, bytes: &[u8]) -> Result<(usize, Record), Cause>
        ensures value { result ≡ parse_fields self.kind self.map bytes.now }
        ensures within { IfOk result (λ q. (3 ≤ q.0) × (q.0 ≤ 3 + length bytes.now)) }
    {
        let len = self.measure(bytes)?;
        if self.absent() {
            return Err(Cause::FieldAbsent);
        }
        let fields = self.fill(bytes);
        if self.fields().wrong(&fields) {
            return Err(Cause::WrongLetter);
        }
        Ok((len, fields))
    }
}

/// The head of the record that the bytes begin with, and the bytes behind it.
fn take_head(bytes: &[u8]) -> Result<(Head, &[u8]), Cause>
    ensures long { IfOk result (λ q. 3 ≤ length bytes.now) }
    ensures letter { IfOk result (λ q. q.0.letter ≡ slice_index bytes.now 0) }
    ensures map { IfOk result (λ q. q.0.map ≡ map_in bytes.now) }
    ensures rest { IfOk result (λ q. q.1.now ≡ drop 3 bytes.now) }
    ensures fields { IfErr result (λ e. Err e ≡ parse bytes.now) }
    ensures length { IfErr result (λ e. Err e ≡ measure_of bytes.now) }
{
    match bytes {
        [letter, low, high, rest @ ..] => {
            let map = u16::from_le_bytes([*low, *high]);
            Ok((Head::new(char::from(*letter), map)?, rest))
        }
        [letter, ..] => {
            Kind::try_from(char::from(*letter))?;
            Err(Cause::CutShort)
        }
        [] => Err(Cause::CutShort),
    }
}

/// How long the record is that the bytes begin with.
fn measure(bytes: &[u8]) -> Result<usize, Cause>
    ensures value { result ≡ measure_of bytes.now }
    ensures within { IfOk result (λ n. (3 ≤ n) × (n ≤ length bytes.now)) }
{
    let (head, rest) = take_head(bytes)?;
    head.measure(rest)
}

/// The record that the bytes begin with: its kind letter, its length and its fields.
fn read_front(bytes: &[u8]) -> Result<(char, usize, Record), Cause>
    ensures value { result ≡ parse bytes.now }
    ensures within { IfOk result (λ q. (3 ≤ q.1) × (q.1 ≤ length bytes.now)) }
{
    let (head, rest) = take_head(bytes)?;
    let (len, fields) = head.read(rest)?;
    Ok((head.letter, len, fields))
}

/// The bytes from a place on: none, where the place is past the end.
fn tail(bytes: &[u8], at: usize) -> &[u8]
    ensures value { result.now ≡ drop at bytes.now }
    ensures len { length result.now ≡ length bytes.now - at }
{
    bytes.get(at..).unwrap_or(&[])
}

// A kind is told by its letter, as in the bytes; `Kind::try_from` gives the kind.
/// Reads the record that begins at a place: its kind letter, and where the next record begins. Its fields go into the
/// record that is lent, which a refusal leaves as it was.
pub fn read(bytes: &[u8], at: usize, out: &mut Record) -> Result<(char, usize), Refusal>
    ensures answer { result ≡ read_answer bytes.now at }
    ensures out { out.exit.now ≡ read_record bytes.now at out.entry.now }
    ensures within { IfOk result (λ q. (at + 3 ≤ q.1) × (q.1 ≤ length bytes.now)) }
    ensures back { ReadWrite }
{
    let (kind, len, fields) = read_front(tail(bytes, at)).map_err(|cause| cause.at(at))?;
    *out = fields;
    Ok((kind, at + len))
}

/// Where the record ends that begins at a place, if that can be told: also where its fields would be refused.
pub fn skip(bytes: &[u8], at: usize) -> Result<usize, Refusal>
    ensures answer { result ≡ skip_answer bytes.now at }
    ensures within { IfOk result (λ next. (at + 3 ≤ next) × (next ≤ length bytes.now)) }
{
    let len = measure(tail(bytes, at)).map_err(|cause| cause.at(at))?;
    Ok(at + len)
}
