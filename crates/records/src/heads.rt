// The head of a record: its kind, and which of the kind's fields stand.
ghost use Rattle.std.specs.Prelude.{◌≡◌, ◌/◌, ◌^◌, ◌<◌, ◌≤◌, length, Some, None, IfOk, IfErr};
ghost use Rattle.records.specs.declared.causes.Cause.TheVariants.{UnknownKind};
ghost use Rattle.records.specs.Bytes.{odd, standing, size, foreign as is_foreign, missing as is_missing, incomplete as is_incomplete, absent as is_absent, wrong as is_wrong};
ghost use Rattle.records.specs.Layout.{kind_of, layout};

use super::causes::Cause;
use super::checks::fits;
use super::parts::{Field, Kind, Record, Slot};
use std::marker::Model;

/// The fields of a kind whose bits stand in a map, in bit order.
#[derive(Drop)]
pub struct Standing {
    slots: &'static [Slot],
    left: u16,
}

impl Model for Standing {
    ghost use Rattle.std.specs.Prelude.{List};
    ghost use Rattle.records.specs.declared.parts.Field.{Field};
    ghost use Rattle.records.specs.Bytes.{standing};

    ghost Value = { List Field };

    ghost view = { λ s. standing s.slots.now s.left };
}

impl Iterator for Standing {
    ghost use Rattle.std.specs.Iterator.{YieldsFirst, item_count};

    type Item = Field;

    ghost next_gives = { YieldsFirst (λ rest. rest) };

    ghost remaining = { item_count (λ rest. rest) };

    fn next(&mut self) -> Option<Field> {
        // Bit by bit: no function can hand out a chain of adapters, so the iterator is a type of its own.
        while let [slot, others @ ..] = self.slots {
            let stands = self.left % 2 == 1;
            self.slots = others;
            self.left /= 2;
            if stands {
                return Some(slot.field());
            }
        }
        None
    }
}

impl Standing {
    /// How many bytes the fields take.
    pub(crate) fn size(self) -> usize
        requires { length self ≤ 16 }
        ensures value { result ≡ size self }
        ensures bound { result ≤ 128 }
    {
        self.map(|field| field.shape().width()).sum()
    }

    /// Whether one of the fields holds what it may not.
    pub(crate) fn wrong(mut self, fields: &Record) -> bool
        ensures { result ≡ is_wrong fields.now self }
    {
        self.any(|field| !fits(field.shape(), fields.value(field)))
    }
}

impl Kind {
    /// The fields of the kind whose bits stand in the map, in bit order.
    pub fn standing(self, map: u16) -> Standing
        ensures value { result ≡ standing (layout self) map }
        ensures few { length result ≤ 16 }
    {
        Standing {
            slots: self.slots(),
            left: map,
        }
    }
}

// The letter stays beside its kind, since contracts are said of letters; heads are neither compared nor shown.
/// What a record begins with: its letter, which names its kind, and the map of the fields that stand.
#[derive(Clone, Copy)]
pub(crate) struct Head {
    pub(crate) letter: char,
    pub(crate) kind: Kind,
    pub(crate) map: u16,
    ghost known: { kind_of letter ≡ Some kind },
}

impl Head {
    /// The head with this letter and this map, if the letter is of a kind.
    pub(crate) fn new(letter: char, map: u16) -> Result<Head, Cause>
        ensures letter { IfOk result (λ h. h.letter ≡ letter) }
        ensures map { IfOk result (λ h. h.map ≡ map) }
        ensures unknown { IfErr result (λ e. (e ≡ UnknownKind) × (kind_of letter ≡ None)) }
    {
        let kind = Kind::try_from(letter)?;
        Ok(Head { letter, kind, map })
    }

    /// The fields that stand.
    pub(crate) fn fields(self) -> Standing
        ensures value { result ≡ standing (layout self.kind) self.map }
        ensures few { length result ≤ 16 }
    {
        self.kind.standing(self.map)
    }

    /// Whether a bit stands that no field has.
    pub(crate) fn foreign(self) -> bool
        ensures { result ≡ is_foreign (layout self.kind) self.map }
    {
        u32::from(self.map) >> self.kind.slots().len() != 0
    }

    /// Whether the bit with this number stands.
    fn stands(self, i: usize) -> bool
        requires { i < 16 }
        ensures { result ≡ odd (self.map / 2 ^ i) }
    {
        (self.map >> i) % 2 == 1
    }

    /// Whether a field lacks that must stand.
    fn missing(self) -> bool
        ensures { result ≡ is_missing (layout self.kind) self.map }
    {
        self.kind
            .slots()
            .iter()
            .enumerate()
            .any(|(i, slot)| !slot.may_lack() && !self.stands(i))
    }

    /// Whether a quote has neither leg, or a posting one of its two prices without the other.
    fn incomplete(self) -> bool
        ensures { result ≡ is_incomplete self.kind self.map }
    {
        match self.kind {
            Kind::Quoting => !self.stands(4) && !self.stands(5),
            Kind::Posting => self.stands(1) != self.stands(2),
            _ => false,
        }
    }

    /// Whether a field is absent that the kind asks for.
    pub(crate) fn absent(self) -> bool
        ensures { result ≡ is_absent self.kind self.map }
    {
        self.missing() || self.incomplete()
    }
}
