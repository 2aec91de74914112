// Names of symbols, and symbols by name.
ghost use Rattle.std.specs.Prelude.{◌≡◌};
ghost use Rattle.std.specs.Str.{bytes_eq};
ghost use Rattle.tables.specs.Tabled.{bare_day};
ghost use Rattle.venue.specs.Days.{blanks, is_name as is_a_name, name_before, padded as padded_of, place_from, place_of as place_in, sign};

use super::inner::Tables;
use venue::rows::Symbol;

/// A letter A to Z or a digit.
fn is_sign(byte: u8) -> bool
    ensures { result ≡ sign byte }
{
    byte.is_ascii_uppercase() || byte.is_ascii_digit()
}

/// Whether all bytes are spaces.
fn is_blank(bytes: &[u8]) -> bool
    ensures { result ≡ blanks bytes.now }
{
    bytes.iter().all(|byte| *byte == b' ')
}

/// Whether the bytes are signs and then spaces.
fn is_padded(bytes: &[u8]) -> bool
    ensures { result ≡ padded_of bytes.now }
{
    let end = bytes
        .iter()
        .position(|byte| !is_sign(*byte))
        .unwrap_or(bytes.len());
    is_blank(&bytes[end..])
}

/// Whether the bytes could be the name of a symbol.
pub fn is_name(name: &[u8; 8]) -> bool
    ensures { result ≡ is_a_name name.now }
{
    is_sign(name[0]) && is_padded(name)
}

// Names are compared as numbers, the first byte the greatest: eight bytes at once, where `==` and `<` of arrays go byte by byte. Lists
// of requests are kept in order by them.
/// Whether two names are the same.
pub fn name_is(name: &[u8; 8], other: &[u8; 8]) -> bool
    ensures { result ≡ bytes_eq name.now other.now }
{
    u64::from_be_bytes(*name) == u64::from_be_bytes(*other)
}

/// Whether a name comes before another, by the first byte that differs.
pub fn name_precedes(a: &[u8; 8], b: &[u8; 8]) -> bool
    ensures { result ≡ name_before a.now b.now }
{
    u64::from_be_bytes(*a) < u64::from_be_bytes(*b)
}

/// The place of the symbol with a name.
fn place_among(symbols: &[Symbol], name: &[u8; 8]) -> Option<usize>
    ensures { result ≡ place_from 0 symbols.now name.now }
{
    symbols
        .iter()
        .position(|symbol| name_is(&symbol.name, name))
}

impl Tables {
    /// The place of the symbol of the day with a name.
    pub fn place_of(&self, name: &[u8; 8]) -> Option<usize>
        ensures { result ≡ place_in (bare_day self.now) name.now }
    {
        place_among(self.symbols.as_slice(), name)
    }
}
