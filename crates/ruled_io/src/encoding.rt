//! Encodings of text.

ghost use Rattle.std.specs.Prelude.{◌≡◌, ◌<◌, ◌≤◌, ◌&&◌, ◌++◌, ◌∷◌, ℕ, List, length, true, Some, None, if◌then◌else◌};
ghost use Rattle.std.specs.Char.Utf16.{is_high_surrogate, is_low_surrogate, surrogate_pair_char};
ghost use Rattle.ruled_io.specs.Formats as spec;

use crate::formats::{is_database, shows_mark};

/// How the bytes of an input spell its text.
#[derive(Clone, Copy)]
pub enum Encoding {
    /// UTF-8, in which the text is read.
    Utf8,
    /// Each byte is the character of its number.
    Latin1,
    /// Code page 1252: as `Latin1`, but with other characters from 0x80 to 0x9F.
    Cp1252,
    /// UTF-16 in the order of its mark; without one, the lower byte of a unit is the first.
    Utf16,
}

/// Which byte of two is the first.
#[derive(Clone, Copy)]
pub(crate) enum Order {
    /// The higher one.
    Big,
    /// The lower one.
    Little,
}

/// How bytes that aren't UTF-8 spell characters.
#[derive(Clone, Copy)]
pub(crate) enum Scheme {
    Latin1,
    Cp1252,
    Utf16(Order),
}

/// What the first of some bytes spell.
pub(crate) enum First {
    /// A character, which takes so many bytes.
    Char(char, usize),
    /// A part of a character, or there are none.
    Part,
    /// No character.
    Nothing,
}

impl Encoding {
    /// The names of encodings, as they are listed.
    pub const NAMES: [&'static str; 4] = ["utf-8", "latin1", "cp1252", "utf-16"];

    /// The encoding of this name.
    pub fn by_name(name: &str) -> Option<Encoding>
        ensures { result ≡ spec.encoding_named name.now }
    {
        match name {
            "utf-8" => Some(Encoding::Utf8),
            "latin1" => Some(Encoding::Latin1),
            "cp1252" => Some(Encoding::Cp1252),
            "utf-16" => Some(Encoding::Utf16),
            _ => None,
        }
    }
}

const BIG_MARK: [u8; 2] = [0xfe, 0xff];

const LITTLE_MARK: [u8; 2] = [0xff, 0xfe];

// How bytes spell characters where they are no database.
fn scheme_asked(encoding: Option<Encoding>, bytes: &[u8]) -> Option<Scheme>
    ensures { result ≡ spec.scheme_asked encoding bytes.now }
{
    match encoding {
        None if bytes.starts_with(&LITTLE_MARK) => Some(Scheme::Utf16(Order::Little)),
        None if bytes.starts_with(&BIG_MARK) => Some(Scheme::Utf16(Order::Big)),
        None | Some(Encoding::Utf8) => None,
        Some(Encoding::Latin1) => Some(Scheme::Latin1),
        Some(Encoding::Cp1252) => Some(Scheme::Cp1252),
        Some(Encoding::Utf16) if bytes.starts_with(&BIG_MARK) => Some(Scheme::Utf16(Order::Big)),
        Some(Encoding::Utf16) => Some(Scheme::Utf16(Order::Little)),
    }
}

/// How the bytes of an input spell characters where they aren't UTF-8, by the encoding that is asked for, or by the
/// first of them. A database is no text.
pub(crate) fn scheme_of(encoding: Option<Encoding>, bytes: &[u8]) -> Option<Scheme>
    ensures { result ≡ spec.scheme_of encoding bytes.now }
{
    if is_database(bytes) {
        return None;
    }
    scheme_asked(encoding, bytes)
}

/// Whether the first bytes of an input show how all of them spell characters.
pub(crate) fn shows_scheme(bytes: &[u8]) -> bool
    ensures shown { result ≡ true → (encoding : _) (more : List ℕ) → spec.scheme_of encoding (bytes.now ++ more) ≡ spec.scheme_of encoding bytes.now }
    ensures long { 16 ≤ length bytes.now → result ≡ true }
{
    shows_mark(bytes, &LITTLE_MARK)
        && shows_mark(bytes, &BIG_MARK)
        && shows_mark(bytes, b"SQLite format 3\0")
}

const SIGNS: [char; 32] = [
    '€', '\u{81}', '‚', 'ƒ', '„', '…', '†', '‡', 'ˆ', '‰', 'Š', '‹', 'Œ', '\u{8d}', 'Ž', '\u{8f}',
    '\u{90}', '‘', '’', '“', '”', '•', '–', '—', '˜', '™', 'š', '›', 'œ', '\u{9d}', 'ž', 'Ÿ',
];

// The character of a byte in code page 1252.
fn cp1252_char(byte: u8) -> char
    ensures { result ≡ spec.cp1252_char byte }
{
    match byte {
        0x80..=0x9f => SIGNS[(byte - 0x80) as usize],
        _ => char::from(byte),
    }
}

impl Order {
    // The unit that two bytes are.
    fn unit(self, first: u8, second: u8) -> u32
        ensures unit { result ≡ spec.unit_of self first second }
        ensures small { result < 65536 }
    {
        match self {
            Order::Big => 256 * u32::from(first) + u32::from(second),
            Order::Little => u32::from(first) + 256 * u32::from(second),
        }
    }
}

// The character of two units, where they are a pair of surrogates.
fn pair_char(high: u32, low: u32) -> Option<char>
    requires high { high < 65536 }
    requires low { low < 65536 }
    ensures { result ≡ (if is_high_surrogate high && is_low_surrogate low then Some (surrogate_pair_char high low) else None) }
{
    if (0xd800..0xdc00).contains(&high) && (0xdc00..0xe000).contains(&low) {
        char::from_u32(0x10000 + (high - 0xd800) * 0x400 + (low - 0xdc00))
    } else {
        None
    }
}

// What two bytes, which are this surrogate, and those behind them spell.
fn first_of_pair(order: Order, high: u32, rest: &[u8]) -> First
    requires from { 0xD800 ≤ high }
    requires below { high < 0xE000 }
    ensures { (first second : ℕ) → high ≡ spec.unit_of order first second → spec.ShowsFirst (Scheme.Utf16 order) (first ∷ second ∷ rest.now) result }
{
    match rest {
        [third, fourth, ..] => match pair_char(high, order.unit(*third, *fourth)) {
            Some(c) => First::Char(c, 4),
            None => First::Nothing,
        },
        _ if high < 0xdc00 => First::Part,
        _ => First::Nothing,
    }
}

// What the first bytes spell in UTF-16.
fn first_unit(order: Order, bytes: &[u8]) -> First
    ensures { spec.ShowsFirst (Scheme.Utf16 order) bytes.now result }
{
    match bytes {
        [first, second, rest @ ..] => {
            let unit = order.unit(*first, *second);
            match char::from_u32(unit) {
                Some(c) => First::Char(c, 2),
                None => first_of_pair(order, unit, rest),
            }
        }
        _ => First::Part,
    }
}

/// What the first bytes spell.
pub(crate) fn first_in(scheme: Scheme, bytes: &[u8]) -> First
    ensures { spec.ShowsFirst scheme bytes.now result }
{
    match (scheme, bytes) {
        (Scheme::Utf16(order), _) => first_unit(order, bytes),
        (Scheme::Latin1, [byte, ..]) => First::Char(char::from(*byte), 1),
        (Scheme::Cp1252, [byte, ..]) => First::Char(cp1252_char(*byte), 1),
        (_, []) => First::Part,
    }
}
