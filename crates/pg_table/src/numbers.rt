//! What a number is, and its parts.

ghost use Rattle.std.specs.Prelude.{◌≡◌, ◌<◌, ◌==◌, ◌||◌, not, true, length, position, IfSome};
ghost use Rattle.std.specs.List.{list_all};
ghost use Rattle.std.specs.Io.BufRead.{strip_last};
ghost use Rattle.pg_table.specs.Numbers as spec;

/// How many characters a number has in front of its point, and from this on.
#[derive(Clone, Copy)]
pub struct Extent {
    /// Its whole part: a sign, digits and commas.
    pub whole: usize,
    /// The rest: a point and what follows it, an exponent, or a percent sign.
    pub rest: usize,
}

// Digits and nothing else.
fn has_digits_alone(text: &[u8]) -> bool
    ensures { result ≡ list_all spec.is_digit text.now }
{
    text.iter().all(|byte| byte.is_ascii_digit())
}

// Digits and commas, and nothing else.
fn has_figures_alone(text: &[u8]) -> bool
    ensures { result ≡ list_all spec.is_figure text.now }
{
    text.iter()
        .all(|byte| byte.is_ascii_digit() || *byte == b',')
}

/// Digits, at least one.
pub fn are_digits(text: &[u8]) -> bool
    ensures { result ≡ spec.are_digits text.now }
{
    !text.is_empty() && has_digits_alone(text)
}

// Digits, and commas after the first one.
fn is_whole(text: &[u8]) -> bool
    ensures { result ≡ spec.is_whole text.now }
{
    match text {
        [] => false,
        [first, others @ ..] => first.is_ascii_digit() && has_figures_alone(others),
    }
}

/// The place of the first point.
pub fn point_of(text: &[u8]) -> Option<usize>
    ensures place { result ≡ position (λ byte. byte == 46) text.now }
    ensures within { IfSome result (λ point. point < length text.now) }
{
    text.iter().position(|byte| *byte == b'.')
}

/// The place of the first `e`.
pub fn mark_of(text: &[u8]) -> Option<usize>
    ensures place { result ≡ position (λ byte. (byte == 101) || (byte == 69)) text.now }
    ensures within { IfSome result (λ mark. mark < length text.now) }
{
    text.iter().position(|byte| *byte == b'e' || *byte == b'E')
}

// A whole number, or digits after a point and perhaps a whole number before it.
fn is_decimal(text: &[u8]) -> bool
    ensures { result ≡ spec.is_decimal text.now }
{
    match point_of(text) {
        None => is_whole(text),
        Some(point) => (point == 0 || is_whole(&text[..point])) && are_digits(&text[point + 1..]),
    }
}

/// A text without a sign at its front.
pub fn unsigned(text: &[u8]) -> &[u8]
    ensures { result.now ≡ spec.unsigned text.now }
{
    if let Some(others) = text.strip_prefix(b"+") {
        return others;
    }
    if let Some(others) = text.strip_prefix(b"-") {
        return others;
    }
    text.strip_prefix(&[0xe2, 0x88, 0x92]).unwrap_or(text)
}

/// A text without a percent sign at its end.
pub fn without_percent(text: &[u8]) -> &[u8]
    ensures { result.now ≡ strip_last 37 text.now }
{
    match text {
        [others @ .., b'%'] => others,
        _ => text,
    }
}

// The place of the first byte that isn't a digit.
fn digits_end(text: &[u8]) -> Option<usize>
    ensures place { result ≡ position (λ byte. not (spec.is_digit byte)) text.now }
    ensures within { IfSome result (λ end. end < length text.now) }
{
    text.iter().position(|byte| !byte.is_ascii_digit())
}

// Digits, and perhaps a point between two of them. Most numbers are so, and are found by fewer walks.
fn is_simple(text: &[u8]) -> bool
    ensures { result ≡ true → spec.is_number text.now ≡ true }
{
    match digits_end(text) {
        None => !text.is_empty(),
        Some(end) => {
            if end == 0 {
                return false;
            }
            text[end] == b'.' && are_digits(&text[end + 1..])
        }
    }
}

// A decimal number, and perhaps a power of ten after it.
fn is_scaled(text: &[u8]) -> bool
    ensures { result ≡ spec.is_scaled text.now }
{
    match mark_of(text) {
        None => is_decimal(text),
        Some(mark) => is_decimal(&text[..mark]) && are_digits(unsigned(&text[mark + 1..])),
    }
}

/// Whether a text is a number: perhaps a sign; a whole number, whose digits may have commas between
/// them, or digits with a point before or among them; perhaps a power of ten; and perhaps a percent
/// sign.
#[tactic(auto, unfolding(crate::specs::Numbers::is_number))]
pub fn is_number(text: &str) -> bool
    ensures { result ≡ spec.is_number text.now }
{
    is_simple(text.as_bytes()) || is_scaled(without_percent(unsigned(text.as_bytes())))
}

// Whether a text is blank: it holds nothing but spaces.
fn is_blank(text: &str) -> bool
    ensures { result ≡ spec.is_blank text.now }
{
    text.as_bytes().iter().all(|byte| *byte == b' ')
}

/// Whether a text is a number, or blank: it holds nothing but spaces.
pub fn is_number_or_blank(text: &str) -> bool
    ensures { result ≡ spec.is_number_or_blank text.now }
{
    is_blank(text) || is_number(text)
}

// Whether what follows the whole part of a number begins with this character.
fn ends_whole(c: char) -> bool
    ensures { result ≡ spec.ends_whole c }
{
    matches!(c, '.' | 'e' | 'E' | '%')
}

// How many characters the whole part of a number has.
fn whole_len(text: &str) -> usize
    ensures { result ≡ spec.whole_len text.now }
{
    text.chars().take_while(|c| !ends_whole(*c)).count()
}

// How many characters follow it.
#[tactic(auto, using(std::proofs::lemmas::Str::chars_from_encodes))]
fn rest_len(text: &str) -> usize
    ensures { result ≡ spec.rest_len text.now }
{
    text.chars().count().saturating_sub(whole_len(text))
}

/// The extent of a text: that of a number, and 0 and 0 if it is none.
pub fn own_extent(text: &str) -> Extent
    ensures { result ≡ spec.own_extent text.now }
{
    if !is_number(text) {
        return Extent { whole: 0, rest: 0 };
    }
    Extent {
        whole: whole_len(text),
        rest: rest_len(text),
    }
}

/// By how many characters the rest of a number is shorter than this; 0 if the text is no number.
pub fn lacking(rest: usize, text: &str) -> usize
    ensures { result ≡ spec.lacking rest text.now }
{
    if is_number(text) {
        rest.saturating_sub(rest_len(text))
    } else {
        0
    }
}
