//! What a number is.

ghost use Rattle.std.specs.Prelude.{◌≡◌, ◌<◌, ◌==◌, ◌||◌, position, length, IfSome};
ghost use Rattle.std.specs.List.{list_all};
ghost use Rattle.ruled_sql.specs.Filled as spec;

// Digits and nothing else.
fn has_digits_alone(text: &[u8]) -> bool
    ensures { result ≡ list_all spec.is_digit text.now }
{
    text.iter().all(|byte| byte.is_ascii_digit())
}

// Digits, at least one.
fn are_digits(text: &[u8]) -> bool
    ensures { result ≡ spec.are_digits text.now }
{
    !text.is_empty() && has_digits_alone(text)
}

// A zero before others.
fn is_padded(text: &[u8]) -> bool
    ensures { result ≡ spec.is_padded text.now }
{
    text.len() > 1 && text[0] == b'0'
}

// At most 18 digits, and no zero before others.
fn is_whole(text: &[u8]) -> bool
    ensures { result ≡ spec.is_whole text.now }
{
    text.len() <= 18 && !is_padded(text) && are_digits(text)
}

// The place of the first point.
fn point_of(text: &[u8]) -> Option<usize>
    ensures place { result ≡ position (λ byte. byte == 46) text.now }
    ensures within { IfSome result (λ point. point < length text.now) }
{
    text.iter().position(|byte| *byte == b'.')
}

// The place of the first `e`.
fn mark_of(text: &[u8]) -> Option<usize>
    ensures place { result ≡ position (λ byte. (byte == 101) || (byte == 69)) text.now }
    ensures within { IfSome result (λ mark. mark < length text.now) }
{
    text.iter().position(|byte| *byte == b'e' || *byte == b'E')
}

// A whole number, and perhaps digits after a point.
fn is_decimal(text: &[u8]) -> bool
    ensures { result ≡ spec.is_decimal text.now }
{
    match point_of(text) {
        None => is_whole(text),
        Some(point) => is_whole(&text[..point]) && are_digits(&text[point + 1..]),
    }
}

// A text without a minus at its front.
fn without_minus(text: &[u8]) -> &[u8]
    ensures { result.now ≡ spec.without_minus text.now }
{
    text.strip_prefix(b"-").unwrap_or(text)
}

// A text without a sign at its front.
fn unsigned(text: &[u8]) -> &[u8]
    ensures { result.now ≡ spec.unsigned text.now }
{
    if let Some(others) = text.strip_prefix(b"+") {
        return others;
    }
    without_minus(text)
}

// A decimal number, and perhaps a power of ten after it.
fn is_scaled(text: &[u8]) -> bool
    ensures { result ≡ spec.is_scaled text.now }
{
    match mark_of(text) {
        None => is_decimal(text),
        Some(mark) => is_decimal(&text[..mark]) && are_digits(unsigned(&text[mark + 1..])),
    }
}

/// Whether a text is a number as JSON has it, with at most 18 digits before a point.
#[tactic(auto, unfolding(crate::specs::Filled::is_number))]
pub(crate) fn is_number(text: &str) -> bool
    ensures { result ≡ spec.is_number text.now }
{
    is_scaled(without_minus(text.as_bytes()))
}
