//! Texts that Markdown reads as text.

ghost use Rattle.std.specs.Prelude.{◌≡◌, ◌++◌, true, chars, string_bytes, IfOk, OnOk};
ghost use Rattle.std.specs.List.{list_all};
ghost use Rattle.ruled_table.specs.Shown.{escape_of, escaped_text, is_plain};

use std::alloc::{AllocError, Global};

// Appends the escape of a character.
fn push_escaped(c: char, text: &mut String) -> Result<(), AllocError>
    ensures { OnOk result (string_bytes text.new ≡ string_bytes text.old ++ escape_of c) }
{
    match c {
        '|' => text.push_str("\\|"),
        '\\' => text.push_str("\\\\"),
        '\n' => text.push_str("<br>"),
        _ => text.push(c),
    }
}

// Whether a character needs no escape.
fn is_plain(c: char) -> bool
    ensures { result ≡ is_plain c }
{
    !(c == '|' || c == '\\' || c == '\n')
}

// Whether each character of a text is plain.
fn has_plain_alone(text: &str) -> bool
    ensures { result ≡ list_all is_plain (chars text.now) }
{
    text.chars().all(|c| is_plain(c))
}

/// Whether a text needs no escapes as one cell of a Markdown table.
#[tactic(auto, using(crate::proofs::LentTexts::plain_texts_stay))]
pub(crate) fn is_plain_text(text: &str) -> bool
    ensures { result ≡ true → escaped_text text.now ≡ text.now }
{
    has_plain_alone(text)
}

/// A text as one cell of a Markdown table: a bar is `\|`, a backslash `\\`, and a line feed `<br>`.
pub(crate) fn escaped(alloc: Global, text: &str) -> Result<String, AllocError>
    ensures { IfOk result (λ escaped. string_bytes escaped ≡ escaped_text text.now) }
{
    let mut escaped = String::with_capacity(alloc, text.len())?;
    for c in text.chars() {
        push_escaped(c, &mut escaped)?;
    }
    Ok(escaped)
}
