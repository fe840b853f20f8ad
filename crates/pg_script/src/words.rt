//! The words of one line of a script.

ghost use Rattle.std.specs.Prelude.{◌≡◌, ◌<◌, ◌∷◌, [], IfSome, MatchOption, IfOk, option_map, string_bytes};
ghost use Rattle.pg_script.specs.Words.{words_of, behind_word, number_of, first_number, first_place, first_sizes, first_entity, end_of, char_of, text_of, escaped_of, meant};

use pg_layout::{Entity, Position, Sides};
use std::alloc::{AllocError, Allocator};

/// The most digits that a number of a script has.
const MOST_DIGITS: usize = 20;

/// What is left of a line that is read word by word.
///
/// One or more spaces separate words. After a word, the rest of the line begins after the one space
/// that ends the word.
#[derive(Clone, Copy)]
pub(crate) struct Words<'a> {
    rest: &'a str,
}

impl<'a> Words<'a> {
    /// All words of a line.
    pub(crate) fn new(line: &'a str) -> Words<'a>
        ensures { result.rest.now ≡ line.now }
    {
        Words { rest: line }
    }

    /// The next word, or `None` if there is none.
    pub(crate) fn next_word(&mut self) -> Option<&'a str>
        ensures words { MatchOption result (words_of self.old.rest.now ≡ []) (λ word. words_of self.old.rest.now ≡ word.now ∷ words_of self.new.rest.now) }
        ensures behind { IfSome result (λ _. self.new.rest.now ≡ behind_word self.old.rest.now) }
    {
        while let Some((word, rest)) = self.rest.split_once(' ') {
            self.rest = rest;
            if !word.is_empty() {
                return Some(word);
            }
        }
        let word = self.rest;
        self.rest = "";
        if word.is_empty() { None } else { Some(word) }
    }

    /// The next word as a number, or `None` if it isn't one.
    pub(crate) fn number(&mut self) -> Option<usize>
        ensures words { first_number (words_of self.old.rest.now) ≡ option_map (λ number. (number, words_of self.new.rest.now)) result }
        ensures behind { IfSome result (λ _. self.new.rest.now ≡ behind_word self.old.rest.now) }
    {
        self.next_word().and_then(number_of)
    }

    /// The next two words as a place, or `None` if they aren't one.
    pub(crate) fn place(&mut self) -> Option<Position>
        ensures words { first_place (words_of self.old.rest.now) ≡ option_map (λ place. (place, words_of self.new.rest.now)) result }
        ensures behind { IfSome result (λ _. self.new.rest.now ≡ behind_word (behind_word self.old.rest.now)) }
    {
        let row = self.number()?;
        let col = self.number()?;
        Some(Position::new(row, col))
    }

    /// The next four words as sizes at the left, at the right, above and below, or `None` if they
    /// aren't sizes.
    pub(crate) fn sizes(&mut self) -> Option<Sides<usize>>
        ensures { first_sizes (words_of self.old.rest.now) ≡ option_map (λ sizes. (sizes, words_of self.new.rest.now)) result }
    {
        let left = self.number()?;
        let right = self.number()?;
        let top = self.number()?;
        let bottom = self.number()?;
        Some(Sides::new(left, right, top, bottom))
    }

    /// The next words as an entity, or `None` if they aren't one.
    pub(crate) fn entity(&mut self) -> Option<Entity>
        ensures { first_entity (words_of self.old.rest.now) ≡ option_map (λ entity. (entity, words_of self.new.rest.now)) result }
    {
        match self.next_word()? {
            "all" => Some(Entity::Global),
            "row" => Some(Entity::Row(self.number()?)),
            "col" => Some(Entity::Column(self.number()?)),
            "cell" => Some(Entity::from(self.place()?)),
            _ => None,
        }
    }

    /// The end of the line, or `None` if a word is left.
    pub(crate) fn end(mut self) -> Option<()>
        ensures { result ≡ end_of (words_of self.entry.rest.now) }
    {
        match self.next_word() {
            Some(_) => None,
            None => Some(()),
        }
    }

    /// All that is left, with its spaces.
    pub(crate) fn text(self) -> &'a str
        ensures { result.now ≡ self.entry.rest.now }
    {
        self.rest
    }
}

/// The number that a word writes in decimal digits, or `None` if it has other characters, too many
/// digits or too great a value.
pub(crate) fn number_of(word: &str) -> Option<usize>
    ensures { result ≡ number_of word.now }
{
    if word.len() > MOST_DIGITS || word.starts_with('+') {
        return None;
    }
    word.parse::<usize>().ok()
}

/// The character that a word means: `\s` is a space, `\\` a backslash, any other character itself;
/// `None` for other words.
#[tactic(auto, using(crate::proofs::LineWords::words_read))]
pub(crate) fn char_of(word: &str) -> Option<char>
    ensures { result ≡ char_of word.now }
{
    match word {
        "\\s" => Some(' '),
        "\\\\" => Some('\\'),
        "\\" => None,
        _ => word.parse::<char>().ok(),
    }
}

fn meant(c: char) -> Option<char>
    ensures { result ≡ meant c }
{
    match c {
        'n' => Some('\n'),
        'r' => Some('\r'),
        '\\' => Some('\\'),
        _ => None,
    }
}

// What the first character after a backslash means, and the text after it.
#[tactic(auto, using(crate::proofs::LineWords::words_read))]
fn escaped(text: &str) -> Option<(char, &str)>
    ensures read { option_map (λ read. (read.0, read.1.now)) result ≡ escaped_of text.now }
    ensures ascii { IfSome result (λ read. read.0 < 128) }
{
    let mut chars = text.chars();
    let meant = meant(chars.next()?)?;
    Some((meant, chars.as_str()))
}

/// The text that `written` means: `\n` is a line feed, `\r` a carriage return, `\\` a backslash;
/// `None` if it has any other backslash.
pub(crate) fn text_of<A: Allocator>(
    alloc: A,
    written: &str,
) -> Result<Option<String<A>>, AllocError>
    ensures { IfOk result (λ text. option_map string_bytes text ≡ text_of written.now) }
{
    let mut text = String::new(alloc);
    let mut rest = written;
    while let Some((before, behind)) = rest.split_once('\\') {
        let Some((meant, behind)) = escaped(behind) else {
            return Ok(None);
        };
        text.push_str(before)?;
        text.push(meant)?;
        rest = behind;
    }
    text.push_str(rest)?;
    Ok(Some(text))
}
