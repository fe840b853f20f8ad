//! The words of a line, and what they mean.

use crate::lines::LineFault;
use crate::settings::borders::{PlaceValue, borders_at, borders_named};
use pg_layout::{
    ANSIBuf, AlignmentHorizontal, AlignmentVertical, Borders, Entity, Indent, Offset, Position,
    Sides,
};
use std::alloc::Allocator;

/// What is left of a line that is read word by word. Single spaces separate words.
///
/// A call that reads the next words returns some value even if one is missing or wrong. [`end`](Words::end) returns
/// what was wrong with any word of the line: a word that is left is an error, too.
#[derive(Clone, Copy)]
pub struct Words<'a> {
    // `None` after the last word.
    rest: Option<&'a str>,
    // What is wrong with a word that was read.
    fault: Option<LineFault>,
}

impl<'a> Words<'a> {
    /// All words of a line. An empty one has none.
    pub fn new(line: &'a str) -> Words<'a> {
        Words {
            rest: (!line.is_empty()).then_some(line),
            fault: None,
        }
    }

    /// The next word, or an empty one if none is left.
    pub fn word(&mut self) -> &'a str {
        let Some(line) = self.rest else {
            self.fault = Some(LineFault::Unknown);
            return "";
        };
        match line.split_once(' ') {
            Some((word, rest)) => {
                self.rest = Some(rest);
                word
            }
            None => {
                self.rest = None;
                line
            }
        }
    }

    /// All words that are left, or an empty text.
    pub fn text(&mut self) -> &'a str {
        let text = self.rest.unwrap_or("");
        self.rest = None;
        text
    }

    /// What was read of the whole line.
    pub fn end<T: Drop>(self, read: T) -> Result<T, LineFault> {
        match (self.fault, self.rest) {
            (None, None) => Ok(read),
            (Some(fault), _) => Err(fault),
            (None, Some(_)) => Err(LineFault::Unknown),
        }
    }

    /// A word that was read has this fault.
    pub(crate) fn note(&mut self, fault: LineFault) {
        self.fault = Some(fault);
    }

    // What a word means, or something else if it is wrong.
    fn taken<T: Drop>(&mut self, meant: Result<T, LineFault>, other: T) -> T {
        match meant {
            Ok(meant) => meant,
            Err(fault) => {
                self.fault = Some(fault);
                other
            }
        }
    }

    // Something in place of what an unknown word means.
    fn unknown<T: Drop>(&mut self, other: T) -> T {
        self.fault = Some(LineFault::Unknown);
        other
    }

    /// The number that a word of the line means.
    pub(crate) fn number_in(&mut self, word: &str) -> usize {
        match word.parse::<usize>() {
            Ok(number) => number,
            Err(_) => self.unknown(0),
        }
    }

    /// The next word as a number.
    pub fn number(&mut self) -> usize {
        let word = self.word();
        self.number_in(word)
    }

    /// The next two words as numbers.
    pub(crate) fn numbers(&mut self) -> (usize, usize) {
        let first = self.number();
        (first, self.number())
    }

    /// The last word as a number.
    pub fn last_number(mut self) -> Result<usize, LineFault> {
        let number = self.number();
        self.end(number)
    }

    /// The next two words as a row and a column.
    pub fn place(&mut self) -> Position {
        Position::from(self.numbers())
    }

    /// The next words as all cells, a row, a column or a cell.
    pub(crate) fn entity(&mut self) -> Entity {
        match self.word() {
            "all" => Entity::Global,
            "row" => Entity::Row(self.number()),
            "col" => Entity::Column(self.number()),
            "cell" => Entity::from(self.place()),
            _ => self.unknown(Entity::Global),
        }
    }

    /// The next two words as a place that is counted from the start or from the end.
    pub(crate) fn offset(&mut self) -> Offset {
        match self.word() {
            "start" => Offset::Start(self.number()),
            "end" => Offset::End(self.number()),
            _ => self.unknown(Offset::Start(0)),
        }
    }

    /// The next words as a place, and as that of a single glyph there.
    pub(crate) fn glyph_place(&mut self) -> (Position, Offset) {
        let pos = self.place();
        (pos, self.offset())
    }

    /// The next eight words as such places, one at each side.
    pub(crate) fn offsets(&mut self) -> Sides<Offset> {
        let left = self.offset();
        let right = self.offset();
        let top = self.offset();
        Sides::new(left, right, top, self.offset())
    }

    /// The next word as a glyph or a colour, or `None` for none.
    pub fn value<A, T: PlaceValue<A> + Drop>(&mut self, alloc: A) -> Option<T> {
        let meant = T::of_word(alloc, self.word());
        self.taken(meant, None)
    }

    /// The next word as a glyph, which can't be none.
    pub(crate) fn fill(&mut self) -> char {
        match self.value(()) {
            Some(glyph) => glyph,
            None => self.unknown(' '),
        }
    }

    // The next word as the size and the fill of a side, as `3` or `3:.`.
    fn indent(&mut self) -> Indent {
        let word = self.word();
        let (size, fill) = word.split_once(':').unwrap_or((word, "space"));
        match (size.parse::<usize>(), glyph_of(fill)) {
            (Ok(size), Ok(Some(fill))) => Indent::new(size, fill),
            _ => self.unknown(Indent::new(0, ' ')),
        }
    }

    /// The next four words as the sizes and fills of the sides.
    pub fn indents(&mut self) -> Sides<Indent> {
        let left = self.indent();
        let right = self.indent();
        let top = self.indent();
        Sides::new(left, right, top, self.indent())
    }

    /// The next word as a colour, which can't be none.
    pub(crate) fn color_there<A: Allocator + Copy>(
        &mut self,
        alloc: A,
    ) -> Result<ANSIBuf<A>, LineFault> {
        match self.value(alloc) {
            Some(color) => Ok(color),
            None => Err(self.fault.unwrap_or(LineFault::Unknown)),
        }
    }

    /// The next four words as the colours of the sides.
    pub(crate) fn colors<A: Allocator + Copy>(&mut self, alloc: A) -> Sides<Option<ANSIBuf<A>>> {
        let left = self.value(alloc);
        let right = self.value(alloc);
        let top = self.value(alloc);
        Sides::new(left, right, top, self.value(alloc))
    }

    /// All words that are left as the borders of a look, or as those whose places are named.
    pub fn borders(&mut self) -> Borders<char> {
        if self.rest.unwrap_or("").contains('=') {
            return borders_at((), self);
        }
        let meant = borders_named(self.text());
        self.taken(meant, Borders::empty())
    }

    /// The next word as a horizontal alignment.
    pub fn horizontal(&mut self) -> AlignmentHorizontal {
        match self.word() {
            "left" => AlignmentHorizontal::Left,
            "center" => AlignmentHorizontal::Center,
            "right" => AlignmentHorizontal::Right,
            _ => self.unknown(AlignmentHorizontal::Left),
        }
    }

    /// The next word as a vertical alignment.
    pub(crate) fn vertical(&mut self) -> AlignmentVertical {
        match self.word() {
            "top" => AlignmentVertical::Top,
            "center" => AlignmentVertical::Center,
            "bottom" => AlignmentVertical::Bottom,
            _ => self.unknown(AlignmentVertical::Top),
        }
    }

    /// The next word as a switch.
    pub(crate) fn switch(&mut self) -> bool {
        match self.word() {
            "on" => true,
            "off" => false,
            _ => self.unknown(false),
        }
    }
}

/// The glyph that a word means, or `None` for none.
pub(crate) fn glyph_of(word: &str) -> Result<Option<char>, LineFault> {
    match word {
        "none" => Ok(None),
        "space" => Ok(Some(' ')),
        _ => match word.parse::<char>() {
            Ok(glyph) => Ok(Some(glyph)),
            Err(_) => Err(LineFault::Unknown),
        },
    }
}

/// The colour that a word means, or `None` for none.
pub(crate) fn color_of<A: Allocator + Copy>(
    alloc: A,
    word: &str,
) -> Result<Option<ANSIBuf<A>>, LineFault> {
    if word == "none" {
        return Ok(None);
    }
    let Some((prefix, suffix)) = word.split_once('|') else {
        return Err(LineFault::Unknown);
    };
    match ANSIBuf::new(alloc, prefix, suffix) {
        Ok(color) => Ok(Some(color)),
        Err(_) => Err(LineFault::Memory),
    }
}
