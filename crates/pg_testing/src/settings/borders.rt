//! Borders, the border of a cell and row lines: those of a look, and those whose places are named.

use crate::lines::LineFault;
use crate::settings::words::{Words, color_of, glyph_of};
use pg_layout::{ANSIBuf, ANSIStr, Border, Borders, HorizontalLine, Look};
use std::alloc::Allocator;

/// What a place may hold: a glyph or a colour, in memory of the type `A` if it takes any.
pub trait PlaceValue<A>: Sized {
    /// The value that a word means, or `None` for none.
    fn of_word(alloc: A, word: &str) -> Result<Option<Self>, LineFault>;
}

impl PlaceValue<()> for char {
    fn of_word(_alloc: (), word: &str) -> Result<Option<char>, LineFault> {
        glyph_of(word)
    }
}

impl<A: Allocator + Copy> PlaceValue<A> for ANSIBuf<A> {
    fn of_word(alloc: A, word: &str) -> Result<Option<ANSIBuf<A>>, LineFault> {
        color_of(alloc, word)
    }
}

impl PlaceValue<()> for ANSIStr<'static> {
    // A colour of a compact table, whose texts are in the program, has a name.
    fn of_word(_alloc: (), word: &str) -> Result<Option<ANSIStr<'static>>, LineFault> {
        match word {
            "red" => Ok(Some(ANSIStr::new("<r>", "</r>"))),
            "green" => Ok(Some(ANSIStr::new("<g>", "</g>"))),
            "blue" => Ok(Some(ANSIStr::new("<b>", "</b>"))),
            "empty" => Ok(Some(ANSIStr::default())),
            _ => Err(LineFault::Unknown),
        }
    }
}

/// Words that give places their values, as `top=- left=|`, which are read place by place.
#[derive(Drop)]
struct NamedValues<'a, A> {
    alloc: A,
    words: &'a str,
    // How many words were read.
    read: usize,
    // What is wrong with a value that was read.
    fault: Option<LineFault>,
}

impl<'a, A: Copy> NamedValues<'a, A> {
    // Nothing was read of these words.
    fn new(alloc: A, words: &'a str) -> NamedValues<'a, A> {
        NamedValues {
            alloc,
            words,
            read: 0,
            fault: None,
        }
    }

    // The value of the place of this name, or `None` if no word names it.
    fn at<T: PlaceValue<A> + Drop>(&mut self, name: &str) -> Option<T> {
        for word in self.words.split(' ') {
            let (place, value) = word.split_once('=').unwrap_or((word, ""));
            if place == name {
                self.read = self.read.saturating_add(1);
                match T::of_word(self.alloc, value) {
                    Ok(value) => return value,
                    Err(fault) => self.fault = Some(fault),
                }
            }
        }
        None
    }

    // Notes what is wrong with these words: each of them names a place.
    fn end(&self, words: &mut Words<'_>) {
        let is_read = self.words.is_empty() || self.words.split(' ').count() == self.read;
        if let Some(fault) = self.fault {
            words.note(fault);
        }
        if !is_read {
            words.note(LineFault::Unknown);
        }
    }
}

/// The border of a cell whose places the words that are left name. The others are empty.
pub(crate) fn border_at<A: Copy, T: PlaceValue<A> + Drop>(
    alloc: A,
    words: &mut Words<'_>,
) -> Border<T> {
    let mut values = NamedValues::new(alloc, words.text());
    let border = Border {
        top: values.at("top"),
        bottom: values.at("bottom"),
        left: values.at("left"),
        right: values.at("right"),
        top_left: values.at("top_left"),
        top_right: values.at("top_right"),
        bottom_left: values.at("bottom_left"),
        bottom_right: values.at("bottom_right"),
    };
    values.end(words);
    border
}

/// The borders whose places the words that are left name. The others are empty.
pub fn borders_at<A: Copy, T: PlaceValue<A> + Drop>(alloc: A, words: &mut Words<'_>) -> Borders<T> {
    let mut values = NamedValues::new(alloc, words.text());
    let borders = Borders {
        top: values.at("top"),
        top_left: values.at("top_left"),
        top_right: values.at("top_right"),
        top_intersection: values.at("top_intersection"),
        bottom: values.at("bottom"),
        bottom_left: values.at("bottom_left"),
        bottom_right: values.at("bottom_right"),
        bottom_intersection: values.at("bottom_intersection"),
        horizontal: values.at("horizontal"),
        left_intersection: values.at("left_intersection"),
        right_intersection: values.at("right_intersection"),
        intersection: values.at("intersection"),
        left: values.at("left"),
        right: values.at("right"),
        vertical: values.at("vertical"),
    };
    values.end(words);
    borders
}

/// The row line whose places the words that are left name. The others are empty.
pub(crate) fn row_line_at(words: &mut Words<'_>) -> HorizontalLine<char> {
    let mut values = NamedValues::new((), words.text());
    let line = HorizontalLine {
        main: values.at("main"),
        intersection: values.at("intersection"),
        left: values.at("left"),
        right: values.at("right"),
    };
    values.end(words);
    line
}

/// The borders of a look, or none.
pub(crate) fn borders_named(name: &str) -> Result<Borders<char>, LineFault> {
    match Look::by_name(name) {
        Some(look) => Ok(look.borders()),
        None if name == "empty" => Ok(Borders::empty()),
        None => Err(LineFault::Unknown),
    }
}

/// The line below the header of a look that has one.
pub fn header_line_named(name: &str) -> Result<HorizontalLine<char>, LineFault> {
    let look = Look::by_name(name).ok_or(LineFault::Unknown)?;
    look.header_line().ok_or(LineFault::Unknown)
}
