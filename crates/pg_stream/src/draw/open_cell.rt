//! An open cell: its value, where it begins, and which of its lines comes next.

ghost use Rattle.std.specs.Prelude.{◌≡◌, ◌+◌, ◌≤◌, ◌<◌, ◌^◌, length, is_some};
ghost use Rattle.pg_layout.specs.LineCursor.{StandsIn, line_number};
ghost use Rattle.pg_layout.specs.Text.{lines_of};
ghost use Rattle.pg_picture.specs.Inside.{text_line_at, line_if};
ghost use Rattle.pg_stream.specs.Placed.{Placed};

use pg_layout::LineCursor;
use pg_picture::CellPlace;
use std::convert::AsStr;
use std::marker::Model;

/// A cell that was begun in a row and is drawn line by line.
pub(crate) struct OpenCell<S: AsStr> {
    value: S,
    begun: usize,
    drawn: usize,
    width: usize,
    place: CellPlace,
    // At the line of the text that is shown next, if there is one.
    cursor: LineCursor,
}

// Written out, so that it is proved here, once for all texts, and not by each program that drops
// open cells.
impl<S: AsStr + Drop> Drop for OpenCell<S> {
    fn drop(self) {
        let OpenCell {
            value,
            begun: _,
            drawn: _,
            width: _,
            place: _,
            cursor: _,
        } = self;
        drop(value);
    }
}

impl<S: AsStr> Model for OpenCell<S> {
    ghost use Rattle.pg_stream.specs.Placed.{Placed};
    ghost use Rattle.pg_stream.specs.Inside.{StandsAtNext};

    ghost Value = { Placed };

    ghost view = { λ c. record { begun = c.begun; text = S.text c.value; drawn = c.drawn; width = c.width; place = c.place } };

    ghost invariant = { λ c. StandsAtNext c.cursor (S.text c.value) c.place c.drawn };
}

impl<S: AsStr> OpenCell<S> {
    pub(crate) fn new(value: S, begun: usize, width: usize, place: CellPlace) -> OpenCell<S>
        requires { place.skip + place.shown ≤ length (lines_of (S.text value)) }
        ensures { result ≡ record { begun = begun; text = S.text value; drawn = 0; width = width; place = place } }
    {
        let cursor = cursor_at(value.as_str(), place.skip);
        OpenCell {
            value,
            begun,
            drawn: 0,
            width,
            place,
            cursor,
        }
    }

    pub(crate) fn begun(&self) -> usize
        ensures { result ≡ self.now.begun }
    {
        self.begun
    }

    pub(crate) fn drawn(&self) -> usize
        ensures { result ≡ self.now.drawn }
    {
        self.drawn
    }

    pub(crate) fn width(&self) -> usize
        ensures { result ≡ self.now.width }
    {
        self.width
    }

    pub(crate) fn place(&self) -> CellPlace
        ensures { result ≡ self.now.place }
    {
        self.place
    }

    pub(crate) fn line(&self) -> &str
        ensures { result.now ≡ line_if self.now.text (text_line_at self.now.place self.now.drawn) }
    {
        let mut cursor = self.cursor;
        if !is_text_line(self.place, self.drawn) {
            return "";
        }
        cursor.next_line(self.value.as_str()).unwrap_or("")
    }

    pub(crate) fn draw_line(&mut self)
        requires { self.old.drawn + 1 < 2 ^ 64 }
        ensures { self.new ≡ record self.old { drawn = self.old.drawn + 1 } }
    {
        let next = self.drawn + 1;
        if is_text_line(self.place, self.drawn) && is_text_line(self.place, next) {
            let _line = self.cursor.next_line(self.value.as_str());
        }
        self.drawn += 1;
    }
}

fn cursor_at(text: &str, line: usize) -> LineCursor
    requires { line ≤ length (lines_of text.now) }
    ensures stands { StandsIn result text.now }
    ensures number { line_number result text.now ≡ line }
{
    let mut cursor = LineCursor::new();
    for _ in 0..line {
        let _line = cursor.next_line(text);
    }
    cursor
}

fn is_text_line(place: CellPlace, line: usize) -> bool
    ensures { result ≡ is_some (text_line_at place line) }
{
    place.top <= line && line - place.top < place.shown
}
