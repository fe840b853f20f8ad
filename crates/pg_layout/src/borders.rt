//! The glyphs of a table's borders, or their colours.

ghost use Rattle.std.specs.Prelude.{◌≡◌, Bool, Option, Some, None, ◌&&◌, is_none, MatchResult};
ghost use Rattle.pg_layout.specs.Borders.{no_borders, no_border, top_line, cell_line, inner_line, bottom_line, of_lines};
ghost use Rattle.pg_layout.specs.Borders.{has_top, has_bottom, has_left, has_right, has_inner_horizontal, has_inner_vertical};

use std::alloc::AllocError;

/// One optional value for each kind of place on a table's border lines.
///
/// ```text
/// top_left     top        top_intersection     top        top_right
/// left         (cell)     vertical             (cell)     right
/// left_int..   horizontal intersection         horizontal right_int..
/// left         (cell)     vertical             (cell)     right
/// bottom_left  bottom     bottom_intersection  bottom     bottom_right
/// ```
#[derive(Debug, PartialEq, Eq)]
pub struct Borders<T> {
    pub top: Option<T>,
    pub top_left: Option<T>,
    pub top_right: Option<T>,
    pub top_intersection: Option<T>,
    pub bottom: Option<T>,
    pub bottom_left: Option<T>,
    pub bottom_right: Option<T>,
    pub bottom_intersection: Option<T>,
    pub horizontal: Option<T>,
    pub left_intersection: Option<T>,
    pub right_intersection: Option<T>,
    pub intersection: Option<T>,
    pub left: Option<T>,
    pub right: Option<T>,
    pub vertical: Option<T>,
}

// By their lines: a derived clone drops, at each of fifteen `?`, all values that were cloned before
// it.
impl<T: Clone> Clone for Borders<T> {
    ghost is_clone = { λ b clone. ⟦<HorizontalLine<T> as Clone>⟧.is_clone (top_line b) (top_line clone)
        × ⟦<HorizontalLine<T> as Clone>⟧.is_clone (cell_line b) (cell_line clone)
        × ⟦<HorizontalLine<T> as Clone>⟧.is_clone (inner_line b) (inner_line clone)
        × ⟦<HorizontalLine<T> as Clone>⟧.is_clone (bottom_line b) (bottom_line clone) };

    ghost is_infallible = { λ b. ⟦<HorizontalLine<T> as Clone>⟧.is_infallible (top_line b)
        × ⟦<HorizontalLine<T> as Clone>⟧.is_infallible (cell_line b)
        × ⟦<HorizontalLine<T> as Clone>⟧.is_infallible (inner_line b)
        × ⟦<HorizontalLine<T> as Clone>⟧.is_infallible (bottom_line b) };

    fn clone(&self) -> Result<Borders<T>, AllocError> {
        let b = self;
        let top = clone_line(&b.top, &b.top_intersection, &b.top_left, &b.top_right)?;
        let cells = clone_line(&None, &b.vertical, &b.left, &b.right)?;
        let (left, right) = (&b.left_intersection, &b.right_intersection);
        let inner = clone_line(&b.horizontal, &b.intersection, left, right)?;
        let (left, right) = (&b.bottom_left, &b.bottom_right);
        let bottom = clone_line(&b.bottom, &b.bottom_intersection, left, right)?;
        Ok(Borders::of_lines(top, cells, inner, bottom))
    }
}

impl<T: Copy> Copy for Borders<T> {}

// A line of clones of these values.
fn clone_line<T: Clone>(
    main: &Option<T>,
    intersection: &Option<T>,
    left: &Option<T>,
    right: &Option<T>,
) -> Result<HorizontalLine<T>, AllocError>
    ensures { MatchResult result
        (⟦<HorizontalLine<T> as Clone>⟧.is_clone (record { main = main.now; intersection = intersection.now; left = left.now; right = right.now }))
        (λ _. ¬ (⟦<HorizontalLine<T> as Clone>⟧.is_infallible (record { main = main.now; intersection = intersection.now; left = left.now; right = right.now }))) }
{
    Ok(HorizontalLine {
        main: main.clone()?,
        intersection: intersection.clone()?,
        left: left.clone()?,
        right: right.clone()?,
    })
}

#[tactic(auto, unfolding(crate::specs::Borders::has_top, crate::specs::Borders::has_bottom, crate::specs::Borders::has_left, crate::specs::Borders::has_right, crate::specs::Borders::has_inner_horizontal, crate::specs::Borders::has_inner_vertical))]
impl<T> Borders<T> {
    /// No value at any place.
    pub fn empty() -> Borders<T>
        ensures { result ≡ no_borders }
    {
        Borders {
            top: None,
            top_left: None,
            top_right: None,
            top_intersection: None,
            bottom: None,
            bottom_left: None,
            bottom_right: None,
            bottom_intersection: None,
            horizontal: None,
            left_intersection: None,
            right_intersection: None,
            intersection: None,
            left: None,
            right: None,
            vertical: None,
        }
    }

    // The borders of these lines: the first one, one through the cells of a row, one between two
    // rows, and the last one. What is in the cells is dropped.
    pub(crate) fn of_lines(
        top: HorizontalLine<T>,
        cells: HorizontalLine<T>,
        inner: HorizontalLine<T>,
        bottom: HorizontalLine<T>,
    ) -> Borders<T>
    where
        T: Drop,
        ensures { result ≡ of_lines top cells inner bottom }
    {
        Borders {
            top: top.main,
            top_left: top.left,
            top_right: top.right,
            top_intersection: top.intersection,
            bottom: bottom.main,
            bottom_left: bottom.left,
            bottom_right: bottom.right,
            bottom_intersection: bottom.intersection,
            horizontal: inner.main,
            left_intersection: inner.left,
            right_intersection: inner.right,
            intersection: inner.intersection,
            left: cells.left,
            right: cells.right,
            vertical: cells.intersection,
        }
    }

    /// Whether the first line has a value: its glyph, one of its ends or its crossing.
    pub fn has_top(&self) -> bool
        ensures { result ≡ has_top self.now }
    {
        self.top.is_some()
            || self.top_left.is_some()
            || self.top_right.is_some()
            || self.top_intersection.is_some()
    }

    /// Whether the last line has a value: its glyph, one of its ends or its crossing.
    pub fn has_bottom(&self) -> bool
        ensures { result ≡ has_bottom self.now }
    {
        self.bottom.is_some()
            || self.bottom_left.is_some()
            || self.bottom_right.is_some()
            || self.bottom_intersection.is_some()
    }

    /// Whether the left line has a value: its glyph, one of its ends or its crossing.
    pub fn has_left(&self) -> bool
        ensures { result ≡ has_left self.now }
    {
        self.left.is_some()
            || self.top_left.is_some()
            || self.bottom_left.is_some()
            || self.left_intersection.is_some()
    }

    /// Whether the right line has a value: its glyph, one of its ends or its crossing.
    pub fn has_right(&self) -> bool
        ensures { result ≡ has_right self.now }
    {
        self.right.is_some()
            || self.top_right.is_some()
            || self.bottom_right.is_some()
            || self.right_intersection.is_some()
    }

    /// Whether the lines between two rows have a value: their glyph, an end or a crossing.
    pub fn has_horizontal(&self) -> bool
        ensures { result ≡ has_inner_horizontal self.now }
    {
        self.horizontal.is_some()
            || self.left_intersection.is_some()
            || self.right_intersection.is_some()
            || self.intersection.is_some()
    }

    /// Whether the lines between two columns have a value: their glyph, an end or a crossing.
    pub fn has_vertical(&self) -> bool
        ensures { result ≡ has_inner_vertical self.now }
    {
        self.vertical.is_some()
            || self.top_intersection.is_some()
            || self.bottom_intersection.is_some()
            || self.intersection.is_some()
    }
}

/// One optional value for each side and each corner of one cell.
#[derive(Debug, Clone, Copy, PartialEq, Eq)]
pub struct Border<T> {
    pub top: Option<T>,
    pub bottom: Option<T>,
    pub left: Option<T>,
    pub right: Option<T>,
    pub top_left: Option<T>,
    pub top_right: Option<T>,
    pub bottom_left: Option<T>,
    pub bottom_right: Option<T>,
}

impl<T> Border<T> {
    /// No value at any place.
    pub fn empty() -> Border<T>
        ensures { result ≡ no_border }
    {
        Border {
            top: None,
            bottom: None,
            left: None,
            right: None,
            top_left: None,
            top_right: None,
            bottom_left: None,
            bottom_right: None,
        }
    }

    /// A value at each place, in the order top, bottom, left, right, and then the corners
    /// top left, top right, bottom left, bottom right.
    #[allow(clippy::too_many_arguments)]
    pub fn full(
        top: T,
        bottom: T,
        left: T,
        right: T,
        top_left: T,
        top_right: T,
        bottom_left: T,
        bottom_right: T,
    ) -> Border<T>
        ensures { result ≡ record {
          top = Some top;
          bottom = Some bottom;
          left = Some left;
          right = Some right;
          top_left = Some top_left;
          top_right = Some top_right;
          bottom_left = Some bottom_left;
          bottom_right = Some bottom_right;
        } }
    {
        Border {
            top: Some(top),
            bottom: Some(bottom),
            left: Some(left),
            right: Some(right),
            top_left: Some(top_left),
            top_right: Some(top_right),
            bottom_left: Some(bottom_left),
            bottom_right: Some(bottom_right),
        }
    }
}

/// The glyphs of one horizontal line, or their colours.
#[derive(Debug, Clone, Copy, PartialEq, Eq)]
pub struct HorizontalLine<T> {
    /// What is repeated above or below each column.
    pub main: Option<T>,
    /// The crossing between two columns.
    pub intersection: Option<T>,
    /// The left end.
    pub left: Option<T>,
    /// The right end.
    pub right: Option<T>,
}

impl<T> HorizontalLine<T> {
    /// A line of these parts.
    pub fn new(
        main: Option<T>,
        intersection: Option<T>,
        left: Option<T>,
        right: Option<T>,
    ) -> HorizontalLine<T>
        ensures { result ≡ record { main = main; intersection = intersection; left = left; right = right } }
    {
        HorizontalLine {
            main,
            intersection,
            left,
            right,
        }
    }

    /// Whether no part is set.
    pub fn is_empty(&self) -> bool
        ensures { result ≡ (is_none self.now.main && is_none self.now.intersection) && (is_none self.now.left && is_none self.now.right) }
    {
        self.main.is_none()
            && self.intersection.is_none()
            && self.left.is_none()
            && self.right.is_none()
    }
}
