//! The four sides of a cell or a table: their paddings and margins.

ghost use Rattle.std.specs.Prelude.{◌≡◌, ℕ};
ghost use Rattle.pg_layout.specs.Sides.{spaces};

/// A run of equal characters: of a padding or a margin.
#[derive(Debug, Clone, Copy, PartialEq, Eq)]
pub struct Indent {
    /// How many columns at a left or right side, how many lines at a top or bottom side.
    pub size: usize,
    /// The character that fills them.
    pub fill: char,
}

impl Indent {
    /// An indent of this size and fill.
    pub fn new(size: usize, fill: char) -> Indent
        ensures { result ≡ record { size = size; fill = fill } }
    {
        Indent { size, fill }
    }

    /// An indent of this size, filled by spaces.
    pub fn spaced(size: usize) -> Indent
        ensures { result ≡ record { size = size; fill = 32 } }
    {
        Indent { size, fill: ' ' }
    }

    /// An indent of size 0, whose fill is a space.
    pub fn zero() -> Indent
        ensures { result ≡ record { size = 0; fill = 32 } }
    {
        Indent { size: 0, fill: ' ' }
    }
}

/// One value for each side.
#[derive(Debug, Clone, Copy, PartialEq, Eq)]
pub struct Sides<T> {
    pub left: T,
    pub right: T,
    pub top: T,
    pub bottom: T,
}

impl<T> Sides<T> {
    /// The sides in the order left, right, top, bottom.
    pub fn new(left: T, right: T, top: T, bottom: T) -> Sides<T>
        ensures { result ≡ record { left = left; right = right; top = top; bottom = bottom } }
    {
        Sides {
            left,
            right,
            top,
            bottom,
        }
    }
}

impl<T: Copy> Sides<T> {
    /// This value at each side.
    pub fn filled(value: T) -> Sides<T>
        ensures { result ≡ record { left = value; right = value; top = value; bottom = value } }
    {
        Sides {
            left: value,
            right: value,
            top: value,
            bottom: value,
        }
    }
}

impl Sides<Indent> {
    /// Spaces at the left and the right: so many columns at each, and nothing above and below.
    pub fn horizontal(columns: usize) -> Sides<Indent>
        ensures { result ≡ spaces columns 0 }
    {
        Sides::spaces(columns, 0)
    }

    /// Spaces above and below: so many lines of them at each, and nothing at the left and the right.
    pub fn vertical(lines: usize) -> Sides<Indent>
        ensures { result ≡ spaces 0 lines }
    {
        Sides::spaces(0, lines)
    }

    /// Spaces all round: so many columns at the left and at the right, so many lines above and below.
    pub fn spaces(columns: usize, lines: usize) -> Sides<Indent>
        ensures { result ≡ spaces columns lines }
    {
        let (aside, above) = (Indent::spaced(columns), Indent::spaced(lines));
        Sides::new(aside, aside, above, above)
    }
}

/// A place in a line of columns or lines, counted from one of its ends.
#[derive(Debug, Clone, Copy, PartialEq, Eq)]
pub enum Offset {
    /// So many after the first one.
    Start(usize),
    /// So many before the last one.
    End(usize),
}
