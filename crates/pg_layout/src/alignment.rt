//! How a text is aligned in its cell.

/// How a text is aligned horizontally in its cell.
#[derive(Debug, Clone, Copy, PartialEq, Eq)]
pub enum AlignmentHorizontal {
    Left,
    Center,
    Right,
}

/// How a text is aligned vertically in its cell.
#[derive(Debug, Clone, Copy, PartialEq, Eq)]
pub enum AlignmentVertical {
    Top,
    Center,
    Bottom,
}

/// How the lines of a text are read and aligned.
#[derive(Debug, Clone, Copy, PartialEq, Eq)]
pub struct Formatting {
    /// Whether each line is trimmed of white space.
    pub horizontal_trim: bool,
    /// Whether blank lines at the start and at the end of the text are left out.
    pub vertical_trim: bool,
    /// Whether each line is aligned by its own width instead of that of the widest line.
    pub allow_lines_alignment: bool,
}
