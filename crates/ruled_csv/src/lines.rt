//! The lines of bytes.

ghost use Rattle.std.specs.Prelude.{◌≡◌};
ghost use Rattle.ruled_csv.specs.Inside.{calm_lines, lines_after, lines_below, lines_start};
ghost use Rattle.ruled_csv.specs.Kept.{LinesCount, is_line_end};

/// Whether a byte ends a line, with or without the next one.
pub(crate) fn ends_line(byte: u8) -> bool
    ensures { result ≡ is_line_end byte }
{
    matches!(byte, b'\n' | b'\r')
}

/// A count of lines: LF, CRLF and a lone CR each end one.
#[derive(Clone, Copy)]
pub(crate) struct Lines {
    // The line of the next byte, counted from 1.
    line: usize,
    // Whether a carriage return precedes it, after which a line feed ends no further line.
    is_behind_return: bool,
}

impl Lines {
    /// A count at the first byte.
    pub(crate) fn new() -> Lines
        ensures { result ≡ lines_start }
    {
        Lines {
            line: 1,
            is_behind_return: false,
        }
    }

    /// The line of the next byte, counted from 1.
    pub(crate) fn line(self) -> usize
        ensures { result ≡ self.line }
    {
        self.line
    }

    /// The count after bytes that end no line.
    pub(crate) fn behind_text(self) -> Lines
        ensures { result ≡ calm_lines self }
    {
        Lines {
            line: self.line,
            is_behind_return: false,
        }
    }

    /// The count after this byte.
    pub(crate) fn after(self, byte: u8) -> Lines
        ensures { result ≡ lines_after self byte }
    {
        let is_return = byte == b'\r';
        let line = if is_return || byte == b'\n' && !self.is_behind_return {
            self.line.saturating_add(1)
        } else {
            self.line
        };
        Lines {
            line,
            is_behind_return: is_return,
        }
    }

    /// The count after a line that isn't read and that ends with this byte.
    pub(crate) fn below(self, byte: u8) -> Lines
        ensures { result ≡ lines_below self byte }
    {
        let lines = self.after(b'\r');
        if byte == b'\n' {
            lines.after(b'\n')
        } else {
            lines
        }
    }
}

/// A line that is left out counts as a line: what is read of a text has as many lines as the text.
/// So the line that a fault names is that of the text. The function does nothing: its contract is
/// the law.
#[tactic(auto, using(crate::proofs::KeptTexts::lines_count))]
pub fn lines_left_out_count()
    ensures { LinesCount }
{}
