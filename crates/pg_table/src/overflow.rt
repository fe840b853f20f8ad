//! What becomes of texts that are wider than their columns.

ghost use Rattle.std.specs.Prelude.{◌≡◌, ◌≤◌, IfOk, true, chars, string_bytes};
ghost use Rattle.std.specs.List.{list_all};
ghost use Rattle.pg_layout.specs.declared.alignment.Formatting.{Formatting};
ghost use Rattle.pg_fit.specs.Cutting.{cut_text};
ghost use Rattle.pg_fit.specs.Laws.{is_tail_character};
ghost use Rattle.pg_picture.specs.Pieces.{widest};
ghost use Rattle.pg_table.specs.Fitted.{overflowed, least_overflowed, HasPlainTail};

use pg_fit::{Breaking, cut, least_width, wrap};
use pg_layout::get_line_width;
use std::alloc::{AllocError, Allocator};

/// What becomes of a text that is wider than its column.
#[derive(Debug, Clone, Copy)]
pub enum Overflow<'t> {
    /// Its lines are broken where they are too wide.
    Wrap(Breaking),
    /// Its lines are cut where they are too wide, with this tail behind what is left of them, as `…`.
    Cut(&'t str),
}

/// What a table is fitted to.
#[derive(Drop)]
pub(crate) struct Within<'l> {
    /// How many terminal columns a line has at most.
    pub(crate) total: usize,
    /// The greatest widths of the first columns.
    pub(crate) limits: &'l [usize],
    /// What becomes of texts that are wider than their column.
    pub(crate) how: Overflow<'l>,
}

// A text, cut to so many terminal columns.
fn cut_to<A: Allocator>(
    alloc: A,
    text: &str,
    width: usize,
    tail: &str,
) -> Result<String<A>, AllocError>
    ensures text { IfOk result (λ made. string_bytes made ≡ cut_text width tail.now text.now) }
    ensures room { list_all is_tail_character (chars tail.now) ≡ true → IfOk result (λ made. (formatting : Formatting) → widest formatting (string_bytes made) ≤ width) }
{
    let made = cut(alloc, text, width, tail)?;
    Ok(made)
}

impl<'t> Overflow<'t> {
    /// A text, wrapped or cut to so many terminal columns.
    pub(crate) fn fit<A: Allocator>(
        self,
        alloc: A,
        text: &str,
        width: usize,
    ) -> Result<String<A>, AllocError>
        ensures text { IfOk result (λ made. string_bytes made ≡ overflowed self.entry width text.now) }
        ensures room { HasPlainTail self.entry → least_overflowed self.entry text.now ≤ width → IfOk result (λ made. (formatting : Formatting) → widest formatting (string_bytes made) ≤ width) }
    {
        match self {
            Overflow::Wrap(breaking) => {
                let made = wrap(alloc, text, width, breaking)?;
                Ok(made)
            }
            Overflow::Cut(tail) => {
                let made = cut_to(alloc, text, width, tail)?;
                Ok(made)
            }
        }
    }

    /// How narrow a text can be made.
    pub(crate) fn least_width(self, text: &str) -> usize
        ensures { result ≡ least_overflowed self.entry text.now }
    {
        match self {
            Overflow::Wrap(breaking) => least_width(text, breaking),
            Overflow::Cut(tail) => get_line_width(tail),
        }
    }
}
