//! The place of a text's lines in their cell.

ghost use Rattle.std.specs.Prelude.{◌≡◌, ◌+◌, ◌≤◌, true, length};
ghost use Rattle.pg_layout.specs.Text.{lines_of};
ghost use Rattle.pg_picture.specs.Fits.{cell_fits};
ghost use Rattle.pg_picture.specs.Inside.{style_of, shared_left, place_of, place_in, text_line_at};

use crate::cell::inner_width;
use crate::facts::TextFacts;
use crate::share::{calculate_indent, indent_from_top};
use pg_config::CellStyle;
use std::alloc::Allocator;

/// The place of a text's lines in their cell, which may be drawn over many rows.
#[derive(Debug, Clone, Copy, PartialEq, Eq)]
pub struct CellPlace {
    /// How many lines of the cell come before the first line of text.
    pub top: usize,
    /// How many lines of text the cell shows.
    pub shown: usize,
    /// How many blank lines at the start of the text are left out.
    pub skip: usize,
    /// How many columns come between the left padding and each line of text; nothing if each line
    /// is aligned by its own width.
    pub left: Option<usize>,
}

impl CellPlace {
    /// The place of a text with these facts, in a cell of so many columns and lines.
    ///
    /// Precondition: the cell's width has room for the side paddings and the widest line, and its
    /// height for the top padding; [`crate::fits::cell_fits`] of the text tests it for a cell with
    /// a line.
    #[tactic(auto, unfolding(crate::specs::Inside::place_of), using(crate::proofs::Rulesets::lines_above))]
    pub fn of<A: Allocator>(
        facts: TextFacts,
        style: &CellStyle<'_, A>,
        width: usize,
        height: usize,
    ) -> CellPlace
        requires width { style.now.padding.left.size + style.now.padding.right.size + facts.widest ≤ width }
        requires height { style.now.padding.top.size ≤ height }
        ensures { result ≡ place_of facts (style_of style.now) width height }
    {
        let above = style.padding.top.size;
        let available = height - above;
        let shown = facts.shown.min(available);
        CellPlace {
            top: above + indent_from_top(style.alignment_vertical, available, shown),
            shown,
            skip: facts.skip,
            left: shared_left(style, facts.widest, width),
        }
    }

    // The place of a text in any cell that has room for it: a cell of no line shows none.
    #[inline(always)]
    pub(crate) fn of_text<A: Allocator>(
        text: &str,
        style: &CellStyle<'_, A>,
        width: usize,
        height: usize,
    ) -> CellPlace
        requires { cell_fits (style_of style.now) text.now width height ≡ true }
        ensures place { result ≡ place_in (style_of style.now) text.now width height }
        ensures lines { result.skip + result.shown ≤ length (lines_of text.now) }
    {
        if height == 0 {
            return CellPlace {
                top: 0,
                shown: 0,
                skip: 0,
                left: None,
            };
        }
        let facts = TextFacts::of_text(text, style.formatting);
        CellPlace::of(facts, style, width, height)
    }

    /// Which line of the text, counted from 0, is at a line of the cell; nothing at a line that is
    /// filled.
    ///
    /// Precondition: the lines that are left out at the start and those that are shown are at most
    /// `usize::MAX` together. Those of a text are, so a place that [`CellPlace::of`] made of its
    /// facts needs no test.
    #[inline(always)]
    pub fn text_line_at(&self, line: usize) -> Option<usize>
        requires { self.now.skip + self.now.shown ≤ usize.MAX }
        ensures { result ≡ text_line_at self.now line }
    {
        if line < self.top {
            return None;
        }
        let below = line - self.top;
        if below < self.shown {
            return Some(self.skip + below);
        }
        None
    }
}

#[tactic(auto, unfolding(crate::specs::Pieces::inner_width))]
fn shared_left<A: Allocator>(style: &CellStyle<'_, A>, widest: usize, width: usize) -> Option<usize>
    requires { style.now.padding.left.size + style.now.padding.right.size + widest ≤ width }
    ensures { result ≡ shared_left (style_of style.now) widest width }
{
    if style.formatting.allow_lines_alignment {
        return None;
    }
    let inner = inner_width(style, width);
    Some(calculate_indent(style.alignment_horizontal, widest, inner).0)
}
