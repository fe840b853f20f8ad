//! Separators.

ghost use Rattle.std.specs.Prelude.{◌≡◌, ◌==◌, if◌then◌else◌, [], None, IfOk, IfSome, flat_map};
ghost use Rattle.std.specs.List.{range_with_len};
ghost use Rattle.pg_picture.specs.Appending.{Appends};
ghost use Rattle.pg_picture.specs.CompactLines.{parts, parts_after, top_line, bottom_line, inner_line, separator_row};
ghost use Rattle.pg_picture.specs.Inside.{open_parts, open_color};
ghost use Rattle.pg_compact.specs.Inside.{printed_table, IsInnerSeparator, inner_separator, line_colors, column_parts};

use crate::printer::CompactPrinter;
use pg_layout::{ANSIStr, Borders, Colors, Dimension, HorizontalLine};
use pg_picture::{CompactRun, SeparatorKeeper, push_compact_indent, push_text};
use std::alloc::{AllocError, Allocator};

pub(super) fn top_line<T: Copy>(borders: &Borders<T>) -> HorizontalLine<T>
    ensures { result ≡ top_line borders.now }
{
    HorizontalLine::new(
        borders.top,
        borders.top_intersection,
        borders.top_left,
        borders.top_right,
    )
}

pub(super) fn bottom_line<T: Copy>(borders: &Borders<T>) -> HorizontalLine<T>
    ensures { result ≡ bottom_line borders.now }
{
    HorizontalLine::new(
        borders.bottom,
        borders.bottom_intersection,
        borders.bottom_left,
        borders.bottom_right,
    )
}

fn inner_line<T: Copy>(borders: &Borders<T>) -> HorizontalLine<T>
    ensures { result ≡ inner_line borders.now }
{
    HorizontalLine::new(
        borders.horizontal,
        borders.intersection,
        borders.left,
        borders.right,
    )
}

// The crossing before a column: the first column has none.
fn crossing_before(column: usize, crossing: Option<char>) -> Option<char>
    ensures { result ≡ (if column == 0 then None else crossing) }
{
    if column == 0 { None } else { crossing }
}

impl<D: Dimension, C: Colors> CompactPrinter<'_, D, C> {
    // The separator between two rows: the kept one, or a new one, which is then kept.
    pub(super) fn push_kept_separator<A: Allocator>(
        &self,
        buf: &mut String<A>,
        kept: &mut SeparatorKeeper<'_>,
    ) -> Result<(), AllocError>
        requires kept { IfSome kept.old.text (IsInnerSeparator (printed_table D.width C.color self.now [])) }
        ensures appends { Appends buf.old buf.new result (inner_separator (printed_table D.width C.color self.now [])) }
        ensures kept { IfSome kept.new.text (IsInnerSeparator (printed_table D.width C.color self.now [])) }
    {
        if let Some(text) = kept.text() {
            return push_text(buf, text);
        }
        let from = buf.len();
        let (borders, colors) = (self.config.get_borders(), self.config.get_borders_color());
        self.push_separator(buf, inner_line(borders), inner_line(colors))?;
        kept.keep(buf, from);
        Ok(())
    }

    // A separator of these glyphs in these colours, between the side margins.
    pub(super) fn push_separator<A: Allocator>(
        &self,
        buf: &mut String<A>,
        glyphs: HorizontalLine<char>,
        colors: HorizontalLine<ANSIStr<'static>>,
    ) -> Result<(), AllocError>
        ensures { Appends buf.old buf.new result (separator_row (printed_table D.width C.color self.now []) glyphs (line_colors colors.entry)) }
    {
        let (margin, color) = (self.config.get_margin(), self.config.get_margin_color());
        push_compact_indent(buf, margin.left, color.left)?;
        self.push_parts(buf, glyphs, colors)?;
        push_compact_indent(buf, margin.right, color.right)
    }

    // The parts of a separator: its left end, the columns and its right end.
    fn push_parts<A: Allocator>(
        &self,
        buf: &mut String<A>,
        glyphs: HorizontalLine<char>,
        colors: HorizontalLine<ANSIStr<'static>>,
    ) -> Result<(), AllocError>
        ensures { Appends buf.old buf.new result (parts_after None (parts (printed_table D.width C.color self.now []) glyphs (line_colors colors.entry))) }
    {
        let run = CompactRun::new().part_if(buf, glyphs.left, colors.left)?;
        let run = self.push_columns(run, buf, glyphs, colors)?;
        let run = run.part_if(buf, glyphs.right, colors.right)?;
        run.close(buf)
    }

    // The crossings and horizontals of all columns.
    fn push_columns<A: Allocator>(
        &self,
        mut run: CompactRun<'static>,
        buf: &mut String<A>,
        glyphs: HorizontalLine<char>,
        colors: HorizontalLine<ANSIStr<'static>>,
    ) -> Result<CompactRun<'static>, AllocError>
        ensures appends { Appends buf.old buf.new result
            (open_parts run.entry (flat_map (column_parts (printed_table D.width C.color self.now []) glyphs (line_colors colors.entry)) (range_with_len 0 self.now.columns))) }
        ensures color { IfOk result (λ after. after
            ≡ open_color run.entry (flat_map (column_parts (printed_table D.width C.color self.now []) glyphs (line_colors colors.entry)) (range_with_len 0 self.now.columns))) }
    {
        for column in 0..self.columns {
            run = self.push_column(run, buf, glyphs, colors, column)?;
        }
        Ok(run)
    }

    // The crossing before a column, and the column's horizontal.
    fn push_column<A: Allocator>(
        &self,
        run: CompactRun<'static>,
        buf: &mut String<A>,
        glyphs: HorizontalLine<char>,
        colors: HorizontalLine<ANSIStr<'static>>,
        column: usize,
    ) -> Result<CompactRun<'static>, AllocError>
        ensures appends { Appends buf.old buf.new result (open_parts run.entry (column_parts (printed_table D.width C.color self.now []) glyphs (line_colors colors.entry) column)) }
        ensures color { IfOk result (λ after. after ≡ open_color run.entry (column_parts (printed_table D.width C.color self.now []) glyphs (line_colors colors.entry) column)) }
    {
        let width = self.dimension.get_width(column);
        let crossing = crossing_before(column, glyphs.intersection);
        let run = run.part_if(buf, crossing, colors.intersection)?;
        run.main(buf, glyphs.main, width, colors.main)
    }
}
