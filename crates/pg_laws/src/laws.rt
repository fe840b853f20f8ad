//! Laws of the picture, of its conditions and of grids. The functions do nothing: their contracts are the laws.

ghost use Rattle.pg_laws.specs.Laws.{NothingToDraw, NothingCompactToDraw, LinesAreJoined, CompactLinesAreJoined, LinesAreCut, CompactLinesAreCut, LinesAreCounted, BlocksAreDrawn};
ghost use Rattle.pg_laws.specs.Laws.{BlocksFill, PiecesCloseColors, SeparatorsCloseColors, LinesCloseColors, PictureLinesCloseColors, PartsCloseColors, CompactLinesCloseColors};
ghost use Rattle.pg_laws.specs.Laws.{FullCellsIgnoreAlignment, SingleLinesIgnoreAlignment, ColumnsAreStraight, MissingGlyphFillsGaps, MarginsAreStraight, ShownCellsAreDrawn};
ghost use Rattle.pg_laws.specs.Laws.{RectanglesStandTogether, PlainRows, PlainSeparators, BodiesStandAlone, HintsAreIdle, MisfitsAreFirst, FittingTablesHaveNone};
ghost use Rattle.pg_laws.specs.Laws.{SpansFitByPlaces, HeightsStay, BodyHasItsHeight, ColorsDontMatter, NoMisfitMeansFits};
ghost use Rattle.pg_laws.specs.Laws.{TextsAreOne};

use pg_layout::{Colors, Dimension, Records};

/// A table with no rows or no columns has the empty picture, whatever its settings.
#[tactic(auto, using(crate::proofs::DrawnCells::nothing_to_draw, crate::proofs::DrawnCells::nothing_compact_to_draw))]
pub fn no_rows_or_columns_draw_nothing()
    ensures table { NothingToDraw }
    ensures compact { NothingCompactToDraw }
{}

/// Any other picture is its lines, with one line feed between each two: none before the first line,
/// none after the last. If no line contains a line feed, in a glyph or a colour, cutting a picture
/// that has lines at its line feeds gives these lines.
#[tactic(auto, using(crate::proofs::DrawnCells::joined_lines))]
pub fn lines_are_joined_by_one_feed()
    ensures table { LinesAreJoined }
    ensures compact { CompactLinesAreJoined }
    ensures cut { LinesAreCut }
    ensures compact_cut { CompactLinesAreCut }
{}

/// A picture has as many lines as its top margin, its body and its bottom margin together. The body
/// has the heights of all rows, and one line for each row line that exists.
#[tactic(auto, using(crate::proofs::DrawnCells::lines_are_counted))]
pub fn lines_are_those_of_body_and_margins()
    ensures { LinesAreCounted }
{}

/// The marks of a cell's rectangle draw the lines of its block, each once and in order. So a shown
/// cell has as many lines as its rectangle is high. If it has room for its text and its fills take
/// one column, the pieces of each line add up to the rectangle's width.
#[tactic(auto, using(crate::proofs::DrawnCells::blocks_are_drawn, crate::proofs::DrawnCells::blocks_fill))]
pub fn a_block_fills_its_rectangle()
    ensures drawn { BlocksAreDrawn }
    ensures filled { BlocksFill }
{}

/// Each colour prefix in a line is followed by its suffix in the same line, before another prefix:
/// a line consists of parts without a colour, and of parts between the prefix and the suffix of one
/// of its colours. Without prefixes and suffixes the line is its glyphs, texts and fills, and so
/// the line of the same table without colours.
#[tactic(auto, using(crate::proofs::PictureColors::closed_colors))]
pub fn colors_are_closed_in_their_line()
    ensures pieces { PiecesCloseColors }
    ensures separators { SeparatorsCloseColors }
    ensures lines { LinesCloseColors }
    ensures pictures { PictureLinesCloseColors }
    ensures compact_separators { PartsCloseColors }
    ensures compact_lines { CompactLinesCloseColors }
{}

/// Vertical alignment changes nothing if each text has at least as many lines as its cell has below
/// the top padding. Without row spans that is so if rows and texts have one line, and vertical trim
/// removes no blank text.
#[tactic(auto, using(crate::proofs::DrawnCells::full_cells_ignore_alignment, crate::proofs::DrawnCells::single_lines_ignore_alignment))]
pub fn full_cells_ignore_vertical_alignment()
    ensures full { FullCellsIgnoreAlignment }
    ensures single_lines { SingleLinesIgnoreAlignment }
{}

/// Columns are straight if all fills and glyphs take one column and no glyph of a column line is
/// missing: the pieces of each line of the body add up to the widths of all columns, and one for
/// each column line that exists. With the side margins each line of the picture is as wide as the
/// full width. No glyph is missing if the missing glyph is set.
pub fn columns_are_straight()
    ensures body { ColumnsAreStraight }
    ensures no_gaps { MissingGlyphFillsGaps }
    ensures margins { MarginsAreStraight }
{}

/// If spans fit, a shown cell is drawn in each line of its rectangle: the line has the block's line
/// at the rectangle's first column, and nothing at its other columns, not even border glyphs. The
/// lines of a rectangle follow one another in the body.
#[tactic(auto, using(crate::proofs::DrawnCells::shown_cells_are_drawn, crate::proofs::DrawnCells::rectangles_stand_together))]
pub fn shown_cells_are_drawn_in_their_rectangles()
    ensures drawn { ShownCellsAreDrawn }
    ensures together { RectanglesStandTogether }
{}

/// Without spans each cell is as wide as its column and as high as its row. A line of a row is a
/// vertical and the cell's line for each column, and the last vertical; a separator is a crossing
/// and a horizontal for each column, and the last crossing.
#[tactic(auto, using(crate::proofs::DrawnCells::plain_rows, crate::proofs::DrawnCells::plain_separators))]
pub fn tables_without_spans_are_drawn_cell_by_cell()
    ensures rows { PlainRows }
    ensures separators { PlainSeparators }
{}

/// Margins of size 0 add nothing, whatever their fills, colours and offsets: the picture is the
/// lines of its body alone.
#[tactic(auto, using(crate::proofs::DrawnCells::bodies_stand_alone))]
pub fn margins_of_size_0_add_nothing()
    ensures { BodiesStandAlone }
{}

/// Only side margins with an offset from the end depend on whether the number of lines is known
/// when a line is drawn.
#[tactic(auto, using(pg_picture::proofs::Pictures::hints_are_idle))]
pub fn hints_matter_to_offsets_from_the_end_alone()
    ensures { HintsAreIdle }
{}

/// A misfit is the first that applies: spans before totals, totals before room, and of cells
/// without room the first one, row by row. A table that fits has none.
#[tactic(auto, using(pg_picture::proofs::FirstPlaces::fitting_tables_have_none, crate::proofs::RowsFits::misfits_are_first))]
pub fn a_misfit_is_the_first_that_applies()
    ensures first { MisfitsAreFirst }
    ensures none { FittingTablesHaveNone }
{}

/// The test of spans is true exactly if every rectangle has a size and ends inside the table, and
/// no place lies in two of them.
#[tactic(auto, using(crate::proofs::SettingLaws::spans_fit_by_places))]
pub fn spans_fit_by_places()
    ensures { SpansFitByPlaces }
{}

/// A rectangle's height is the same in each table that it ends in. The body has as many lines as
/// its height says.
#[tactic(auto, using(crate::proofs::DrawnCells::heights))]
pub fn heights_are_lines()
    ensures stay { HeightsStay }
    ensures body { BodyHasItsHeight }
{}

/// A table with rows and columns and no misfit has spans and totals that fit, and room in each of
/// its cells. Colours don't matter.
pub fn no_misfit_means_fits()
    ensures parts { NoMisfitMeansFits }
    ensures colors { ColorsDontMatter }
{}

/// A streaming grid and a looked-up grid of the same parts append the same text, byte for byte, if
/// the records give their number of rows, or no side margin has an offset from the end.
#[tactic(auto, using(crate::proofs::DrawnCells::texts_are_one))]
pub fn streamed_and_looked_up_texts_are_one<R: Records, D: Dimension, C: Colors>()
    ensures { TextsAreOne R.Records D.Dimension C.Colors }
{}
