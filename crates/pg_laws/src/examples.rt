//! Worked tables, and the looks, each beside its picture. The functions do nothing: their contracts say
//! that the definitions give the pictures drawn here.

ghost use Rattle.std.specs.Prelude.{◌≡◌, ◌++◌, ◌∷◌, ℕ, List, None, Option, Some, [], codes, true};
ghost use Rattle.pg_layout.specs.declared.alignment.AlignmentHorizontal.TheVariants as across;
ghost use Rattle.pg_layout.specs.declared.alignment.AlignmentVertical.TheVariants as down;
ghost use Rattle.pg_layout.specs.declared.borders.Borders.{Borders};
ghost use Rattle.pg_layout.specs.declared.sides.Indent.{Indent};
ghost use Rattle.pg_layout.specs.declared.sides.Offset.{Offset};
ghost use Rattle.pg_layout.specs.declared.sides.Offset.TheVariants.{Start, End};
ghost use Rattle.pg_layout.specs.declared.sides.Sides.{Sides};
ghost use Rattle.pg_layout.specs.Borders.{no_border, no_borders};
ghost use Rattle.pg_layout.specs.Colors.{Color};
ghost use Rattle.pg_layout.specs.Looks.{ascii, blank, dots, extended, markdown, markdown_line, modern, psql, psql_line, rounded, sharp, sharp_line};
ghost use Rattle.pg_layout.specs.Position.{at};
ghost use Rattle.pg_layout.specs.Text.{Text};
ghost use Rattle.pg_config.specs.CompactConfig.{CompactSettings};
ghost use Rattle.pg_config.specs.Config.{Config};
ghost use Rattle.pg_config.specs.Offsets.{with_offset, no_offsets};
ghost use Rattle.pg_config.specs.Overrides.{with_border, no_overrides};
ghost use Rattle.pg_config.specs.Spans.{with_column_span, with_row_span};
ghost use Rattle.pg_picture.specs.declared.fits.Misfit.TheVariants.{Room, Spans, Totals};
ghost use Rattle.pg_picture.specs.Fits.{misfit_of};
ghost use Rattle.pg_picture.specs.Table.{Known, Table, Unknown};
ghost use Rattle.pg_picture.specs.Pieces.{joined};
ghost use Rattle.pg_picture.specs.Picture.{compact_picture, picture};
ghost use Rattle.pg_picture.specs.Samples.{bordered, for_cell, indent, plain, table};
ghost use Rattle.pg_laws.specs.Samples.{drawing, grid_in, headed_in, plain_compact, compact_table, color_b, color_g, color_r, for_all, grid22, one, spaced};

/// Two rows and two columns with borders at all places.
///
/// ```text
/// +---+---+
/// |0-0|0-1|
/// +---+---+
/// |1-0|1-1|
/// +---+---+
/// ```
#[tactic(auto, unfolding(crate::proofs::Computing::sample_words))]
pub fn a_bordered_table()
    ensures { picture Known (table bordered 2 2 (3 ∷ 3 ∷ []) (1 ∷ 1 ∷ []) grid22)
        ≡ joined (codes "+---+---+" ∷ codes "|0-0|0-1|" ∷ codes "+---+---+" ∷ codes "|1-0|1-1|" ∷ codes "+---+---+" ∷ []) }
{}

/// The cell (0, 0) spans both rows. Its text is in the middle of its four lines: on the separator.
///
/// ```text
/// +---+---+
/// |   |0-1|
/// +0-0+---+
/// |   |1-1|
/// |   |   |
/// +---+---+
/// ```
#[tactic(auto, unfolding(crate::proofs::Computing::sample_words))]
pub fn a_text_on_a_separator()
    ensures { let config : Config = record bordered { spans = with_row_span (at 0 0) 2 []; alignment_vertical = for_cell 0 0 down.Center } in
        picture Known (table config 2 2 (3 ∷ 3 ∷ []) (1 ∷ 2 ∷ []) grid22)
        ≡ joined (codes "+---+---+" ∷ codes "|   |0-1|" ∷ codes "+0-0+---+" ∷ codes "|   |1-1|" ∷ codes "|   |   |" ∷ codes "+---+---+" ∷ []) }
{}

/// The cell (0, 0) spans two rows, with paddings of 4 at its sides and of 1 above and below it. The
/// cell (1, 1) spans three columns. All texts are centred vertically.
///
/// ```text
/// +-----------------+------------+----------------+-+
/// |                 |is a library|for print tables|!|
/// +    Papergrid    +------------+----------------+-+
/// |                 |Just like this                 |
/// +-----------------+------------+----------------+-+
/// ```
#[tactic(auto, unfolding(crate::proofs::Computing::sample_words))]
pub fn a_table_with_spans_and_paddings()
    ensures { let config : Config = record bordered {
      spans = with_column_span (at 1 1) 3
          (with_row_span (at 0 0) 2 []);
      alignment_vertical = for_all down.Center;
      padding = for_cell 0 0 (spaced 4 4 1 1);
    } in
        let texts : List (List Text) = (codes "Papergrid" ∷ codes "is a library" ∷ codes "for print tables" ∷ codes "!" ∷ []) ∷ ([] ∷ codes "Just like this" ∷ [] ∷ [] ∷ []) ∷ [] in
        picture Known (table config 2 4 (17 ∷ 12 ∷ 16 ∷ 1 ∷ []) (1 ∷ 1 ∷ []) texts)
        ≡ joined (codes "+-----------------+------------+----------------+-+" ∷ codes "|                 |is a library|for print tables|!|"
        ∷ codes "+    Papergrid    +------------+----------------+-+" ∷ codes "|                 |Just like this                 |"
        ∷ codes "+-----------------+------------+----------------+-+" ∷ []) }
{}

/// The cell (1, 1) spans two rows and two columns. A line of its text is on the separator that it
/// hides.
///
/// ```text
/// +---+---+---+---+
/// |0-0|0-1|0-2|0-3|
/// +---+---+---+---+
/// |1-0|  123  |1-3|
/// |   |  345  |   |
/// +---+  555  +---+
/// |2-0|  333  |2-3|
/// +---+---+---+---+
/// |3-0|3-1|3-2|3-3|
/// +---+---+---+---+
/// ```
#[tactic(auto, unfolding(crate::proofs::Computing::sample_words))]
pub fn a_rectangle_inside_a_table()
    ensures { let config : Config = record bordered {
      spans = with_row_span (at 1 1) 2
          (with_column_span (at 1 1) 2 []);
      alignment_vertical = for_cell 1 1 down.Center;
      alignment_horizontal = for_cell 1 1 across.Center;
    } in
        let text : Text = codes "123" ++ 10 ∷ codes "345" ++ 10 ∷ codes "555" ++ 10 ∷ codes "333" in
        let texts : List (List Text) = (codes "0-0" ∷ codes "0-1" ∷ codes "0-2" ∷ codes "0-3" ∷ [])
        ∷ (codes "1-0" ∷ text ∷ codes "1-2" ∷ codes "1-3" ∷ []) ∷ (codes "2-0" ∷ codes "2-1" ∷ codes "2-2" ∷ codes "2-3" ∷ [])
        ∷ (codes "3-0" ∷ codes "3-1" ∷ codes "3-2" ∷ codes "3-3" ∷ []) ∷ [] in
        picture Known (table config 4 4 (3 ∷ 3 ∷ 3 ∷ 3 ∷ []) (1 ∷ 2 ∷ 1 ∷ 1 ∷ []) texts)
        ≡ joined (codes "+---+---+---+---+" ∷ codes "|0-0|0-1|0-2|0-3|" ∷ codes "+---+---+---+---+" ∷ codes "|1-0|  123  |1-3|" ∷ codes "|   |  345  |   |"
        ∷ codes "+---+  555  +---+" ∷ codes "|2-0|  333  |2-3|" ∷ codes "+---+---+---+---+" ∷ codes "|3-0|3-1|3-2|3-3|" ∷ codes "+---+---+---+---+" ∷ []) }
{}

/// The first column is one cell of three rows, and the second row has height 0. Its separator is
/// drawn, and so is the one below it.
///
/// ```text
/// +-+-+
/// |x|a|
/// + +-+
/// + +-+
/// | |c|
/// +-+-+
/// ```
#[tactic(auto, unfolding(crate::proofs::Computing::sample_words))]
pub fn a_row_span_through_a_row_of_height_0()
    ensures { let config : Config = record bordered { spans = with_row_span (at 0 0) 3 [] } in
        let texts : List (List Text) = (codes "x" ∷ codes "a" ∷ []) ∷ ([] ∷ codes "b" ∷ []) ∷ ([] ∷ codes "c" ∷ []) ∷ [] in
        picture Known (table config 3 2 (1 ∷ 1 ∷ []) (1 ∷ 0 ∷ 1 ∷ []) texts)
        ≡ joined (codes "+-+-+" ∷ codes "|x|a|" ∷ codes "+ +-+" ∷ codes "+ +-+" ∷ codes "| |c|" ∷ codes "+-+-+" ∷ []) }
{}

/// A column span hides the verticals inside it, but no crossing of the separators. Two columns have
/// width 0.
///
/// ```text
/// +-+++---+
/// |0-0|0-1|
/// +-+++---+
/// ```
#[tactic(auto, unfolding(crate::proofs::Computing::sample_words))]
pub fn a_column_span_under_whole_separators()
    ensures { let config : Config = record bordered { spans = with_column_span (at 0 0) 3 [] } in
        picture Known (table config 1 4 (1 ∷ 0 ∷ 0 ∷ 3 ∷ []) (1 ∷ []) ((codes "0-0" ∷ [] ∷ [] ∷ codes "0-1" ∷ []) ∷ []))
        ≡ joined (codes "+-+++---+" ∷ codes "|0-0|0-1|" ∷ codes "+-+++---+" ∷ []) }
{}

/// The cell (0, 1) has a border of its own at its four sides and its four corners.
///
/// ```text
/// +---~***!
/// |0-0@0-1#
/// +---%^^^&
/// |1-0|1-1|
/// +---+---+
/// ```
#[tactic(auto, unfolding(crate::proofs::Computing::sample_words))]
pub fn a_border_round_one_cell()
    ensures { let overrides = with_border (at 0 1)
        (record { top = Some 42; bottom = Some 94; left = Some 64; right = Some 35; top_left = Some 126; top_right = Some 33; bottom_left = Some 37; bottom_right = Some 38 }) no_overrides in
        picture Known (table (record bordered { overrides = overrides }) 2 2 (3 ∷ 3 ∷ []) (1 ∷ 1 ∷ []) grid22)
        ≡ joined (codes "+---~***!" ∷ codes "|0-0@0-1#" ∷ codes "+---%^^^&" ∷ codes "|1-0|1-1|" ∷ codes "+---+---+" ∷ []) }
{}

/// The lines of the text are one space, `  ab `, and two empty ones. Under both trims only `ab` is
/// left.
///
/// ```text
/// |    |
/// |    |
/// |  ab|
/// ```
///
/// The bars aren't part of the picture.
#[tactic(auto, unfolding(crate::proofs::Computing::sample_words))]
pub fn trims_at_the_bottom_right()
    ensures { let config : Config = record plain {
      trim_vertical = for_all true;
      trim_horizontal = for_all true;
      alignment_vertical = for_all down.Bottom;
      alignment_horizontal = for_all across.Right;
    } in
        picture Known (table config 1 1 (4 ∷ []) (3 ∷ []) (one (codes " " ++ 10 ∷ codes "  ab " ++ 10 ∷ 10 ∷ [])))
        ≡ joined (codes "    " ∷ codes "    " ∷ codes "  ab" ∷ []) }
{}

/// A blank text shows no line under vertical trim. Centred in three lines it has one above it, and
/// two below.
///
/// ```text
/// tt
/// bb
/// bb
/// ```
#[tactic(auto, unfolding(crate::proofs::Computing::sample_words))]
pub fn a_blank_text_under_vertical_trim()
    ensures { let padding : Sides Indent = record { left = indent 0 32; right = indent 0 32; top = indent 0 116; bottom = indent 0 98 } in
        picture Known (table (record plain { trim_vertical = for_all true; alignment_vertical = for_all down.Center; padding = for_all padding }) 1 1 (2 ∷ []) (3 ∷ []) (one (10 ∷ 10 ∷ [])))
        ≡ joined (codes "tt" ∷ codes "bb" ∷ codes "bb" ∷ []) }
{}

/// The lines of a right-aligned text: aligned by the widest of them, and each by its own width.
///
/// ```text
/// |  a  |   |    a|
/// |  bbb|   |  bbb|
/// ```
///
/// The bars aren't part of the picture.
#[tactic(auto, unfolding(crate::proofs::Computing::sample_words))]
pub fn lines_aligned_together_and_one_by_one()
    ensures together { picture Known (table (record plain { alignment_horizontal = for_all across.Right }) 1 1 (5 ∷ []) (2 ∷ []) (one (codes "a" ++ 10 ∷ codes "bbb")))
        ≡ joined (codes "  a  " ∷ codes "  bbb" ∷ []) }
    ensures one_by_one { picture Known (table (record plain { alignment_horizontal = for_all across.Right; line_alignment = for_all true }) 1 1 (5 ∷ []) (2 ∷ []) (one (codes "a" ++ 10 ∷ codes "bbb")))
        ≡ joined (codes "    a" ∷ codes "  bbb" ∷ []) }
{}

/// Coloured dots fill what a centred text leaves free: one fill at its left, and one at its right.
///
/// ```text
/// <g>.</g>a<g>...</g>
/// <g>.</g>bbb<g>.</g>
/// ```
#[tactic(auto, unfolding(crate::proofs::Computing::sample_words))]
pub fn coloured_justification()
    ensures { let config : Config = record plain { alignment_horizontal = for_all across.Center; justification = for_all 46; justification_color = for_all (Some color_g) } in
        picture Known (table config 1 1 (5 ∷ []) (2 ∷ []) (one (codes "a" ++ 10 ∷ codes "bbb")))
        ≡ joined (codes "<g>.</g>a<g>...</g>" ∷ codes "<g>.</g>bbb<g>.</g>" ∷ []) }
{}

/// A colour surrounds an empty text too.
///
/// ```text
/// |<r></r> |
/// ```
///
/// The bars aren't part of the picture.
#[tactic(auto, unfolding(crate::proofs::Computing::sample_words))]
pub fn a_colour_round_an_empty_text()
    ensures { let t : Table = table plain 1 1 (1 ∷ []) (1 ∷ []) (one []) in
        picture Known (record t { color = λ p. Some color_r }) ≡ codes "<r></r> " }
{}

/// The inner separators are coloured. The rectangle from above has no colour.
///
/// ```text
/// +-+-+
/// |x|a|
/// <r>+</r> <r>+-+</r>
/// | |b|
/// +-+-+
/// ```
#[tactic(auto, unfolding(crate::proofs::Computing::sample_words))]
pub fn a_coloured_separator_behind_a_rectangle()
    ensures { let colors : Borders Color = record no_borders { horizontal = Some color_r; intersection = Some color_r; left_intersection = Some color_r; right_intersection = Some color_r } in
        let config : Config = record bordered { border_colors = colors; border_colored = true; spans = with_row_span (at 0 0) 2 [] } in
        picture Known (table config 2 2 (1 ∷ 1 ∷ []) (1 ∷ 1 ∷ []) ((codes "x" ∷ codes "a" ∷ []) ∷ ([] ∷ codes "b" ∷ []) ∷ []))
        ≡ joined (codes "+-+-+" ∷ codes "|x|a|" ∷ codes "<r>+</r> <r>+-+</r>" ∷ codes "| |b|" ∷ codes "+-+-+" ∷ []) }
{}

/// The cell (0, 0) has a coloured line above it. Beside it are spaces in the open colour if the
/// missing glyph is none, else the missing glyph without a colour.
///
/// ```text
/// |<r>==  </r>|   |<r>==</r>  |
/// |abcd|          |abcd|
/// ```
///
/// The bars aren't part of the picture.
#[tactic(auto, unfolding(crate::proofs::Computing::sample_words))]
pub fn a_colour_and_no_glyph_beside_it()
    ensures no_missing_glyph { let overrides = with_border (at 0 0) (record no_border { top = Some 61 }) no_overrides in
        let colors = with_border (at 0 0) (record no_border { top = Some color_r }) no_overrides in
        picture Known (table (record plain { missing = None; overrides = overrides; color_overrides = colors; border_colored = true }) 1 2 (2 ∷ 2 ∷ []) (1 ∷ []) ((codes "ab" ∷ codes "cd" ∷ []) ∷ []))
        ≡ joined (codes "<r>==  </r>" ∷ codes "abcd" ∷ []) }
    ensures a_space_is_missing { let overrides = with_border (at 0 0) (record no_border { top = Some 61 }) no_overrides in
        let colors = with_border (at 0 0) (record no_border { top = Some color_r }) no_overrides in
        picture Known (table (record plain { overrides = overrides; color_overrides = colors; border_colored = true }) 1 2 (2 ∷ 2 ∷ []) (1 ∷ []) ((codes "ab" ∷ codes "cd" ∷ []) ∷ []))
        ≡ joined (codes "<r>==</r>  " ∷ codes "abcd" ∷ []) }
{}

/// The top line is coloured. Glyph 1 above the cell is `*` in a colour of its own.
///
/// ```text
/// <r>+-</r><b>*</b><r>-+</r>
/// |abc|
/// +---+
/// ```
#[tactic(auto, unfolding(crate::proofs::Computing::sample_words))]
pub fn an_offset_glyph_in_its_colour()
    ensures { let colors : Borders Color = record no_borders { top = Some color_r; top_left = Some color_r; top_right = Some color_r; top_intersection = Some color_r } in
        let config : Config = record bordered {
          border_colors = colors;
          border_colored = true;
          horizontal_chars = with_offset (at 0 0)
              (Start 1) 42 no_offsets;
          horizontal_colors = with_offset (at 0 0) (Start 1) color_b no_offsets;
        } in
        picture Known (table config 1 1 (3 ∷ []) (1 ∷ []) (one (codes "abc")))
        ≡ joined (codes "<r>+-</r><b>*</b><r>-+</r>" ∷ codes "|abc|" ∷ codes "+---+" ∷ []) }
{}

/// A left margin that begins after the first line. It doesn't depend on the number of lines.
///
/// ```text
///  +--+
/// #|ab|
/// #+--+
/// ```
#[tactic(auto, unfolding(crate::proofs::Computing::sample_words))]
pub fn a_margin_from_the_start()
    ensures known { let margin : Sides Indent = record { left = indent 1 35; right = indent 0 32; top = indent 0 32; bottom = indent 0 32 } in
        let offset : Sides Offset = record { left = Start 1; right = Start 0; top = Start 0; bottom = Start 0 } in
        picture Known (table (record bordered { margin = margin; margin_offset = offset }) 1 1 (2 ∷ []) (1 ∷ []) (one (codes "ab")))
        ≡ joined (codes " +--+" ∷ codes "#|ab|" ∷ codes "#+--+" ∷ []) }
    ensures unknown { let margin : Sides Indent = record { left = indent 1 35; right = indent 0 32; top = indent 0 32; bottom = indent 0 32 } in
        let offset : Sides Offset = record { left = Start 1; right = Start 0; top = Start 0; bottom = Start 0 } in
        picture Unknown (table (record bordered { margin = margin; margin_offset = offset }) 1 1 (2 ∷ []) (1 ∷ []) (one (codes "ab")))
        ≡ joined (codes " +--+" ∷ codes "#|ab|" ∷ codes "#+--+" ∷ []) }
{}

/// A left margin that ends before the last line, and is whole if the number of lines is unknown.
///
/// ```text
/// known    unknown
/// #+--+    #+--+
/// #|ab|    #|ab|
///  +--+    #+--+
/// ```
#[tactic(auto, unfolding(crate::proofs::Computing::sample_words))]
pub fn a_margin_to_the_end()
    ensures known { let margin : Sides Indent = record { left = indent 1 35; right = indent 0 32; top = indent 0 32; bottom = indent 0 32 } in
        let offset : Sides Offset = record { left = End 1; right = Start 0; top = Start 0; bottom = Start 0 } in
        picture Known (table (record bordered { margin = margin; margin_offset = offset }) 1 1 (2 ∷ []) (1 ∷ []) (one (codes "ab")))
        ≡ joined (codes "#+--+" ∷ codes "#|ab|" ∷ codes " +--+" ∷ []) }
    ensures unknown { let margin : Sides Indent = record { left = indent 1 35; right = indent 0 32; top = indent 0 32; bottom = indent 0 32 } in
        let offset : Sides Offset = record { left = End 1; right = Start 0; top = Start 0; bottom = Start 0 } in
        picture Unknown (table (record bordered { margin = margin; margin_offset = offset }) 1 1 (2 ∷ []) (1 ∷ []) (one (codes "ab")))
        ≡ joined (codes "#+--+" ∷ codes "#|ab|" ∷ codes "#+--+" ∷ []) }
{}

/// A top margin whose first column is blank and whose fill is coloured, and a bottom margin that is all blank.
///
/// ```text
/// | <g>^</g>|
/// |ab|
/// |  |
/// ```
///
/// The bars aren't part of the picture.
#[tactic(auto, unfolding(crate::proofs::Computing::sample_words))]
pub fn margins_above_and_below()
    ensures { let margin : Sides Indent = record { left = indent 0 32; right = indent 0 32; top = indent 1 94; bottom = indent 1 118 } in
        let offset : Sides Offset = record { left = Start 0; right = Start 0; top = Start 1; bottom = End 5 } in
        let color : Sides (Option Color) = record { left = None; right = None; top = Some color_g; bottom = None } in
        picture Known (table (record plain { margin = margin; margin_offset = offset; margin_color = color }) 1 1 (2 ∷ []) (1 ∷ []) (one (codes "ab")))
        ≡ joined (codes " <g>^</g>" ∷ codes "ab" ∷ codes "  " ∷ []) }
{}

/// A compact table with borders at all places and a margin at each side.
///
/// ```text
/// ^^^^^
/// ^^^^^
/// <+-+>
/// <|a|>
/// <+-+>
/// vvvvv
/// ```
#[tactic(auto, unfolding(crate::proofs::Computing::sample_words))]
pub fn a_compact_table_with_margins()
    ensures { let margin : Sides Indent = record { left = indent 1 60; right = indent 1 62; top = indent 2 94; bottom = indent 1 118 } in
        compact_picture (compact_table (record plain_compact { borders = ascii; margin = margin }) 1 1 (1 ∷ []) (one (codes "a")))
        ≡ joined (codes "^^^^^" ∷ codes "^^^^^" ∷ codes "<+-+>" ∷ codes "<|a|>" ∷ codes "<+-+>" ∷ codes "vvvvv" ∷ []) }
{}

/// In a compact table a separator between two rows ends with the glyphs of the rows' sides.
///
/// ```text
/// +-+
/// |a|
/// |-|
/// |b|
/// +-+
/// ```
#[tactic(auto, unfolding(crate::proofs::Computing::sample_words))]
pub fn an_inner_separator_of_a_compact_table()
    ensures { compact_picture (compact_table (record plain_compact { borders = ascii }) 2 1 (1 ∷ []) ((codes "a" ∷ []) ∷ (codes "b" ∷ []) ∷ []))
        ≡ joined (codes "+-+" ∷ codes "|a|" ∷ codes "|-|" ∷ codes "|b|" ∷ codes "+-+" ∷ []) }
{}

/// In a compact table the colour of a corner continues to the end of its line if no other part is
/// coloured.
///
/// ```text
/// <r>+-+-+</r>
/// ab
/// ```
#[tactic(auto, unfolding(crate::proofs::Computing::sample_words))]
pub fn a_coloured_corner_of_a_compact_table()
    ensures { let borders : Borders ℕ = record no_borders { top = Some 45; top_left = Some 43; top_right = Some 43; top_intersection = Some 43 } in
        let colors : Borders Color = record no_borders { top_left = Some color_r } in
        compact_picture (compact_table (record plain_compact { borders = borders; borders_color = colors }) 1 2 (1 ∷ 1 ∷ []) ((codes "a" ∷ codes "b" ∷ []) ∷ []))
        ≡ joined (codes "<r>+-+-+</r>" ∷ codes "ab" ∷ []) }
{}

/// Overlapping spans are reported before a total: the widths are too great as well.
#[tactic(auto, unfolding(crate::proofs::Computing::sample_words))]
pub fn spans_that_overlap()
    ensures { misfit_of (table (record plain { spans = with_column_span (at 0 1) 2 (with_column_span (at 0 0) 2 []) }) 1 3 (18446744073709551615 ∷ 1 ∷ []) (1 ∷ []) [])
        ≡ Some Spans }
{}

/// A total is reported before missing room: the sum of the widths isn't below 2^64, and the second
/// cell has no room.
#[tactic(auto, unfolding(crate::proofs::Computing::sample_words))]
pub fn widths_past_the_greatest_number()
    ensures { misfit_of (table plain 1 2 (18446744073709551615 ∷ 1 ∷ []) (1 ∷ []) ((codes "a" ∷ codes "bc" ∷ []) ∷ []))
        ≡ Some Totals }
{}

/// A text of two columns doesn't fit in one, and the misfit names its cell. If its row has no line,
/// it fits.
#[tactic(auto, unfolding(crate::proofs::Computing::sample_words))]
pub fn a_text_without_room()
    ensures one_line { misfit_of (table plain 2 1 (1 ∷ []) (1 ∷ 1 ∷ []) (([] ∷ []) ∷ (codes "ab" ∷ []) ∷ []))
        ≡ Some (Room 1 0) }
    ensures no_line { misfit_of (table plain 2 1 (1 ∷ []) (1 ∷ 0 ∷ []) (([] ∷ []) ∷ (codes "ab" ∷ []) ∷ []))
        ≡ None }
{}

/// ASCII glyphs at all places.
///
/// ```text
/// +---+---+
/// |0-0|0-1|
/// +---+---+
/// |1-0|1-1|
/// +---+---+
/// ```
#[tactic(auto, unfolding(crate::proofs::Computing::sample_words))]
pub fn a_table_in_ascii()
    ensures { picture Known (grid_in ascii) ≡ drawing (codes "+---+---+" ∷ codes "|0-0|0-1|" ∷ codes "+---+---+" ∷ codes "|1-0|1-1|" ∷ codes "+---+---+" ∷ []) }
{}

/// Single lines at all places.
///
/// ```text
/// ┌───┬───┐
/// │0-0│0-1│
/// ├───┼───┤
/// │1-0│1-1│
/// └───┴───┘
/// ```
#[tactic(auto, unfolding(crate::proofs::Computing::sample_words))]
pub fn a_table_in_modern()
    ensures { picture Known (grid_in modern) ≡ drawing (codes "┌───┬───┐" ∷ codes "│0-0│0-1│" ∷ codes "├───┼───┤" ∷ codes "│1-0│1-1│" ∷ codes "└───┴───┘" ∷ []) }
{}

/// Single lines, and none between rows.
///
/// ```text
/// ┌───┬───┐
/// │0-0│0-1│
/// │1-0│1-1│
/// └───┴───┘
/// ```
#[tactic(auto, unfolding(crate::proofs::Computing::sample_words))]
pub fn a_table_in_sharp()
    ensures { picture Known (grid_in sharp) ≡ drawing (codes "┌───┬───┐" ∷ codes "│0-0│0-1│" ∷ codes "│1-0│1-1│" ∷ codes "└───┴───┘" ∷ []) }
{}

/// Single lines with round corners, and none between rows.
///
/// ```text
/// ╭───┬───╮
/// │0-0│0-1│
/// │1-0│1-1│
/// ╰───┴───╯
/// ```
#[tactic(auto, unfolding(crate::proofs::Computing::sample_words))]
pub fn a_table_in_rounded()
    ensures { picture Known (grid_in rounded) ≡ drawing (codes "╭───┬───╮" ∷ codes "│0-0│0-1│" ∷ codes "│1-0│1-1│" ∷ codes "╰───┴───╯" ∷ []) }
{}

/// Double lines at all places.
///
/// ```text
/// ╔═══╦═══╗
/// ║0-0║0-1║
/// ╠═══╬═══╣
/// ║1-0║1-1║
/// ╚═══╩═══╝
/// ```
#[tactic(auto, unfolding(crate::proofs::Computing::sample_words))]
pub fn a_table_in_extended()
    ensures { picture Known (grid_in extended) ≡ drawing (codes "╔═══╦═══╗" ∷ codes "║0-0║0-1║" ∷ codes "╠═══╬═══╣" ∷ codes "║1-0║1-1║" ∷ codes "╚═══╩═══╝" ∷ []) }
{}

/// Dots at all places.
///
/// ```text
/// .........
/// :0-0:0-1:
/// :...:...:
/// :1-0:1-1:
/// :...:...:
/// ```
#[tactic(auto, unfolding(crate::proofs::Computing::sample_words))]
pub fn a_table_in_dots()
    ensures { picture Known (grid_in dots) ≡ drawing (codes "........." ∷ codes ":0-0:0-1:" ∷ codes ":...:...:" ∷ codes ":1-0:1-1:" ∷ codes ":...:...:" ∷ []) }
{}

/// A space between columns.
///
/// ```text
/// 0-0 0-1
/// 1-0 1-1
/// ```
#[tactic(auto, unfolding(crate::proofs::Computing::sample_words))]
pub fn a_table_in_blank()
    ensures { picture Known (grid_in blank) ≡ drawing (codes "0-0 0-1" ∷ codes "1-0 1-1" ∷ []) }
{}

/// Lines between columns.
///
/// ```text
/// 0-0|0-1
/// 1-0|1-1
/// ```
#[tactic(auto, unfolding(crate::proofs::Computing::sample_words))]
pub fn a_table_in_psql()
    ensures { picture Known (grid_in psql) ≡ drawing (codes "0-0|0-1" ∷ codes "1-0|1-1" ∷ []) }
{}

/// Lines between columns and at both sides.
///
/// ```text
/// |0-0|0-1|
/// |1-0|1-1|
/// ```
#[tactic(auto, unfolding(crate::proofs::Computing::sample_words))]
pub fn a_table_in_markdown()
    ensures { picture Known (grid_in markdown) ≡ drawing (codes "|0-0|0-1|" ∷ codes "|1-0|1-1|" ∷ []) }
{}

/// A line below the first row, in single lines.
///
/// ```text
/// ┌───┬───┐
/// │0-0│0-1│
/// ├───┼───┤
/// │1-0│1-1│
/// │2-0│2-1│
/// └───┴───┘
/// ```
#[tactic(auto, unfolding(crate::proofs::Computing::sample_words, pg_config::specs::Overrides::with_row_line))]
pub fn a_header_in_sharp()
    ensures { picture Known (headed_in sharp sharp_line) ≡ drawing (codes "┌───┬───┐" ∷ codes "│0-0│0-1│" ∷ codes "├───┼───┤" ∷ codes "│1-0│1-1│" ∷ codes "│2-0│2-1│" ∷ codes "└───┴───┘" ∷ []) }
{}

/// A line below the first row, in single lines between round corners.
///
/// ```text
/// ╭───┬───╮
/// │0-0│0-1│
/// ├───┼───┤
/// │1-0│1-1│
/// │2-0│2-1│
/// ╰───┴───╯
/// ```
#[tactic(auto, unfolding(crate::proofs::Computing::sample_words, pg_config::specs::Overrides::with_row_line))]
pub fn a_header_in_rounded()
    ensures { picture Known (headed_in rounded sharp_line) ≡ drawing (codes "╭───┬───╮" ∷ codes "│0-0│0-1│" ∷ codes "├───┼───┤" ∷ codes "│1-0│1-1│" ∷ codes "│2-0│2-1│" ∷ codes "╰───┴───╯" ∷ []) }
{}

/// A line below the first row of columns with lines between them.
///
/// ```text
/// 0-0|0-1
/// ---+---
/// 1-0|1-1
/// 2-0|2-1
/// ```
#[tactic(auto, unfolding(crate::proofs::Computing::sample_words, pg_config::specs::Overrides::with_row_line))]
pub fn a_header_in_psql()
    ensures { picture Known (headed_in psql psql_line) ≡ drawing (codes "0-0|0-1" ∷ codes "---+---" ∷ codes "1-0|1-1" ∷ codes "2-0|2-1" ∷ []) }
{}

/// A line below the first row that begins and ends with the glyphs at the sides.
///
/// ```text
/// |0-0|0-1|
/// |---|---|
/// |1-0|1-1|
/// |2-0|2-1|
/// ```
#[tactic(auto, unfolding(crate::proofs::Computing::sample_words, pg_config::specs::Overrides::with_row_line))]
pub fn a_header_in_markdown()
    ensures { picture Known (headed_in markdown markdown_line) ≡ drawing (codes "|0-0|0-1|" ∷ codes "|---|---|" ∷ codes "|1-0|1-1|" ∷ codes "|2-0|2-1|" ∷ []) }
{}
