//! Worked scripts, each beside what it sets. The functions do nothing: their contracts say that the
//! definitions give the values written here.
#![tactic(auto, unfolding(crate::proofs::Computing::script_words))]

ghost use Rattle.std.specs.Prelude.{◌≡◌, ◌++◌, ◌∷◌, [], Err, Ok, codes, false, true};
ghost use Rattle.pg_layout.specs.Looks.{ascii};
ghost use Rattle.pg_layout.specs.Position.{at};
ghost use Rattle.pg_layout.specs.declared.alignment.AlignmentHorizontal.TheVariants as across;
ghost use Rattle.pg_layout.specs.declared.alignment.AlignmentVertical.TheVariants as down;
ghost use Rattle.pg_layout.specs.declared.position.Entity.TheVariants.{Cell, Column, Global, Row};
ghost use Rattle.pg_layout.specs.declared.sides.Indent.{Indent};
ghost use Rattle.pg_layout.specs.declared.sides.Sides.{Sides};
ghost use Rattle.pg_config.specs.Config.{default_config};
ghost use Rattle.pg_config.specs.Settings.{no_settings, with_setting};
ghost use Rattle.pg_config.specs.Spans.{with_column_span, with_row_span};
ghost use Rattle.pg_script.specs.Samples.{indent, two_by_three, with_settings};
ghost use Rattle.pg_script.specs.Script.{told_by};
ghost use Rattle.pg_script.specs.Told.{told_nothing};

/// The size is the number of rows, then that of columns, at most 1000 each. Cells are empty,
/// columns have width 0, rows height 1, and nothing else is set.
pub fn a_size_is_rows_and_columns()
    ensures small { told_by (codes "size 2 3")
        ≡ Ok (record { widths = 0 ∷ 0 ∷ 0 ∷ []; heights = 1 ∷ 1 ∷ []; texts = ([] ∷ [] ∷ [] ∷ []) ∷ ([] ∷ [] ∷ [] ∷ []) ∷ []; colors = []; config = default_config }) }
    ensures most_rows { told_by (codes "size 1000 0") ≡ Ok (told_nothing (record { rows = 1000; columns = 0 })) }
    ensures most_columns { told_by (codes "size 0 1000") ≡ Ok (told_nothing (record { rows = 0; columns = 1000 })) }
    ensures more_rows { told_by (codes "size 1001 0") ≡ Err 1 }
    ensures more_columns { told_by (codes "size 0 1001") ≡ Err 1 }
{}

/// One width for each column from the left, and one height for each row from the top.
pub fn widths_and_heights_are_told_in_order()
    ensures widths { told_by (codes "size 2 3\nwidths 4 5 6") ≡ Ok (record two_by_three { widths = 4 ∷ 5 ∷ 6 ∷ [] }) }
    ensures heights { told_by (codes "size 2 3\nheights 7 8") ≡ Ok (record two_by_three { heights = 7 ∷ 8 ∷ [] }) }
    ensures two_widths { told_by (codes "size 2 3\nwidths 4 5") ≡ Err 2 }
    ensures four_widths { told_by (codes "size 2 3\nwidths 4 5 6 7") ≡ Err 2 }
    ensures one_height { told_by (codes "size 2 3\nheights 7") ≡ Err 2 }
    ensures three_heights { told_by (codes "size 2 3\nheights 7 8 9") ≡ Err 2 }
{}

/// A line feed, a carriage return and a backslash are written with a backslash, and nothing else is. The place
/// is a row and a column of the table.
pub fn a_text_is_written_with_escapes()
    ensures three { told_by (codes "size 2 3\ncell 1 2 a\\nb\\rc\\\\d")
        ≡ Ok (record two_by_three { texts = ([] ∷ [] ∷ [] ∷ []) ∷ ([] ∷ [] ∷ (codes "a" ++ 10 ∷ codes "b" ++ 13 ∷ codes "c" ++ 92 ∷ codes "d") ∷ []) ∷ [] }) }
    ensures a_tab { told_by (codes "size 2 3\ncell 1 2 a\\tb") ≡ Err 2 }
    ensures at_the_end { told_by (codes "size 2 3\ncell 1 2 a\\") ≡ Err 2 }
    ensures no_row { told_by (codes "size 2 3\ncell 2 0 a") ≡ Err 2 }
    ensures no_column { told_by (codes "size 2 3\ncell 0 3 a") ≡ Err 2 }
{}

/// A text is all that follows the one space after the place. If the line ends there, the text is
/// empty.
pub fn spaces_belong_to_a_text()
    ensures around { told_by (codes "size 2 3\ncell 0 1  a b ") ≡ Ok (record two_by_three { texts = ([] ∷ codes " a b " ∷ [] ∷ []) ∷ ([] ∷ [] ∷ [] ∷ []) ∷ [] }) }
    ensures before_the_place { told_by (codes "size 2 3\n  cell  0  1 a") ≡ Ok (record two_by_three { texts = ([] ∷ codes "a" ∷ [] ∷ []) ∷ ([] ∷ [] ∷ [] ∷ []) ∷ [] }) }
    ensures nothing { told_by (codes "size 2 3\ncell 0 1 a\ncell 0 1") ≡ Ok two_by_three }
{}

/// ASCII borders at all places, or none.
pub fn borders_are_told_by_name()
    ensures all { told_by (codes "size 2 3\nborders ascii") ≡ Ok (with_settings (record default_config { borders = ascii })) }
    ensures none { told_by (codes "size 2 3\nborders ascii\nborders none") ≡ Ok two_by_three }
    ensures others { told_by (codes "size 2 3\nborders modern") ≡ Err 2 }
    ensures two_names { told_by (codes "size 2 3\nborders ascii none") ≡ Err 2 }
{}

/// After the place of a span come its rows, then its columns. The place may lie outside the table.
pub fn a_span_is_rows_and_columns()
    ensures inside { told_by (codes "size 2 3\nspan 0 1 2 3") ≡ Ok (with_settings (record default_config { spans = with_column_span (at 0 1) 3 (with_row_span (at 0 1) 2 []) })) }
    ensures outside { told_by (codes "size 2 3\nspan 7 8 0 9") ≡ Ok (with_settings (record default_config { spans = with_column_span (at 7 8) 9 (with_row_span (at 7 8) 0 []) })) }
    ensures three_sizes { told_by (codes "size 2 3\nspan 0 1 2 3 1") ≡ Err 2 }
{}

/// A setting is for all cells, for a row, for a column, or for one cell.
pub fn a_setting_is_told_of_an_entity()
    ensures all { told_by (codes "size 2 3\nlines all on") ≡ Ok (with_settings (record default_config { line_alignment = with_setting Global true no_settings })) }
    ensures row { told_by (codes "size 2 3\nlines row 1 on") ≡ Ok (with_settings (record default_config { line_alignment = with_setting (Row 1) true no_settings })) }
    ensures column { told_by (codes "size 2 3\nlines col 2 off") ≡ Ok (with_settings (record default_config { line_alignment = with_setting (Column 2) false no_settings })) }
    ensures cell { told_by (codes "size 2 3\nlines cell 1 2 off") ≡ Ok (with_settings (record default_config { line_alignment = with_setting (Cell 1 2) false no_settings })) }
    ensures outside { told_by (codes "size 2 3\nlines cell 7 8 on") ≡ Ok (with_settings (record default_config { line_alignment = with_setting (Cell 7 8) true no_settings })) }
    ensures none { told_by (codes "size 2 3\nlines 1 on") ≡ Err 2 }
    ensures two_names { told_by (codes "size 2 3\nlines all on off") ≡ Err 2 }
{}

/// How texts are aligned horizontally.
pub fn texts_stand_left_or_right()
    ensures all { told_by (codes "size 2 3\nhalign all center") ≡ Ok (with_settings (record default_config { alignment_horizontal = with_setting Global across.Center no_settings })) }
    ensures row { told_by (codes "size 2 3\nhalign row 1 right") ≡ Ok (with_settings (record default_config { alignment_horizontal = with_setting (Row 1) across.Right no_settings })) }
    ensures cell { told_by (codes "size 2 3\nhalign cell 1 2 left") ≡ Ok (with_settings (record default_config { alignment_horizontal = with_setting (Cell 1 2) across.Left no_settings })) }
    ensures top { told_by (codes "size 2 3\nhalign all top") ≡ Err 2 }
    ensures two_names { told_by (codes "size 2 3\nhalign all left right") ≡ Err 2 }
{}

/// How texts are aligned vertically.
pub fn texts_stand_above_or_below()
    ensures all { told_by (codes "size 2 3\nvalign all center") ≡ Ok (with_settings (record default_config { alignment_vertical = with_setting Global down.Center no_settings })) }
    ensures row { told_by (codes "size 2 3\nvalign row 1 bottom") ≡ Ok (with_settings (record default_config { alignment_vertical = with_setting (Row 1) down.Bottom no_settings })) }
    ensures cell { told_by (codes "size 2 3\nvalign cell 1 2 top") ≡ Ok (with_settings (record default_config { alignment_vertical = with_setting (Cell 1 2) down.Top no_settings })) }
    ensures left { told_by (codes "size 2 3\nvalign all left") ≡ Err 2 }
    ensures two_names { told_by (codes "size 2 3\nvalign all top bottom") ≡ Err 2 }
{}

/// Paddings of spaces at the left, at the right, above and below.
pub fn a_row_is_padded()
    ensures row { let padding : Sides Indent = record { left = indent 1 32; right = indent 2 32; top = indent 3 32; bottom = indent 4 32 } in
        told_by (codes "size 2 3\npad row 1 1 2 3 4") ≡ Ok (with_settings (record default_config { padding = with_setting (Row 1) padding no_settings })) }
    ensures all { let padding : Sides Indent = record { left = indent 1 32; right = indent 2 32; top = indent 3 32; bottom = indent 4 32 } in
        told_by (codes "size 2 3\npad all 1 2 3 4") ≡ Ok (with_settings (record default_config { padding = with_setting Global padding no_settings })) }
    ensures three_sizes { told_by (codes "size 2 3\npad all 1 2 3") ≡ Err 2 }
    ensures five_sizes { told_by (codes "size 2 3\npad all 1 2 3 4 5") ≡ Err 2 }
{}

/// Each name sets both trims: that of line ends, and that of blank lines.
pub fn trims_are_told_by_name()
    ensures both { told_by (codes "size 2 3\ntrim all hv")
        ≡ Ok (with_settings (record default_config { trim_horizontal = with_setting Global true no_settings; trim_vertical = with_setting Global true no_settings })) }
    ensures sides { told_by (codes "size 2 3\ntrim row 1 h")
        ≡ Ok (with_settings (record default_config { trim_horizontal = with_setting (Row 1) true no_settings; trim_vertical = with_setting (Row 1) false no_settings })) }
    ensures blank_lines { told_by (codes "size 2 3\ntrim col 2 v")
        ≡ Ok (with_settings (record default_config { trim_horizontal = with_setting (Column 2) false no_settings; trim_vertical = with_setting (Column 2) true no_settings })) }
    ensures none { told_by (codes "size 2 3\ntrim cell 1 2 none")
        ≡ Ok (with_settings (record default_config { trim_horizontal = with_setting (Cell 1 2) false no_settings; trim_vertical = with_setting (Cell 1 2) false no_settings })) }
    ensures two_names { told_by (codes "size 2 3\ntrim all h v") ≡ Err 2 }
{}

/// Margins at the left, at the right, above and below, with one fill: a character, or the escape of
/// a space or a backslash.
pub fn a_margin_has_one_fill()
    ensures sign { let margin : Sides Indent = record { left = indent 1 35; right = indent 2 35; top = indent 3 35; bottom = indent 4 35 } in
        told_by (codes "size 2 3\nmargin 1 2 3 4 #") ≡ Ok (with_settings (record default_config { margin = margin })) }
    ensures space { let margin : Sides Indent = record { left = indent 1 32; right = indent 2 32; top = indent 3 32; bottom = indent 4 32 } in
        told_by (codes "size 2 3\nmargin 1 2 3 4 \\s") ≡ Ok (with_settings (record default_config { margin = margin })) }
    ensures backslash { let margin : Sides Indent = record { left = indent 1 92; right = indent 2 92; top = indent 3 92; bottom = indent 4 92 } in
        told_by (codes "size 2 3\nmargin 1 2 3 4 \\\\") ≡ Ok (with_settings (record default_config { margin = margin })) }
    ensures two_bytes { let margin : Sides Indent = record { left = indent 1 233; right = indent 2 233; top = indent 3 233; bottom = indent 4 233 } in
        told_by (codes "size 2 3\nmargin 1 2 3 4 " ++ 195 ∷ 169 ∷ []) ≡ Ok (with_settings (record default_config { margin = margin })) }
    ensures two_characters { told_by (codes "size 2 3\nmargin 1 2 3 4 ##") ≡ Err 2 }
    ensures two_fills { told_by (codes "size 2 3\nmargin 1 2 3 4 # #") ≡ Err 2 }
    ensures one_backslash { told_by (codes "size 2 3\nmargin 1 2 3 4 \\") ≡ Err 2 }
    ensures nothing { told_by (codes "size 2 3\nmargin 1 2 3 4") ≡ Err 2 }
{}

/// A terminal's colour: the escape byte, a bracket, the number and a letter. The place is a row and
/// a column of the table, and the number is at most 107.
pub fn a_cell_is_coloured()
    ensures greatest { told_by (codes "size 2 3\ncolor 1 2 107") ≡ Ok (record two_by_three { colors = (at 1 2, record { prefix = 27 ∷ codes "[107m"; suffix = 27 ∷ codes "[0m" }) ∷ [] }) }
    ensures with_zeros { told_by (codes "size 2 3\ncolor 1 2 0031") ≡ Ok (record two_by_three { colors = (at 1 2, record { prefix = 27 ∷ codes "[31m"; suffix = 27 ∷ codes "[0m" }) ∷ [] }) }
    ensures too_great { told_by (codes "size 2 3\ncolor 1 2 108") ≡ Err 2 }
    ensures two_numbers { told_by (codes "size 2 3\ncolor 1 2 1 31") ≡ Err 2 }
    ensures no_row { told_by (codes "size 2 3\ncolor 2 0 31") ≡ Err 2 }
    ensures no_column { told_by (codes "size 2 3\ncolor 0 3 31") ≡ Err 2 }
{}

/// Of two lines of one kind the later one counts.
pub fn the_latest_line_counts()
    ensures widths { told_by (codes "size 2 3\nwidths 1 2 3\nwidths 4 5 6") ≡ Ok (record two_by_three { widths = 4 ∷ 5 ∷ 6 ∷ [] }) }
    ensures texts { told_by (codes "size 2 3\ncell 0 1 a\ncell 0 1 b") ≡ Ok (record two_by_three { texts = ([] ∷ codes "b" ∷ [] ∷ []) ∷ ([] ∷ [] ∷ [] ∷ []) ∷ [] }) }
    ensures colors { told_by (codes "size 2 3\ncolor 1 2 30\ncolor 1 2 31") ≡ Ok (record two_by_three { colors = (at 1 2, record { prefix = 27 ∷ codes "[31m"; suffix = 27 ∷ codes "[0m" }) ∷ [] }) }
    ensures settings { told_by (codes "size 2 3\nhalign row 1 right\nhalign all center")
        ≡ Ok (with_settings (record default_config { alignment_horizontal = with_setting Global across.Center (with_setting (Row 1) across.Right no_settings) })) }
    ensures of_all { told_by (codes "size 2 3\nhalign all right\nhalign all center")
        ≡ Ok (with_settings (record default_config { alignment_horizontal = with_setting Global across.Center no_settings })) }
{}

/// A number has 1 to 20 decimal digits, and is below 2^64.
pub fn numbers_have_64_bits()
    ensures greatest { told_by (codes "size 2 3\nwidths 0 007 18446744073709551615") ≡ Ok (record two_by_three { widths = 0 ∷ 7 ∷ 18446744073709551615 ∷ [] }) }
    ensures too_great { told_by (codes "size 2 3\nheights 1 18446744073709551616") ≡ Err 2 }
    ensures of_20_digits { told_by (codes "size 2 3\nheights 1 00000000000000000012") ≡ Ok (record two_by_three { heights = 1 ∷ 12 ∷ [] }) }
    ensures of_21_digits { told_by (codes "size 2 3\nheights 1 000000000000000000012") ≡ Err 2 }
    ensures with_a_sign { told_by (codes "size 2 3\nheights 1 +2") ≡ Err 2 }
    ensures with_a_letter { told_by (codes "size 2 3\nheights 1 2a") ≡ Err 2 }
{}

/// One or more spaces separate words, and may also come before the first word and after the last
/// one. A tab separates nothing, and case matters.
pub fn words_are_parted_by_spaces()
    ensures many { told_by (codes "  size  2   3  ") ≡ Ok two_by_three }
    ensures a_tab { told_by (codes "size 2\t3") ≡ Err 1 }
    ensures capitals { told_by (codes "Size 2 3") ≡ Err 1 }
    ensures one_too_many { told_by (codes "size 2 3 4") ≡ Err 1 }
{}

/// A line feed ends a line; the last line needs none. A carriage return before a line feed isn't
/// part of the line, any other one is.
pub fn lines_end_at_line_feeds()
    ensures with { told_by (codes "size 2 3\nwidths 4 5 6\n") ≡ Ok (record two_by_three { widths = 4 ∷ 5 ∷ 6 ∷ [] }) }
    ensures with_a_return { told_by (codes "size 2 3\r\nwidths 4 5 6\r\n") ≡ Ok (record two_by_three { widths = 4 ∷ 5 ∷ 6 ∷ [] }) }
    ensures a_return_alone { told_by (codes "size 2 3\nwidths 4 5 6\r") ≡ Err 2 }
{}

/// Lines count from 1, including those without words. Each line is UTF-8. The first line with words
/// sets the size, and no other line does. If there is none, the line after the last one is bad.
pub fn the_first_bad_line_is_named()
    ensures after_blanks { told_by (codes "\nsize 2 3\n   \nwidth 4 5 6\nwidth 4 5 6") ≡ Err 4 }
    ensures no_text { told_by (codes "size 2 3\ncell 0 0 " ++ 255 ∷ []) ≡ Err 2 }
    ensures no_size_first { told_by (codes "widths 4 5 6\nsize 2 3") ≡ Err 1 }
    ensures two_sizes { told_by (codes "size 2 3\nsize 2 3") ≡ Err 2 }
    ensures no_line { told_by [] ≡ Err 1 }
    ensures blanks_alone { told_by (codes "\n  \n") ≡ Err 3 }
{}
