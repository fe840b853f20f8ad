//! Lines of texts and their widths.

use crate::values::Fact;
use pg_layout::{
    LineCursor, count_lines, first_line, get_line_width, get_lines, get_text_width, is_blank,
    trim_line,
};
use pg_testing::report::Report;

/// Texts and how many lines they have.
const LINES: [(&str, usize); 6] = [
    ("", 1),
    ("a", 1),
    ("\n", 2),
    ("a\n", 2),
    ("a\r\nb", 2),
    ("\n\n\n\n", 5),
];

/// Lines and their widths in columns.
const LINE_WIDTHS: [(&str, usize); 9] = [
    ("", 0),
    ("ab", 2),
    ("a\r", 2),
    ("\r\r\r", 3),
    ("日本", 4),
    ("e\u{301}", 1),
    ("a\u{300}\u{301}b", 2),
    ("\u{1F469}\u{1F3FD}", 2),
    ("\u{1F3FD}", 2),
];

/// Texts and the widths of their widest lines.
const TEXT_WIDTHS: [(&str, usize); 6] = [
    ("\n", 0),
    ("a\nbbb\nbb", 3),
    ("日本\nabc", 4),
    ("123\r\r\r567", 9),
    ("a\r\nb", 2),
    ("\n\ncafe\u{301}\n", 4),
];

/// Lines, and whether they are blank.
const BLANK: [(&str, bool); 5] = [
    ("", true),
    (" \t\r", true),
    ("\u{3000}", true),
    ("\u{200B}", false),
    (" a ", false),
];

/// Lines, and what is left of them.
const TRIMMED: [(&str, &str); 21] = [
    ("", ""),
    ("a", "a"),
    ("abc", "abc"),
    ("  abc ", "abc"),
    ("\tabc\r", "abc"),
    (" a  b\tc ", "a  b\tc"),
    (" ", ""),
    (" \t \r", ""),
    ("\u{B}a\u{B}", "a"),
    ("\u{A0}abc\u{A0}", "abc"),
    ("\u{3000}abc\u{3000}", "abc"),
    (" \u{3000} abc \u{A0} ", "abc"),
    ("\u{A0} \u{3000}", ""),
    ("a\u{A0}b", "a\u{A0}b"),
    ("\u{200B}a", "\u{200B}a"),
    ("\u{1}a\u{7F}", "\u{1}a\u{7F}"),
    ("日本", "日本"),
    (" 日本 ", "日本"),
    ("日\u{3000}本\u{3000}", "日\u{3000}本"),
    (" a本", "a本"),
    ("本a ", "本a"),
];

/// Texts and their first lines.
const FIRST_LINES: [(&str, &str); 7] = [
    ("", ""),
    ("a", "a"),
    ("a\r\nb", "a"),
    ("a\r", "a\r"),
    ("\nb", ""),
    ("a\r\r\nb", "a\r"),
    ("a\rb\nc", "a\rb"),
];

fn a_text_is_cut_at_each_line_feed(report: &mut Report) {
    let mut fact = Fact::new(report, "a text is cut at each line feed");
    for (text, lines) in LINES {
        fact.same_at(text, count_lines(text), lines);
        fact.same_at(text, get_lines(text).count(), lines);
    }
    let mut lines = get_lines("a\r\n\nb");
    fact.same(lines.next(), Some("a\r"));
    fact.same(lines.next(), Some(""));
    fact.same(lines.next(), Some("b"));
    fact.same(lines.next(), None);
}

fn a_line_takes_the_columns_of_a_terminal(report: &mut Report) {
    let mut fact = Fact::new(report, "a line takes the columns of a terminal");
    for (line, width) in LINE_WIDTHS {
        fact.same_at(line, get_line_width(line), width);
        fact.same_at(line, get_text_width(line), width);
    }
}

fn a_text_is_as_wide_as_its_widest_line(report: &mut Report) {
    let mut fact = Fact::new(report, "a text is as wide as its widest line");
    for (text, width) in TEXT_WIDTHS {
        fact.same_at(text, get_text_width(text), width);
    }
}

fn a_line_of_white_space_is_blank(report: &mut Report) {
    let mut fact = Fact::new(report, "a line of white space is blank");
    for (line, blank) in BLANK {
        fact.same_at(line, is_blank(line), blank);
    }
}

fn a_line_is_trimmed_of_white_space_at_its_ends(report: &mut Report) {
    let mut fact = Fact::new(report, "a line is trimmed of white space at its ends");
    for (line, trimmed) in TRIMMED {
        fact.same_at(line, trim_line(line), trimmed);
    }
}

fn the_first_line_loses_the_return_before_its_line_feed(report: &mut Report) {
    let mut fact = Fact::new(
        report,
        "the first line loses the return before its line feed",
    );
    for (text, first) in FIRST_LINES {
        fact.same_at(text, first_line(text), first);
    }
}

fn a_cursor_gives_line_after_line(report: &mut Report) {
    let mut fact = Fact::new(report, "a cursor gives line after line");
    let text = "a\n\nb";
    let mut cursor = LineCursor::new();
    fact.holds(cursor.stands_in("") && cursor.stands_in("xyz"));
    fact.same(cursor.next_line(text), Some("a"));
    fact.holds(cursor.stands_in(text) && cursor.stands_in("x"));
    fact.holds(!cursor.stands_in("xyz") && !cursor.stands_in(""));
    fact.same(cursor.next_line(text), Some(""));
    fact.same(cursor.next_line(text), Some("b"));
    fact.same(cursor.next_line(text), None);
    fact.same(cursor.next_line(text), None);
}

/// All facts of this file.
pub(crate) fn check_texts(report: &mut Report) {
    a_text_is_cut_at_each_line_feed(report);
    a_line_takes_the_columns_of_a_terminal(report);
    a_text_is_as_wide_as_its_widest_line(report);
    a_line_of_white_space_is_blank(report);
    a_line_is_trimmed_of_white_space_at_its_ends(report);
    the_first_line_loses_the_return_before_its_line_feed(report);
    a_cursor_gives_line_after_line(report);
}
