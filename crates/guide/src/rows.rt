//! Rows of programs: texts that are written out, and inputs, each line of which is a row.

use pg_layout::VecRecords;
use pg_table::TableFault;
use std::alloc::{AllocError, Global};

/// A row for each of these lists of texts.
pub(crate) fn rows_of<'a>(
    alloc: Global,
    texts: &[&[&'a str]],
) -> Result<Vec<Vec<&'a str>>, AllocError> {
    let mut rows = Vec::new(alloc);
    for row in texts {
        rows.push(row.to_vec(alloc)?)?;
    }
    Ok(rows)
}

/// The records of these rows, for a grid.
pub(crate) fn records_of<'a>(
    alloc: Global,
    texts: &[&[&'a str]],
) -> Result<VecRecords<&'a str>, TableFault> {
    VecRecords::new(rows_of(alloc, texts)?).map_err(TableFault::from)
}

/// Lines for `word_counts`.
pub(crate) const LINES: &str = "one line\nand another one\nthe last\n";

/// Lines for `word_counts`, the third of which is wider than its column.
pub(crate) const WIDE_LINES: &str = "\
one line
and another one
a line that is wider than its column
the last
";

/// Messages for `live_log`.
pub(crate) const LOG: &str = "\
09:12 started
09:13 listening on port 8080 for connections from anywhere
09:15 stopped
";

/// Rows for `foreign_rows`. The last one begins a text with what clears a terminal.
pub(crate) const TEXTS: &str = "\
name\twhat it is\twhere
tea\tdried leaves of a plant that grows in the hills\tAssam
茶\tお茶はチャノキの葉を摘んで作られる飲み物です\t日本
note\t\u{1b}[2Jall is still here\tbelow
";
