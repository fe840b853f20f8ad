//! Tables in memory, beside the pictures that were drawn of them by hand. Each is drawn by all calls of the grids, or
//! of the builders of tables at their natural sizes.
//!
//! ```text
//! : a margin ends above the last line
//! |ab|
//! widths 2
//! heights 1
//! = #+--+
//! = #|ab|
//! =  +--+
//! by peekable hinted
//! borders ascii
//! margin 1:# 0 0 0
//! margin_offset end 1 start 0 start 0 start 0
//!
//! : texts stand at the right
//! natural [3] [1, 1]
//! |a|
//! |ddd|
//! = +---+
//! = |  a|
//! = +---+
//! = |ddd|
//! = +---+
//! borders ascii
//! alignment_horizontal all right
//! or
//! table with_alignment right
//! ```
//!
//! The lines of a section, besides those of every part:
//!
//! - `times 1000`: the row above it is there so many times.
//! - `widths 3 9` and `heights 1 1` are the sizes of its columns and rows, which are else none.
//! - `natural`: the table is drawn at its natural sizes, and by `natural [3, 2] [1, 1]` these are the widths and
//!   heights. By `natural none` there are none, and by `natural spans` spans don't fit.
//! - `= LINE` is the next line of the picture. `=` alone is an empty one, and the whole picture of a table
//!   that shows nothing.
//! - `~ TEXT`: the picture goes on with this text over and over, so that no memory holds it.
//! - `! room 0 1` stands in place of a picture: the table doesn't fit, and that is its first misfit, as are
//!   `! spans` and `! totals`, or `! ragged 2` where row 2 is the first of another length. All memory is
//!   refused meanwhile; `! memory` is for a table that can't be judged without. `? totals` is `! totals` with all memory.
//! - `color 0 0 <r>|</r>` gives a cell a colour, by what stands before its text and behind it.
//! - `by peekable hinted` names the grids that draw the table: `peekable` is the looked-up one, `hinted` the
//!   streaming one that knows how many rows there are, `unhinted` the one that doesn't, and `compact` the
//!   compact one. Without this line it is the first three.
//! - `compact borders ascii` is a setting of the compact grid. Its other settings are `margin`
//!   and `padding` with four sides, `alignment_horizontal right`, `borders_color left=red` with the places
//!   that have a colour, and `margin_color` and `padding_color` with four of them: `red` is `<r>` and
//!   `</r>`, and so are `green` and `blue`; `empty` is a colour of two empty texts.
//! - `table with_borders psql` is the next call of a builder of natural sizes. Its other calls are
//!   `with_padding 1 1 1:* 0`, `with_alignment right`, `with_header_line` and `set_header_line` (`psql`,
//!   `sharp`, `markdown`, or the one glyph of a line without crossings and ends); `with_span_crossings` and
//!   `set_span_crossings`, with borders; `with_title 0 right Stock` and `set_title`, with the row line, the
//!   side and all that is left as the title; and `with_config` and `with_colors`, which take the settings
//!   and the colours of the lines since the last one. `table` alone makes one, and calls nothing.
//! - `within 44 words` narrows a table at its natural sizes to so many columns, or to `any` number of them:
//!   `words` and `anywhere` are where lines are broken, and `cut …` has the tail of lines that are cut. `limits
//!   any 2` are the greatest widths of its first columns. `natural` then has the sizes of what became of
//!   it. `least 16` is the least width of a line, or `none`, and by `unchanged` no text changes.
//! - `or` begins another way to draw the same texts, in the same sizes unless it has others, with
//!   settings, grids or a builder of its own, and the same picture or refusal unless it has another.
//!
//! At the end of each way the table is drawn by each of its grids. At natural sizes it is drawn by the
//! builder that was called, or, without a line `table`, by one that is lent all of it and then by one with
//! rows of its own, by `with_config` and `with_colors`. The latter two have no test, but within a width.
//!
//! - A picture is drawn behind the text of a buffer and as a text of its own: four answers, of which one is
//!   that of the test whether it fits and one whether it is printed. Then both calls are made again and
//!   again, each time with another request for memory refused, alone or with all behind it, and the picture
//!   is printed into buffers that get no more memory, with room for each number of bytes up to its length:
//!   three answers, each of which is the first thing that is wrong. A beginning of the picture is there
//!   where memory was refused, and else all of it. The streaming grid asks once for memory of its own, and
//!   a table at its natural sizes twice, or more often where cells span others or texts are fitted to a
//!   width; where there are no rows or no columns nothing asks for any. Of a
//!   picture of more than 200 bytes only the last two rooms are tried, and of a table of more than 100 rows
//!   only the rooms: one answer.
//! - A picture that goes on and on is begun seven times, each time with more memory, and each time what the
//!   buffer gains is a beginning of it: 29 answers, of which the last one is that there is no text.
//! - A refusal is what the test answers, and why both calls are refused. The buffer stays as it was, and no
//!   request for memory comes, but for natural sizes one in each call unless spans don't fit, and within a
//!   width none: five answers, or four where none is refused. Rows of several lengths are refused by the
//!   records and by the builder with rows of its own: two answers.
//! - Natural sizes are listed where a line has them, without spans with no more requests for memory than there are
//!   lists that aren't empty, and then while each of them is refused: two answers.
//! - The least width of a line is asked where a line has it, and a table of which no text changes is fitted while
//!   all memory is refused: an answer each.
//! - A line below a header and a title are also set, by either call, in a table whose memory is refused, which
//!   stays as it was: two answers.
//!
//! A way that has none of these is an error, and so is one that has two of them.

use crate::case::{Case, CaseFault, number_of, owned_row, push_line, set_numbers};
use crate::tables::drawing::{Grid, with_compact_setting};
use crate::tables::refusal::Refusal;
use crate::tables::sizes::Within;
use pg_config::{CompactConfig, SpannedConfig};
use pg_layout::{ColorsMap, ConstantDimension};
use pg_table::Table;
use pg_testing::report::Report;
use pg_testing::settings::{apply, set_cell_color};
use pg_testing::{Line, LineFault, texts_of_row};
use std::alloc::{AllocError, Global};
use std::mem;

mod builder;
pub(crate) mod drawing;
pub(crate) mod refusal;
mod sizes;

/// What is set for a way to draw a table.
#[derive(Drop)]
pub(crate) struct Settings {
    /// The settings of all but the compact grid and the builder that was called.
    pub(crate) config: SpannedConfig,
    /// The settings of the compact grid.
    pub(crate) compact: CompactConfig,
    /// The colours of cells.
    pub(crate) colors: ColorsMap,
    /// The builder that was called.
    pub(crate) table: Option<Table<String>>,
}

impl Settings {
    // Nothing is set.
    fn new(alloc: Global) -> Settings {
        Settings {
            config: SpannedConfig::new(alloc),
            compact: CompactConfig::new(),
            colors: ColorsMap::new(alloc),
            table: None,
        }
    }

    // Sets a part of the compact grid's configuration.
    fn set_compact(&mut self, line: &str) -> Result<(), LineFault> {
        self.compact = with_compact_setting(self.compact, line)?;
        Ok(())
    }
}

/// A way to draw the table of a section.
#[derive(Drop)]
pub(crate) struct TableWay<'a> {
    /// The number of the line at which it begins.
    pub(crate) line: usize,
    /// What is set. Its box keeps its parts out of the proofs of functions that use the others alone.
    pub(crate) settings: Box<Settings>,
    /// The grids that draw it, where a line names them.
    pub(crate) grids: Vec<Grid>,
    /// The width within which the table is drawn, where a line has it.
    pub(crate) within: Option<Within<'a>>,
    /// The greatest widths of its first columns.
    pub(crate) limits: Vec<usize>,
    /// The least width of a line, where a line has it: none where that is no number.
    pub(crate) least: Option<Option<usize>>,
    /// Whether no text changes.
    pub(crate) is_unchanged: bool,
    /// Whether it has a picture or a refusal of its own, in place of that of the way before it.
    is_answered: bool,
    /// Whether a span was set.
    pub(crate) is_spanned: bool,
}

impl<'a> TableWay<'a> {
    // Nothing is set.
    fn new(alloc: Global, line: usize) -> Result<TableWay<'a>, AllocError> {
        let settings = Box::new(alloc, Settings::new(alloc))?;
        Ok(TableWay {
            line,
            settings,
            grids: Vec::new(alloc),
            within: None,
            limits: Vec::new(alloc),
            least: None,
            is_unchanged: false,
            is_answered: false,
            is_spanned: false,
        })
    }
}

/// A table as the lines of a section write it, and how it is to be drawn.
#[derive(Drop)]
pub(crate) struct TableCase<'a> {
    pub(crate) alloc: Global,
    /// The name of the section, or the empty text before the first one.
    pub(crate) section: &'a str,
    /// The texts, row by row.
    pub(crate) rows: Vec<Vec<&'a str>>,
    /// The sizes of columns and rows.
    pub(crate) dimension: ConstantDimension,
    /// The rest of a line `natural`: the natural sizes, or nothing.
    pub(crate) natural: Option<&'a str>,
    /// The picture, or its first lines where it goes on and on.
    pub(crate) picture: Option<String>,
    /// The text with which it goes on, over and over.
    pub(crate) again: Option<&'a str>,
    /// The refusal in place of a picture.
    pub(crate) refusal: Option<Refusal>,
    /// Whether it is that of a table that has all memory.
    pub(crate) has_memory: bool,
    /// How the table is drawn.
    pub(crate) way: TableWay<'a>,
}

impl<'a> TableCase<'a> {
    /// No lines of a section, which begins at this line.
    pub(crate) fn new(
        alloc: Global,
        section: &'a str,
        line: usize,
    ) -> Result<TableCase<'a>, AllocError> {
        let way = TableWay::new(alloc, line)?;
        Ok(TableCase {
            alloc,
            section,
            rows: Vec::new(alloc),
            dimension: ConstantDimension(Vec::new(alloc), Vec::new(alloc)),
            natural: None,
            picture: None,
            again: None,
            refusal: None,
            has_memory: false,
            way,
        })
    }

    // Begins to take what the table gives in this way, in place of what it gave in the one before.
    fn begin_answer(&mut self) {
        if !self.way.is_answered {
            self.picture = None;
            self.again = None;
            self.refusal = None;
            self.way.is_answered = true;
        }
    }

    // Repeats the last row until it is there so many times.
    fn repeat_row(&mut self, count: &str) -> Result<(), CaseFault> {
        for _ in 1..number_of(count)? {
            let Some(row) = self.rows.last() else {
                return Err(CaseFault::Unknown);
            };
            let texts = row.as_slice().to_vec(self.alloc)?;
            self.rows.push(texts)?;
        }
        Ok(())
    }

    // Takes the next row.
    fn push_row(&mut self, row: &'a str) -> Result<(), CaseFault> {
        let texts = texts_of_row(self.alloc, row)?;
        self.rows.push(texts).map_err(CaseFault::from)
    }

    // Follows a line that begins with a word.
    fn push_word(&mut self, line: &'a str, report: &mut Report) -> Result<(), CaseFault> {
        let (word, rest) = line.split_once(' ').unwrap_or((line, ""));
        match word {
            "times" => self.repeat_row(rest),
            "widths" => set_numbers(&mut self.dimension.0, rest),
            "heights" => set_numbers(&mut self.dimension.1, rest),
            "=" | "~" | "!" | "?" | "natural" => self.push_answer(word, rest),
            "table" => self.call(rest, report),
            "within" | "limits" | "least" | "unchanged" => self.push_within(word, rest),
            "by" => self.push_grids(rest),
            _ => self.push_setting(word, rest, line),
        }
    }

    // Takes what the table gives: a line of the picture, the text with which it goes on, a refusal or sizes.
    fn push_answer(&mut self, word: &str, rest: &'a str) -> Result<(), CaseFault> {
        match word {
            "=" => {
                self.begin_answer();
                push_line(self.alloc, &mut self.picture, rest)?;
            }
            "~" => self.again = Some(rest),
            "natural" => self.natural = Some(rest),
            _ => {
                self.begin_answer();
                self.refusal = Some(Refusal::named(rest)?);
                self.has_memory = word == "?";
            }
        }
        Ok(())
    }

    // Takes a setting, or the colour of a cell.
    fn push_setting(&mut self, word: &str, rest: &str, line: &str) -> Result<(), CaseFault> {
        self.way.is_spanned = self.way.is_spanned || word.ends_with("_span");
        let alloc = self.alloc;
        let settings = &mut *self.way.settings;
        let set = match word {
            "color" => set_cell_color(&mut settings.colors, alloc, rest),
            "compact" => settings.set_compact(rest),
            _ => apply(&mut settings.config, alloc, line),
        };
        set.map_err(CaseFault::from)
    }

    // Takes grids that draw the table.
    fn push_grids(&mut self, text: &str) -> Result<(), CaseFault> {
        for name in text.split(' ') {
            self.way.grids.push(Grid::named(name)?)?;
        }
        Ok(())
    }

    /// Whether there are rows and columns.
    pub(crate) fn has_cells(&self) -> bool {
        match self.rows.first() {
            Some(row) => !row.is_empty(),
            None => false,
        }
    }

    /// A copy of the rows, which own their texts.
    pub(crate) fn copied_rows(&self) -> Result<Vec<Vec<String>>, AllocError> {
        let mut rows = Vec::new(self.alloc);
        for row in &self.rows {
            rows.push(owned_row(self.alloc, row)?)?;
        }
        Ok(rows)
    }
}

impl<'a> Case<'a> for TableCase<'a> {
    // Where a way to draw a table ends with the line, the table is drawn.
    fn follow(
        &mut self,
        number: usize,
        line: &'a str,
        report: &mut Report,
    ) -> Result<(), CaseFault> {
        match Line::of(line) {
            Line::Comment => Ok(()),
            Line::Section(section) => {
                self.draw(report);
                let begun = TableCase::new(self.alloc, section, number)?;
                drop(mem::replace(self, begun));
                Ok(())
            }
            _ if self.section.is_empty() => Err(CaseFault::Unknown),
            Line::Way => {
                self.draw(report);
                let way = TableWay::new(self.alloc, number)?;
                drop(mem::replace(&mut self.way, way));
                Ok(())
            }
            Line::Row(row) if self.way.settings.table.is_none() => self.push_row(row),
            Line::Row(_) => Err(CaseFault::Unknown),
            Line::Words(line) => self.push_word(line, report),
        }
    }

    fn finish(&mut self, report: &mut Report) -> Result<(), CaseFault> {
        self.draw(report);
        Ok(())
    }
}
