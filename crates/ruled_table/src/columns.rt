//! The shown columns.

ghost use Rattle.std.specs.Prelude.{◌≡◌, ◌++◌, ◌-◌, ◌∷◌, ◌==◌, ℕ, [], None, Some, length, map, nat_eq, not, ◌||◌, option_map, slice_index_or, IfOk, OnOk};
ghost use Rattle.std.specs.HashSet.{contains};
ghost use Rattle.std.specs.List.{ends_with, filter, list_any, range_with_len, starts_with};
ghost use Rattle.std.specs.Option.{option_map_or, option_or};
ghost use Rattle.std.specs.Str.{bytes_eq};
ghost use Rattle.csv.specs.Records.{fields_of};
ghost use Rattle.ruled_table.specs.Columns as spec;
ghost use Rattle.ruled_table.specs.Tables.{Tells};
ghost use Rattle.ruled_table.specs.declared.view.ViewFault.TheVariants.{Column};

use crate::view::ViewFault;
use pg_table::numbers::are_digits;
use ruled_row::TextRow;
use std::alloc::{AllocError, Global};
use std::collections::{HashMap, HashSet};

/// What is set for a column: one value alone is for all.
pub(crate) fn told_of<T: Copy>(words: &[Option<T>], column: usize) -> Option<T>
    ensures { result ≡ spec.told_of words.now column }
{
    match words {
        [word] => *word,
        _ => words.get(column).copied().unwrap_or(None),
    }
}

/// A field of a row, or an empty text if there is none.
#[tactic(auto, using(crate::proofs::LentTexts::fields_found))]
pub fn field_at(fields: &TextRow, place: usize) -> &str
    ensures { result.now ≡ slice_index_or (fields_of fields.now) place [] }
{
    match fields.get(place) {
        Some(field) => field,
        None => "",
    }
}

/// The text of a row in a column: its field at the column's place, or an empty text if there is
/// none. The column that stands for columns left out has no place, and the text `…`.
pub(crate) fn drawn_at(fields: &TextRow, place: Option<usize>) -> &str
    ensures { result.now ≡ spec.drawn_at (fields_of fields.now) place }
{
    match place {
        Some(place) => field_at(fields, place),
        None => "…",
    }
}

// The first column of each name.
fn first_columns(alloc: Global, header: &TextRow) -> Result<HashMap<&str, usize>, AllocError>
    ensures { IfOk result (spec.HasFirst (fields_of header.now)) }
{
    let mut first = HashMap::with_capacity(alloc, header.len())?;
    for place in (0..header.len()).rev() {
        first.insert(field_at(header, place), place)?;
    }
    Ok(first)
}

// The first column of this name.
fn column_of(header: &TextRow, first: &HashMap<&str, usize>, name: &str) -> Option<usize>
    requires { spec.HasFirst (fields_of header.now) first.now }
    ensures { result ≡ spec.column_of (fields_of header.now) name.now }
{
    first.get(name).copied()
}

// The number that digits write, or 0 if a word isn't digits.
#[tactic(auto, using(crate::proofs::WordsOfColumns::numbers_lost))]
fn number_in(word: &str) -> usize
    ensures { result ≡ spec.number_in word.now }
{
    if !are_digits(word.as_bytes()) {
        return 0;
    }
    match word.parse::<usize>() {
        Ok(number) => number,
        Err(_) => 0,
    }
}

// The columns from one place to the one before another.
fn columns_between(alloc: Global, first: usize, end: usize) -> Result<Vec<usize>, AllocError>
    ensures { IfOk result (λ columns. columns.items ≡ range_with_len first (end - first)) }
{
    let mut columns = Vec::new(alloc);
    for column in first..end {
        columns.push(column)?;
    }
    Ok(columns)
}

// Of so many columns those from one number to another, if there are these.
fn numbered(
    alloc: Global,
    columns: usize,
    first: usize,
    last: usize,
) -> Result<Vec<usize>, AllocError>
    ensures { IfOk result (λ places. places.items ≡ spec.numbered columns first last) }
{
    if 0 < first && first <= last && last <= columns {
        return columns_between(alloc, first - 1, last);
    }
    Ok(Vec::new(alloc))
}

// Those of a number, or of two with a dash between them.
fn numbered_columns(alloc: Global, columns: usize, word: &str) -> Result<Vec<usize>, AllocError>
    ensures { IfOk result (λ places. places.items ≡ spec.numbered_columns columns word.now) }
{
    match word.split_once('-') {
        Some((first, last)) => numbered(alloc, columns, number_in(first), number_in(last)),
        None => numbered(alloc, columns, number_in(word), number_in(word)),
    }
}

// The text between two slashes.
fn pattern_of(word: &str) -> Option<&str>
    ensures { option_map (λ it. it.now) result ≡ spec.pattern_of word.now }
{
    match word.strip_prefix('/') {
        Some(rest) => rest.strip_suffix('/'),
        None => None,
    }
}

// Whether a name begins with a text, or, if there is a `$` at the end of that, is the text before it.
fn begins_with(text: &str, name: &str) -> bool
    ensures { result ≡ option_map_or (bytes_eq name.now) (spec.before 36 text.now) (starts_with nat_eq name.now text.now) }
{
    match text.strip_suffix('$') {
        Some(whole) => name == whole,
        None => name.starts_with(text),
    }
}

// Whether a name contains a text, or, if there is a `$` at the end of that, ends with the text before it.
fn has_text(text: &str, name: &str) -> bool
    ensures { result ≡ option_map_or (ends_with nat_eq name.now) (spec.before 36 text.now) (spec.has_part text.now name.now) }
{
    match text.strip_suffix('$') {
        Some(end) => name.ends_with(end),
        None => name.contains(text),
    }
}

// Whether a name fits a pattern.
fn fits(pattern: &str, name: &str) -> bool
    ensures { result ≡ spec.fits pattern.now name.now }
{
    match pattern.strip_prefix('^') {
        Some(text) => begins_with(text, name),
        None => has_text(pattern, name),
    }
}

// The columns whose names fit a pattern.
fn fitting(alloc: Global, header: &TextRow, pattern: &str) -> Result<Vec<usize>, AllocError>
    ensures { IfOk result (λ places. places.items ≡ spec.fitting (fields_of header.now) pattern.now) }
{
    (0..header.len())
        .filter(|column| fits(pattern, field_at(header, *column)))
        .collect(alloc)
}

// The columns of a word without one of its name: those that fit its pattern, or those of its numbers.
fn unnamed_columns(alloc: Global, header: &TextRow, word: &str) -> Result<Vec<usize>, AllocError>
    ensures { IfOk result (λ places. places.items ≡ spec.unnamed_columns (fields_of header.now) word.now) }
{
    match pattern_of(word) {
        Some(pattern) => fitting(alloc, header, pattern),
        None => numbered_columns(alloc, header.len(), word),
    }
}

// The columns of a word: the first one of this name, or else those that it describes.
fn columns_of(
    alloc: Global,
    header: &TextRow,
    first: &HashMap<&str, usize>,
    word: &str,
) -> Result<Vec<usize>, AllocError>
    requires { spec.HasFirst (fields_of header.now) first.now }
    ensures { IfOk result (λ places. places.items ≡ spec.columns_of (fields_of header.now) word.now) }
{
    match column_of(header, first, word) {
        Some(place) => Ok(vec![in alloc; place]?),
        None => unnamed_columns(alloc, header, word),
    }
}

/// The first column of those that a word means, if it means any.
pub(crate) fn first_meant(
    alloc: Global,
    header: &TextRow,
    word: &str,
) -> Result<Option<usize>, AllocError>
    ensures { IfOk result (λ column. column ≡ spec.first_meant (fields_of header.now) word.now) }
{
    let first = first_columns(alloc, header)?;
    let columns = columns_of(alloc, header, &first, word)?;
    Ok(columns.first().copied())
}

// The word after a `!`, if it leaves columns out.
fn excluded<'a>(header: &TextRow, first: &HashMap<&str, usize>, word: &'a str) -> Option<&'a str>
    requires { spec.HasFirst (fields_of header.now) first.now }
    ensures { option_map (λ it. it.now) result ≡ spec.excluded (fields_of header.now) word.now }
{
    if column_of(header, first, word).is_some() {
        return None;
    }
    word.strip_prefix('!')
}

/// The columns that words ask for, in their order, and those that they leave out.
#[derive(Drop)]
struct Choice {
    asked: Vec<usize>,
    left_out: HashSet<usize>,
}

// Leaves these columns out.
fn leave_out(columns: &[usize], left_out: &mut HashSet<usize>) -> Result<(), AllocError>
    ensures { OnOk result ((column : ℕ) → contains nat_eq left_out.new column ≡ (contains nat_eq left_out.old column || list_any (λ other. other == column) columns.now)) }
{
    for column in columns {
        left_out.insert(*column)?;
    }
    Ok(())
}

// Those of these columns that aren't left out.
fn staying(
    alloc: Global,
    columns: &[usize],
    left_out: &HashSet<usize>,
) -> Result<Vec<Option<usize>>, AllocError>
    ensures { IfOk result (λ places. places.items ≡ map Some (filter (λ column. not (contains nat_eq left_out.now column)) columns.now)) }
{
    let mut places = Vec::new(alloc);
    for column in columns {
        if !left_out.contains(column) {
            places.push(Some(*column))?;
        }
    }
    Ok(places)
}

impl Choice {
    // Adds the columns of a word, and says whether it has any.
    fn add(
        &mut self,
        alloc: Global,
        header: &TextRow,
        first: &HashMap<&str, usize>,
        word: &str,
    ) -> Result<bool, AllocError>
        requires { spec.HasFirst (fields_of header.now) first.now }
        ensures asked { OnOk result (self.new.asked.items ≡ self.old.asked.items ++ spec.asked_by (fields_of header.now) word.now) }
        ensures left_out { OnOk result ((column : ℕ) → contains nat_eq self.new.left_out column
            ≡ (contains nat_eq self.old.left_out column || list_any (λ other. other == column) (spec.left_out_by (fields_of header.now) word.now))) }
        ensures some { IfOk result (λ some. some ≡ not (length (spec.meant (fields_of header.now) word.now) == 0)) }
    {
        match excluded(header, first, word) {
            Some(word) => {
                let columns = columns_of(alloc, header, first, word)?;
                leave_out(columns.as_slice(), &mut self.left_out)?;
                Ok(!columns.is_empty())
            }
            None => {
                let columns = columns_of(alloc, header, first, word)?;
                self.asked.extend_from_slice(columns.as_slice())?;
                Ok(!columns.is_empty())
            }
        }
    }

    // Those of so many columns that are shown.
    fn shown(&self, alloc: Global, columns: usize) -> Result<Vec<Option<usize>>, AllocError>
        ensures { IfOk result (λ places. places.items ≡ map Some (filter (λ column. not (contains nat_eq self.now.left_out column)) (spec.asked_or_all columns self.now.asked.items))) }
    {
        if !self.asked.is_empty() {
            return staying(alloc, self.asked.as_slice(), &self.left_out);
        }
        let all = columns_between(alloc, 0, columns)?;
        staying(alloc, all.as_slice(), &self.left_out)
    }
}

// What words ask for and leave out, or the first word without a column.
fn choice_in(
    alloc: Global,
    words: &[String],
    header: &TextRow,
    first: &HashMap<&str, usize>,
) -> Result<Choice, ViewFault>
    requires { spec.HasFirst (fields_of header.now) first.now }
    ensures asked { IfOk result (λ choice. choice.asked.items ≡ spec.asked words.now (fields_of header.now)) }
    ensures left_out { IfOk result (λ choice. (column : ℕ) → contains nat_eq choice.left_out column ≡ spec.is_left_out words.now (fields_of header.now) column) }
    ensures found { OnOk result (spec.missing_word words.now (fields_of header.now) ≡ None) }
    ensures fault { Tells (option_map Column (spec.missing_word words.now (fields_of header.now))) result }
{
    let mut choice = Choice {
        asked: Vec::new(alloc),
        left_out: HashSet::new(alloc),
    };
    for (at, word) in words.iter().enumerate() {
        if !choice.add(alloc, header, first, word.as_str())? {
            return Err(ViewFault::Column(at));
        }
    }
    Ok(choice)
}

// So many columns.
fn all_columns(alloc: Global, count: usize) -> Result<Vec<Option<usize>>, AllocError>
    ensures { IfOk result (λ places. places.items ≡ map Some (range_with_len 0 count)) }
{
    (0..count).map(Some).collect(alloc)
}

// The columns that are shown of rows with this header, or the first word without a column.
fn columns_in(
    alloc: Global,
    words: &[String],
    header: &TextRow,
) -> Result<Vec<Option<usize>>, ViewFault>
    ensures places { IfOk result (λ places. places.items ≡ map Some (spec.columns_in words.now (fields_of header.now))) }
    ensures found { OnOk result (spec.missing_word words.now (fields_of header.now) ≡ None) }
    ensures fault { Tells (option_map Column (spec.missing_word words.now (fields_of header.now))) result }
{
    if words.is_empty() {
        return Ok(all_columns(alloc, header.len())?);
    }
    let first = first_columns(alloc, header)?;
    let choice = choice_in(alloc, words, header, &first)?;
    Ok(choice.shown(alloc, header.len())?)
}

// The columns that are shown of rows with this header, or the word that is wrong.
fn places_in(
    alloc: Global,
    words: &[String],
    header: &TextRow,
) -> Result<Vec<Option<usize>>, ViewFault>
    ensures places { IfOk result (λ places. places.items ≡ map Some (spec.columns_in words.now (fields_of header.now))) }
    ensures fault { Tells (option_map Column (option_or (spec.missing_word words.now (fields_of header.now)) (spec.last_word words.now (fields_of header.now)))) result }
{
    let places = columns_in(alloc, words, header)?;
    if places.is_empty() && !words.is_empty() {
        return Err(ViewFault::Column(words.len() - 1));
    }
    Ok(places)
}

/// The places of the shown columns, or the word that is wrong: the first one that means no column, or the last one if
/// columns are left out and none stays.
pub fn places_of(
    alloc: Global,
    words: &[String],
    rows: &[TextRow],
) -> Result<Vec<Option<usize>>, ViewFault>
    ensures places { IfOk result (λ places. places.items ≡ spec.places_of words.now (map fields_of rows.now)) }
    ensures fault { Tells (spec.column_fault words.now (map fields_of rows.now)) result }
{
    match rows {
        [] => Ok(Vec::new(alloc)),
        [header, ..] => places_in(alloc, words, header),
    }
}
