//! The columns of records, and their rows.

ghost use Rattle.std.specs.Prelude.{◌≡◌, ◌==◌, ℕ, List, ◌∷◌, ◌++◌, [], fold, length, map, string_bytes, true, IfOk, IfSome, OnOk, option_map};
ghost use Rattle.std.specs.Bool.{OnTrue};
ghost use Rattle.std.specs.List.{list_all, list_any};
ghost use Rattle.std.specs.Str.{bytes_eq};
ghost use Rattle.csv.specs.Records.{fields_of};
ghost use Rattle.indexmap.specs.IndexMap.{get_by};
ghost use Rattle.json.specs.Find.{get, get_member};
ghost use Rattle.json.specs.Tree.{HasNumbers, MembersHaveNumbers};
ghost use Rattle.json.specs.Value.{members_view, value_view};
ghost use Rattle.ruled_json.specs.Streamed.{padded};
ghost use Rattle.ruled_json.specs.Rows.{cell_text, has_all, names_in, plain_rules, row_of, rules_of, with_name};

use indexmap::{IndexMap, IndexSet};
use json::{Value, to_vec};
use ruled_row::TextRow;
use std::alloc::{AllocError, Global};

// The most columns for which members are looked up one by one.
const NARROW: usize = 32;

// How many bytes a row reserves for each cell.
const CELL: usize = 12;

// The members of an object, and no members of another value.
#[tactic(auto, using(crate::proofs::Views::members))]
fn members_of<'v, 'a>(value: &'v Value<'a>) -> &'v [(&'a str, Value<'a>)]
    ensures names { map (λ m. m.0.now) result.now ≡ names_in (value_view value.now) }
    ensures members { (name : List ℕ) → get_member name (members_view result.now) ≡ get name (value_view value.now) }
    ensures numbers { HasNumbers (value_view value.now) → MembersHaveNumbers (members_view result.now) }
{
    match value {
        Value::Object(members) => members.as_slice(),
        _ => &[],
    }
}

// The members of an object by name; of those with one name the last.
fn members_by_name<'v, 'a>(
    alloc: Global,
    value: &'v Value<'a>,
) -> Result<IndexMap<&'a str, &'v Value<'a>>, AllocError>
    ensures { IfOk result (λ members. (name : List ℕ) → option_map (λ v. value_view v.now) (get_by (λ known. bytes_eq name known.now) members) ≡ get name (value_view value.now)) }
{
    let list = members_of(value);
    let mut members = IndexMap::with_capacity(alloc, list.len())?;
    for member in list {
        members.insert(member.0, &member.1)?;
    }
    Ok(members)
}

// The member of this name.
fn member_named<'v, 'a>(
    members: &IndexMap<&'a str, &'v Value<'a>>,
    name: &str,
) -> Option<&'v Value<'a>>
    ensures { result ≡ get_by (λ known. bytes_eq name.now known.now) members.now }
{
    members.get(name).copied()
}

// Whether a name is this text.
fn is_text(name: &str, text: &str) -> bool
    ensures { result ≡ bytes_eq name.now text.now }
{
    name == text
}

// Appends the text of a member to a row, this one for null.
fn push_cell(
    alloc: Global,
    row: &mut TextRow,
    null: &str,
    value: Option<&Value<'_>>,
) -> Result<(), AllocError>
    requires numbers { IfSome value (λ v. HasNumbers (value_view v.now)) }
    ensures { OnOk result (fields_of row.new ≡ fields_of row.old ++ cell_text null.now (option_map (λ v. value_view v.now) value.entry) ∷ []) }
{
    match value {
        None => row.push_field(""),
        Some(Value::Null) => row.push_field(null),
        Some(Value::Number(text)) | Some(Value::String(text)) => row.push_field(text),
        Some(value) => {
            let bytes = to_vec(alloc, value)?;
            row.push_field(unsafe { str::from_utf8_unchecked(&bytes) })
        }
    }
}

/// Where the records of JSON are, and how their members are shown.
#[derive(Drop)]
pub struct MemberRules {
    /// The path of the member that has the records; without a name the value itself has them. Lines have none.
    pub path: Vec<String>,
    /// The text for a member that is `null`.
    pub null: String,
    /// Whether members of objects within records have columns of their own, such as `a.b`, in place of these objects.
    pub is_flat: bool,
}

impl MemberRules {
    /// The records of the value itself, with no text for `null`.
    pub fn new(alloc: Global) -> MemberRules
        ensures { rules_of result ≡ plain_rules }
    {
        MemberRules {
            path: Vec::new(alloc),
            null: String::new(alloc),
            is_flat: false,
        }
    }
}

/// The names of columns, in the order in which they were first seen.
#[derive(Drop)]
pub(crate) struct MemberNames {
    names: IndexSet<String>,
}

impl MemberNames {
    /// No column.
    pub(crate) fn new(alloc: Global) -> MemberNames
        ensures { map string_bytes result.names.keys ≡ [] }
    {
        MemberNames {
            names: IndexSet::new(alloc),
        }
    }

    /// Whether there is no column.
    pub(crate) fn is_empty(&self) -> bool
        ensures { result ≡ (length (map string_bytes self.now.names.keys) == 0) }
    {
        self.names.is_empty()
    }

    // Whether there is a column of this name.
    #[tactic(auto, using(crate::proofs::Views::has_named))]
    fn has(&self, name: &str) -> bool
        ensures { result ≡ list_any (bytes_eq name.now) (map string_bytes self.now.names.keys) }
    {
        self.names.contains(name)
    }

    // Whether there is a column of this name; looks at this place first.
    #[tactic(auto, using(crate::proofs::StreamedLines::on_true))]
    fn has_at(&self, at: usize, name: &str) -> bool
        ensures { result ≡ list_any (bytes_eq name.now) (map string_bytes self.now.names.keys) }
    {
        if self.stands_at(at, name) {
            return true;
        }
        self.has(name)
    }

    // Whether each of these members has a column.
    fn has_each(&self, members: &[(&str, Value<'_>)]) -> bool
        ensures { result ≡ list_all (λ member. list_any (bytes_eq member.0.now) (map string_bytes self.now.names.keys)) members.now }
    {
        for (at, member) in members.iter().enumerate() {
            if !self.has_at(at, member.0) {
                return false;
            }
        }
        true
    }

    /// Whether each member of a record has a column.
    #[tactic(auto, using(crate::proofs::Tables::names_of_members))]
    pub(crate) fn has_all(&self, value: &Value<'_>) -> bool
        ensures { result ≡ has_all (map string_bytes self.now.names.keys) (value_view value.now) }
    {
        self.has_each(members_of(value))
    }

    // Adds a column of this name, unless there is one.
    #[tactic(auto, using(crate::proofs::Views::added_as, crate::proofs::Views::kept))]
    fn add(&mut self, alloc: Global, name: &str) -> Result<(), AllocError>
        ensures { OnOk result (map string_bytes self.new.names.keys ≡ with_name (map string_bytes self.old.names.keys) name.now) }
    {
        if !self.names.contains(name) {
            let text = String::from_str(alloc, name)?;
            self.names.insert(text)?;
        }
        Ok(())
    }

    // Whether the column at this place has this name.
    #[tactic(auto, using(crate::proofs::Views::column_at))]
    fn stands_at(&self, at: usize, name: &str) -> bool
        ensures { OnTrue result (list_any (bytes_eq name.now) (map string_bytes self.now.names.keys) ≡ true) }
    {
        let names = self.names.as_slice();
        if at >= names.len() {
            return false;
        }
        is_text(name, names[at].as_str())
    }

    // Adds a column of this name, unless there is one; looks at this place first.
    #[tactic(auto, using(crate::proofs::Views::no_new_name, crate::proofs::StreamedLines::on_true))]
    fn add_at(&mut self, alloc: Global, at: usize, name: &str) -> Result<(), AllocError>
        ensures { OnOk result (map string_bytes self.new.names.keys ≡ with_name (map string_bytes self.old.names.keys) name.now) }
    {
        if self.stands_at(at, name) {
            return Ok(());
        }
        self.add(alloc, name)
    }

    /// Adds the columns of a record that aren't there yet.
    pub(crate) fn add_record(&mut self, alloc: Global, value: &Value<'_>) -> Result<(), AllocError>
        ensures { OnOk result (map string_bytes self.new.names.keys ≡ fold with_name (map string_bytes self.old.names.keys) (names_in (value_view value.now))) }
    {
        let members = members_of(value);
        for (at, member) in members.iter().enumerate() {
            self.add_at(alloc, at, member.0)?;
        }
        Ok(())
    }

    /// The header.
    #[tactic(auto, using(crate::proofs::Tables::made_next))]
    pub(crate) fn header(&self, alloc: Global) -> Result<TextRow, AllocError>
        ensures { IfOk result (λ row. fields_of row ≡ map string_bytes self.now.names.keys) }
    {
        let mut row = TextRow::new(alloc);
        for name in self.names.as_slice() {
            row.push_field(name.as_str())?;
        }
        Ok(row)
    }

    // A row of no cells, with room for some.
    fn empty_row(&self, alloc: Global) -> Result<TextRow, AllocError>
        ensures { IfOk result (λ row. fields_of row ≡ []) }
    {
        let count = self.names.len();
        TextRow::with_capacity(alloc, count.saturating_mul(CELL))
    }

    // The row of a record whose members are the columns, in their order, as in most lines: no member is searched.
    fn ordered_row(
        &self,
        alloc: Global,
        null: &str,
        value: &Value<'_>,
    ) -> Result<Option<TextRow>, AllocError>
        requires numbers { HasNumbers (value_view value.now) }
        ensures names { IfOk result (λ found. IfSome found (λ _. names_in (value_view value.now) ≡ map string_bytes self.now.names.keys)) }
        ensures row { IfOk result (λ found. IfSome found (λ row. fields_of row ≡ row_of null.now (map string_bytes self.now.names.keys) (value_view value.now))) }
    {
        let (names, members) = (self.names.as_slice(), members_of(value));
        if members.len() != names.len() {
            return Ok(None);
        }
        let mut row = self.empty_row(alloc)?;
        for (at, member) in members.iter().enumerate() {
            if !is_text(member.0, names[at].as_str()) {
                return Ok(None);
            }
            push_cell(alloc, &mut row, null, Some(&member.1))?;
        }
        Ok(Some(row))
    }

    // The row of a record of few columns.
    fn narrow_row(
        &self,
        alloc: Global,
        null: &str,
        value: &Value<'_>,
    ) -> Result<TextRow, AllocError>
        requires numbers { HasNumbers (value_view value.now) }
        ensures { IfOk result (λ row. fields_of row ≡ row_of null.now (map string_bytes self.now.names.keys) (value_view value.now)) }
    {
        let mut row = self.empty_row(alloc)?;
        for name in self.names.as_slice() {
            push_cell(alloc, &mut row, null, value.get(name.as_str()))?;
        }
        Ok(row)
    }

    // The row of a record of many columns.
    fn wide_row(&self, alloc: Global, null: &str, value: &Value<'_>) -> Result<TextRow, AllocError>
        requires numbers { HasNumbers (value_view value.now) }
        ensures { IfOk result (λ row. fields_of row ≡ row_of null.now (map string_bytes self.now.names.keys) (value_view value.now)) }
    {
        let members = members_by_name(alloc, value)?;
        let mut row = self.empty_row(alloc)?;
        for name in self.names.as_slice() {
            push_cell(alloc, &mut row, null, member_named(&members, name.as_str()))?;
        }
        Ok(row)
    }

    /// The row of a record, with this text for null.
    pub(crate) fn row(
        &self,
        alloc: Global,
        null: &str,
        value: &Value<'_>,
    ) -> Result<TextRow, AllocError>
        requires numbers { HasNumbers (value_view value.now) }
        ensures { IfOk result (λ row. fields_of row ≡ row_of null.now (map string_bytes self.now.names.keys) (value_view value.now)) }
    {
        if let Some(row) = self.ordered_row(alloc, null, value)? {
            return Ok(row);
        }
        if self.names.len() <= NARROW {
            self.narrow_row(alloc, null, value)
        } else {
            self.wide_row(alloc, null, value)
        }
    }

    /// Adds the columns of a record that aren't there yet, and returns its row, with this text for null.
    #[tactic(auto, using(crate::proofs::Tables::own_columns))]
    pub(crate) fn add_row(
        &mut self,
        alloc: Global,
        null: &str,
        value: &Value<'_>,
    ) -> Result<TextRow, AllocError>
        requires numbers { HasNumbers (value_view value.now) }
        ensures columns { OnOk result (map string_bytes self.new.names.keys ≡ fold with_name (map string_bytes self.old.names.keys) (names_in (value_view value.now))) }
        ensures row { IfOk result (λ row. fields_of row ≡ row_of null.now (map string_bytes self.new.names.keys) (value_view value.now)) }
    {
        if let Some(row) = self.ordered_row(alloc, null, value)? {
            return Ok(row);
        }
        self.add_record(alloc, value)?;
        self.row(alloc, null, value)
    }

    /// The row, with empty cells in the columns after its own.
    #[tactic(auto, using(crate::proofs::Tables::names_of_members))]
    pub(crate) fn padded(&self, row: TextRow) -> Result<TextRow, AllocError>
        ensures { IfOk result (λ padded_row. fields_of padded_row ≡ padded (length (map string_bytes self.now.names.keys)) (fields_of row)) }
    {
        let mut row = row;
        for _count in row.len()..self.names.len() {
            row.push_field("")?;
        }
        Ok(row)
    }
}
