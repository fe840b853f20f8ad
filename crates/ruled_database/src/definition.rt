//! The columns that a statement `create table` declares.

ghost use Rattle.std.specs.Prelude.{◌≡◌, true, [], ◌++◌, ℕ, List, map, option_map, IfOk, OnOk};
ghost use Rattle.sqlite_value.specs.Value.{owned};
ghost use Rattle.ruled_database.specs.Definitions as spec;

use crate::token::{Form, Token, read};
use sqlite_format::Tree;
use sqlite_items::Items;
use sqlite_sql::numeral::{is_numeral, number_at_front, real_at_front};
use sqlite_value::row::Row;
use sqlite_value::value::ValueRef;
use std::alloc::{AllocError, Global};

/// Which values a column shows.
#[derive(Clone, Copy)]
pub(crate) enum Shown {
    /// The values of records.
    Values,
    /// The values of records, with integers as floats without a fraction.
    Reals,
    /// The rowids.
    Rowids,
}

/// A column of a table.
#[derive(Drop)]
pub(crate) struct Column {
    pub(crate) name: Items<u8>,
    pub(crate) shown: Shown,
    /// Which value of a record is the column's.
    pub(crate) place: usize,
}

/// What a table has.
#[derive(Drop)]
pub(crate) struct Definition {
    /// Whether ANY is a type of its own.
    strict: bool,
    pub(crate) columns: Items<Column>,
    /// The values of a record that lacks them, since it is older than their columns.
    pub(crate) defaults: Row,
    /// How many values a record has at least: those of a key in whose order the rows are, and those up to the last one whose
    /// default isn't understood.
    pub(crate) least: usize,
    /// Whether a column has values that are computed when it is read.
    pub(crate) computed: bool,
    /// Whether its rows are in the order of rowids, or in that of a key without them.
    pub(crate) tree: Tree,
    /// Whether the columns of that key are known.
    pub(crate) known: bool,
    /// The text that is shown for NULL.
    pub(crate) null: Items<u8>,
}

/// What the type of a column says of its values.
#[derive(Clone, Copy)]
struct Kind {
    /// Integers are floats without a fraction.
    real: bool,
    /// Texts that are numbers stay texts.
    keeps_texts: bool,
    /// It is INTEGER, so that a key is the rowid.
    integer: bool,
}

/// The words that may follow a column's type.
const RULES: [&[u8]; 11] = [
    b"constraint",
    b"primary",
    b"not",
    b"null",
    b"unique",
    b"check",
    b"default",
    b"collate",
    b"references",
    b"generated",
    b"as",
];

/// The words that begin a rule of the whole table.
const TABLE_RULES: [&[u8]; 5] = [b"constraint", b"primary", b"unique", b"check", b"foreign"];

// Whether a token of a part is this word, outside of inner parentheses.
fn is(token: &Token, word: &[u8]) -> bool
    ensures { result ≡ spec.is word.now token.now }
{
    token.depth == 1 && token.says(word)
}

// Whether a token is one of these words.
fn is_any(token: &Token, mut words: &[&[u8]]) -> bool
    ensures { result ≡ spec.is_any (map (λ word. word.now) words.entry.now) token.now }
{
    while let [word, rest @ ..] = words {
        if is(token, word) {
            return true;
        }
        words = rest;
    }
    false
}

// The tokens behind a word.
fn after<'t>(mut tokens: &'t [Token], word: &[u8]) -> Option<&'t [Token]>
    ensures { option_map (λ rest. rest.now) result ≡ spec.after word.now tokens.entry.now }
{
    while let [first, rest @ ..] = tokens {
        if is(first, word) {
            return Some(rest);
        }
        tokens = rest;
    }
    None
}

// The texts of the tokens of a type, each with a blank behind it.
fn type_of(alloc: Global, mut tokens: &[Token]) -> Result<Vec<u8>, AllocError>
    ensures { IfOk result (λ text. text.items ≡ spec.type_of tokens.entry.now) }
{
    let mut text = Vec::new(alloc);
    while let [first, rest @ ..] = tokens {
        if is_any(first, &RULES) {
            return Ok(text);
        }
        text.extend_from_slice(first.text.as_slice())?;
        text.push(b' ')?;
        tokens = rest;
    }
    Ok(text)
}

// Whether a text begins with this part, in any case.
fn begins_with(text: &[u8], part: &[u8]) -> bool
    ensures { result ≡ spec.begins_with part.now text.now }
{
    part.len() <= text.len() && text[..part.len()].eq_ignore_ascii_case(part)
}

// Whether a text has this part, in any case.
fn has_part(mut text: &[u8], part: &[u8]) -> bool
    ensures { result ≡ spec.has_part part.now text.entry.now }
{
    while let [_, rest @ ..] = text {
        if begins_with(text, part) {
            return true;
        }
        text = rest;
    }
    false
}

#[tactic(auto, unfolding(crate::specs::Definitions::names_text))]
// Whether a type is one of texts.
fn names_text(text: &[u8]) -> bool
    ensures { result ≡ spec.names_text text.now }
{
    has_part(text, b"char") || has_part(text, b"clob") || has_part(text, b"text")
}

#[tactic(auto, unfolding(crate::specs::Definitions::names_blob))]
// Whether a type is one of bytes, or there is none.
fn names_blob(text: &[u8]) -> bool
    ensures { result ≡ spec.names_blob text.now }
{
    text.is_empty() || has_part(text, b"blob")
}

#[tactic(auto, unfolding(crate::specs::Definitions::names_real))]
// Whether a type is one of floats.
fn names_real(text: &[u8]) -> bool
    ensures { result ≡ spec.names_real text.now }
{
    has_part(text, b"real") || has_part(text, b"floa") || has_part(text, b"doub")
}

#[tactic(auto, unfolding(crate::specs::Definitions::names_any))]
// Whether a type is ANY, in a table where that is a type of its own.
fn names_any(strict: bool, text: &[u8]) -> bool
    ensures { result ≡ spec.names_any strict text.now }
{
    strict && text.eq_ignore_ascii_case(b"any ")
}

#[tactic(auto, unfolding(crate::specs::Definitions::kind_of))]
// What a type says.
fn kind_of(strict: bool, text: &[u8]) -> Kind
    ensures { result ≡ spec.kind_of strict text.now }
{
    let is_integer = has_part(text, b"int");
    let keeps_texts = !is_integer
        && (names_text(text) || names_blob(text) || names_any(strict, text));
    Kind {
        real: !is_integer && !keeps_texts && names_real(text),
        keeps_texts,
        integer: text.eq_ignore_ascii_case(b"integer "),
    }
}

#[tactic(auto, unfolding(crate::specs::Definitions::number_of))]
// The value of a number in a column of this type.
fn number_of<'t>(kind: Kind, text: &[u8]) -> Option<ValueRef<'t>>
    ensures { option_map owned result ≡ spec.number_of kind text.now }
{
    if !is_numeral(text) {
        return None;
    }
    if kind.real {
        return Some(ValueRef::Real(real_at_front(text)));
    }
    match number_at_front(text) {
        ValueRef::Int(n) => Some(ValueRef::Int(n)),
        _ => None,
    }
}

#[tactic(auto, unfolding(crate::specs::Definitions::word_value))]
// The value of a word.
fn word_value<'t>(kind: Kind, token: &Token) -> Option<ValueRef<'t>>
    ensures { option_map owned result ≡ spec.word_value kind token.now }
{
    if token.says(b"null") {
        Some(ValueRef::Null)
    } else if token.says(b"true") {
        Some(ValueRef::Int(1))
    } else if token.says(b"false") {
        Some(ValueRef::Int(0))
    } else {
        number_of(kind, token.text.as_slice())
    }
}

#[tactic(auto, unfolding(crate::specs::Definitions::literal_value))]
// The value of a literal.
fn literal_value(kind: Kind, token: &Token) -> Option<ValueRef<'_>>
    ensures { option_map owned result ≡ spec.literal_value kind token.now }
{
    let text = token.text.as_slice();
    match token.form {
        Form::Word => word_value(kind, token),
        Form::Quoted if kind.keeps_texts || !is_numeral(text) => Some(ValueRef::Text(text)),
        Form::Quoted => number_of(kind, text),
        Form::Sign => None,
    }
}

// Whether a literal ends before these tokens.
fn ends(tokens: &[Token]) -> bool
    ensures { result ≡ spec.ends tokens.now }
{
    match tokens {
        [next, ..] => matches!(next.form, Form::Word) || next.is_sign(b')'),
        [] => true,
    }
}

#[tactic(auto, unfolding(crate::specs::Definitions::negative_value))]
// The value of the number that these tokens begin with, behind a minus.
fn negative_value<'t>(
    alloc: Global,
    kind: Kind,
    tokens: &[Token],
) -> Result<Option<ValueRef<'t>>, AllocError>
    ensures { IfOk result (λ value. option_map owned value ≡ spec.negative_value kind tokens.now) }
{
    let [first, rest @ ..] = tokens else {
        return Ok(None);
    };
    if !matches!(first.form, Form::Word) || !ends(rest) {
        return Ok(None);
    }
    let mut text = Vec::new(alloc);
    text.push(b'-')?;
    text.extend_from_slice(first.text.as_slice())?;
    Ok(number_of(kind, &text))
}

// The value of the literal that these tokens begin with, which may be in parentheses.
fn value_of<'t>(
    alloc: Global,
    kind: Kind,
    mut tokens: &'t [Token],
) -> Result<Option<ValueRef<'t>>, AllocError>
    ensures { IfOk result (λ value. option_map owned value ≡ spec.value_of kind tokens.entry.now) }
{
    while let [first, rest @ ..] = tokens {
        if first.is_sign(b'-') {
            return negative_value(alloc, kind, rest);
        }
        if !first.is_sign(b'(') && !first.is_sign(b'+') {
            let value = literal_value(kind, first);
            return Ok(if ends(rest) { value } else { None });
        }
        tokens = rest;
    }
    Ok(None)
}

#[tactic(auto, unfolding(crate::specs::Definitions::default_of))]
// The value of a column where a record is older, if it is understood.
fn default_of<'t>(
    alloc: Global,
    kind: Kind,
    rules: &'t [Token],
) -> Result<Option<ValueRef<'t>>, AllocError>
    ensures { IfOk result (λ value. option_map owned value ≡ spec.default_of kind rules.now) }
{
    match after(rules, b"default") {
        Some(tokens) => value_of(alloc, kind, tokens),
        None => Ok(Some(ValueRef::Null)),
    }
}

// Whether a part declares no column.
fn is_rule(part: &[Token]) -> bool
    ensures { result ≡ spec.is_rule part.now }
{
    match part {
        [first, ..] => is_any(first, &TABLE_RULES),
        [] => true,
    }
}

// Appends the names in the parentheses that these tokens are in: one at the beginning, and one behind each comma.
fn push_names<'t>(mut tokens: &'t [Token], names: &mut Vec<&'t [u8]>) -> Result<(), AllocError>
    ensures { OnOk result (map (λ name. name.now) names.new.items ≡ map (λ name. name.now) names.old.items ++ spec.names_from true tokens.entry.now) }
{
    let mut is_first = true;
    while let [token, rest @ ..] = tokens {
        if token.depth == 1 {
            return Ok(());
        }
        if is_first && !matches!(token.form, Form::Sign) {
            names.push(token.text.as_slice())?;
            is_first = false;
        } else {
            is_first = is_first || (token.depth == 2 && token.is_sign(b','));
        }
        tokens = rest;
    }
    Ok(())
}

// Appends the columns that a part makes the key: those that a rule of the table lists, or the one that it declares.
#[tactic(auto, unfolding(crate::specs::Definitions::key_in))]
fn push_key<'t>(part: &'t [Token], names: &mut Vec<&'t [u8]>) -> Result<(), AllocError>
    ensures { OnOk result (map (λ name. name.now) names.new.items ≡ map (λ name. name.now) names.old.items ++ spec.key_in part.now) }
{
    match (after(part, b"primary"), part) {
        (Some([_, _, listed @ ..]), _) if is_rule(part) => push_names(listed, names),
        (Some(_), [column, ..]) if !is_rule(part) => {
            names.push(column.text.as_slice())?;
            Ok(())
        }
        _ => Ok(()),
    }
}

// The columns of the key.
fn key_of(alloc: Global, mut parts: &[Items<Token>]) -> Result<Vec<&[u8]>, AllocError>
    ensures { IfOk result (λ names. map (λ name. name.now) names.items ≡ spec.key_of parts.entry.now) }
{
    let mut names = Vec::new(alloc);
    while let [part, rest @ ..] = parts {
        push_key(part.as_slice(), &mut names)?;
        parts = rest;
    }
    Ok(names)
}

// The place of a name among others, in any case.
fn place_in(mut names: &[&[u8]], name: &[u8]) -> Option<usize>
    ensures { result ≡ spec.place_from 0 (map (λ it. it.now) names.entry.now) name.now }
{
    let mut place = 0;
    while let [first, rest @ ..] = names {
        if first.eq_ignore_ascii_case(name) {
            return Some(place);
        }
        place += 1;
        names = rest;
    }
    None
}

// Each of these names once.
fn distinct<'t>(alloc: Global, mut names: &[&'t [u8]]) -> Result<Vec<&'t [u8]>, AllocError>
    ensures { IfOk result (λ it. map (λ name. name.now) it.items ≡ spec.distinct [] (map (λ name. name.now) names.entry.now)) }
{
    let mut found = Vec::new(alloc);
    while let [name, rest @ ..] = names {
        if place_in(&found, name).is_none() {
            found.push(*name)?;
        }
        names = rest;
    }
    Ok(found)
}

#[tactic(auto, unfolding(crate::specs::Definitions::is_descending_key))]
// Whether a column's own rule makes it a key in descending order.
fn is_descending_key(rules: &[Token]) -> bool
    ensures { result ≡ spec.is_descending_key rules.now }
{
    match after(rules, b"primary") {
        Some([_, order, ..]) => is(order, b"desc"),
        _ => false,
    }
}

// Whether a column is the rowid, if these are the columns of the key.
fn is_rowid(kind: Kind, key: &[&[u8]], name: &[u8], rules: &[Token]) -> bool
    ensures { result ≡ spec.is_rowid kind (map (λ it. it.now) key.now) name.now rules.now }
{
    kind.integer && key.len() == 1 && place_in(key, name).is_some() && !is_descending_key(rules)
}

fn shown_of(kind: Kind, is_rowid: bool) -> Shown
    ensures { result ≡ spec.shown_of kind is_rowid }
{
    if is_rowid {
        Shown::Rowids
    } else if kind.real {
        Shown::Reals
    } else {
        Shown::Values
    }
}

#[tactic(auto, unfolding(crate::specs::Definitions::is_computed))]
// Whether a column's values are computed when it is read.
fn is_computed(rules: &[Token]) -> bool
    ensures { result ≡ spec.is_computed rules.now }
{
    match after(rules, b"as") {
        Some(rest) => after(rest, b"stored").is_none(),
        None => false,
    }
}

impl Definition {
    // A table without columns as yet, whose records begin with these.
    fn begun(
        alloc: Global,
        strict: bool,
        tree: Tree,
        mut first: &[&[u8]],
    ) -> Result<Definition, AllocError>
        ensures { IfOk result (λ it. it ≡ spec.begun strict tree (map (λ name. name.now) first.entry.now)) }
    {
        let least = first.len();
        let mut defaults = Row::new(alloc);
        while let [_, rest @ ..] = first {
            defaults.push(ValueRef::Null)?;
            first = rest;
        }
        Ok(Definition {
            strict,
            columns: Items::new(alloc),
            defaults,
            least,
            computed: false,
            tree,
            known: true,
            null: Items::new(alloc),
        })
    }

    // Adds a column at this place of records.
    fn push_column(
        &mut self,
        alloc: Global,
        name: &[u8],
        shown: Shown,
        place: usize,
    ) -> Result<(), AllocError>
        ensures { OnOk result (self.new ≡ spec.with_column name.now shown place self.old) }
    {
        let name = Items::from_slice(alloc, name)?;
        self.columns.push(Column { name, shown, place })
    }

    // Adds the default of a column.
    fn push_default(&mut self, value: Option<ValueRef<'_>>) -> Result<(), AllocError>
        ensures { OnOk result (self.new ≡ spec.with_default (option_map owned value.entry) self.old) }
    {
        match value {
            Some(value) => self.defaults.push(value),
            None => {
                self.defaults.push(ValueRef::Null)?;
                self.least = self.defaults.len();
                Ok(())
            }
        }
    }

    #[tactic(auto, unfolding(crate::specs::Definitions::declared))]
    // Takes a part: a column, or a rule of the table.
    fn take(
        &mut self,
        alloc: Global,
        rowid: &[&[u8]],
        first: &[&[u8]],
        part: &[Token],
    ) -> Result<(), AllocError>
        ensures { OnOk result (self.new ≡ spec.with_part (map (λ it. it.now) rowid.now) (map (λ it. it.now) first.now) self.old part.now) }
    {
        let [name, rules @ ..] = part else {
            return Ok(());
        };
        if is_rule(part) {
            return Ok(());
        }
        let name = name.text.as_slice();
        let text = type_of(alloc, rules)?;
        let kind = kind_of(self.strict, &text);
        let shown = shown_of(kind, is_rowid(kind, rowid, name, rules));
        self.computed = self.computed || is_computed(rules);
        if let Some(place) = place_in(first, name) {
            return self.push_column(alloc, name, shown, place);
        }
        let value = default_of(alloc, kind, rules)?;
        let place = self.defaults.len();
        self.push_column(alloc, name, shown, place)?;
        self.push_default(value)
    }

    // This definition with these parts.
    fn with_parts(
        self,
        alloc: Global,
        rowid: &[&[u8]],
        first: &[&[u8]],
        mut parts: &[Items<Token>],
    ) -> Result<Definition, AllocError>
        ensures { IfOk result (λ it. it ≡ spec.with_parts (map (λ it. it.now) rowid.now) (map (λ it. it.now) first.now) self parts.entry.now) }
    {
        let mut definition = self;
        while let [part, rest @ ..] = parts {
            definition.take(alloc, rowid, first, part.as_slice())?;
            parts = rest;
        }
        Ok(definition)
    }
}

// Whether one of the tokens is this word.
fn says_any(mut tokens: &[Token], word: &[u8]) -> bool
    ensures { result ≡ spec.says_any word.now tokens.entry.now }
{
    while let [token, rest @ ..] = tokens {
        if token.says(word) {
            return true;
        }
        tokens = rest;
    }
    false
}

// Whether a word is one of the options of a table, by the tokens outside of parentheses.
fn has_option(tokens: &[Token], word: &[u8]) -> bool
    ensures { result ≡ spec.has_option word.now tokens.now }
{
    match tokens {
        [_, _, _, options @ ..] => says_any(options, word),
        _ => false,
    }
}

// The columns with which records begin, by the key of a statement.
fn first_of<'k>(
    alloc: Global,
    statement: &[u8],
    key: Vec<&'k [u8]>,
) -> Result<Vec<&'k [u8]>, AllocError>
    ensures { IfOk result (λ first. map (λ name. name.now) first.items ≡ spec.first_of statement.now (map (λ name. name.now) key.entry.items)) }
{
    if has_part(statement, b"collate") {
        Ok(key)
    } else {
        distinct(alloc, &key)
    }
}

// What a table without rowids has, in whose records these columns come first.
fn keyed_definition(
    alloc: Global,
    strict: bool,
    first: &[&[u8]],
    parts: &[Items<Token>],
) -> Result<Definition, AllocError>
    ensures { IfOk result (λ it. it ≡ spec.keyed_definition strict (map (λ name. name.now) first.now) parts.now) }
{
    let begun = Definition::begun(alloc, strict, Tree::Index, first)?;
    let mut definition = begun.with_parts(alloc, &[], first, parts)?;
    definition.known = !first.is_empty() && definition.columns.len() == definition.defaults.len();
    Ok(definition)
}

// What a table with rowids has, which may be this key.
fn rowid_definition(
    alloc: Global,
    strict: bool,
    key: &[&[u8]],
    parts: &[Items<Token>],
) -> Result<Definition, AllocError>
    ensures { IfOk result (λ it. it ≡ spec.rowid_definition strict (map (λ name. name.now) key.now) parts.now) }
{
    let begun = Definition::begun(alloc, strict, Tree::Table, &[])?;
    begun.with_parts(alloc, key, &[], parts)
}

#[tactic(auto, unfolding(crate::specs::Definitions::definition_of))]
/// What a statement declares.
pub(crate) fn definition_of(alloc: Global, statement: &[u8]) -> Result<Definition, AllocError>
    ensures { IfOk result (λ it. it ≡ spec.definition_of statement.now) }
{
    let tokens = read(alloc, statement)?;
    let parts = tokens.parts.as_slice();
    let options = tokens.outside.as_slice();
    let strict = has_option(options, b"strict");
    let key = key_of(alloc, parts)?;
    if has_option(options, b"without") {
        let first = first_of(alloc, statement, key)?;
        keyed_definition(alloc, strict, &first, parts)
    } else {
        rowid_definition(alloc, strict, &key, parts)
    }
}
