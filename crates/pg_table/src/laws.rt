//! Laws of natural sizes: the contracts of functions that do nothing are the laws.

ghost use Rattle.pg_table.specs.Markup.{TextsOpenNoTag};
ghost use Rattle.pg_table.specs.Laws.{NaturalTablesHaveRoom, TotalsHoldSizes, PlainSizes, LooksAreNarrow, CellsHaveRoom, NoColumnShrinks, NoColumnPassesItsCells, EnoughStays, AloneIsExact};
ghost use Rattle.pg_table.specs.Laws.{NaturalHeightsShowAll};

/// At its natural sizes a table has room for each of its shown cells: only spans and totals can
/// misfit. If the totals fit, each natural size does. Without spans each column is as wide as its
/// widest cell, and each row as high as its highest one.
#[tactic(auto, using(crate::proofs::NaturalRoom::room_of_naturals))]
pub fn natural_tables_have_room()
    ensures room { NaturalTablesHaveRoom }
    ensures sizes { TotalsHoldSizes }
    ensures plain { PlainSizes }
{}

/// Columns, or rows, have room for each cell that takes several of them. None is narrower than its
/// widest cell of one column, or wider than its widest cell. If no cell lacks room, each stays
/// unchanged. A cell is filled exactly if no other cell of as many or more columns takes one of its
/// columns.
#[tactic(auto, using(crate::proofs::Widenings::laws_of_widening))]
pub fn columns_are_widened_as_needed()
    ensures room { CellsHaveRoom }
    ensures least { NoColumnShrinks }
    ensures greatest { NoColumnPassesItsCells }
    ensures enough { EnoughStays }
    ensures exact { AloneIsExact }
{}

/// The glyphs of each look by name and of each line below a header take one column each, like all
/// of printable ASCII and the box drawings, and so do the fills of a table with default settings.
/// With such glyphs alone, the lines of a table at its natural sizes are equally wide (the clause
/// `even` of [`crate::Table::print`]).
#[tactic(auto, using(crate::proofs::StraightTables::narrow_looks))]
pub fn looks_are_narrow()
    ensures { LooksAreNarrow }
{}

/// At any widths and its natural heights, which [`crate::heights_for`] returns, a table that fits
/// shows each line of its texts: only a misfit keeps it from being printed whole.
#[tactic(auto, using(crate::proofs::NaturalRoom::natural_heights_show_all))]
pub fn natural_heights_show_all()
    ensures { NaturalHeightsShowAll }
{}

/// No text of a cell can begin or end a tag of HTML, or an attribute.
#[tactic(auto, using(crate::proofs::Html::texts_open_no_tag))]
pub fn texts_open_no_tag()
    ensures { TextsOpenNoTag }
{}
