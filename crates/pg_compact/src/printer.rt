//! What draws the lines of a compact table.

ghost use Rattle.pg_config.specs.CompactConfig.{settings_of};
ghost use Rattle.pg_compact.specs.RowEdges.{AreEdges};

use crate::row_edges::RowEdges;
use pg_config::CompactConfig;

// What draws the lines of a compact table, whatever the texts of its rows.
#[derive(Drop)]
pub(crate) struct CompactPrinter<'a, D, C> {
    pub(crate) config: &'a CompactConfig,
    pub(crate) dimension: D,
    pub(crate) colors: C,
    pub(crate) columns: usize,
    pub(crate) edges: RowEdges,
    ghost edges_are: { AreEdges (settings_of config.now) edges },
}
