//! Scripts, and the tables that they describe.

ghost use Rattle.std.specs.Prelude.{◌≡◌, Some};
ghost use Rattle.pg_script.specs.Script.{script_fault_text};
ghost use Rattle.pg_script.specs.declared.script.ScriptFault.TheVariants.{Memory};

use pg_config::SpannedConfig;
use pg_layout::{ColorsMap, ConstantDimension, VecRecords};
use std::alloc::{AllocError, Allocator, Global};
use std::error::Error;
use std::fmt;

/// Why a script describes no table.
#[derive(Debug, Clone, Copy, PartialEq, Eq)]
pub enum ScriptFault {
    /// The first bad line, counted from 1.
    Bad(usize),
    /// Out of memory.
    Memory,
}

impl From<AllocError> for ScriptFault {
    ghost from_gives = { λ _ fault. fault ≡ Memory };

    fn from(_error: AllocError) -> ScriptFault {
        ScriptFault::Memory
    }
}

/// Writes what is wrong.
impl fmt::Display for ScriptFault {
    ghost output = { λ fault. Some (script_fault_text fault) };

    fn fmt<W: fmt::Write>(&self, f: &mut fmt::Formatter<W>) -> fmt::Result {
        match self {
            ScriptFault::Bad(line) => write!(f, "line {line}: bad"),
            ScriptFault::Memory => write!(f, "out of memory"),
        }
    }
}

impl Error for ScriptFault {}

/// All that printing a script's table needs.
#[derive(Drop)]
pub struct Script<A: Allocator = Global> {
    /// The texts of the cells.
    pub records: VecRecords<String<A>, A>,
    /// The widths of the columns and the heights of the rows.
    pub dimension: ConstantDimension<A>,
    /// The colours of the cells.
    pub colors: ColorsMap<A>,
    /// The settings of the table; a compact one has those of [`CompactConfig::of`].
    ///
    /// [`CompactConfig::of`]: pg_config::CompactConfig::of
    pub config: SpannedConfig<A>,
}
