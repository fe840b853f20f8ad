//! Scripts to tables: how the table of a script is printed, and what the program `pgshow` does.
#![tactic(auto)]

pub mod examples;
mod fault;
mod mode;
mod program;
mod show;

pub use crate::fault::Fault;
pub use crate::mode::Mode;
pub use crate::program::{Ending, run};
pub use crate::show::print_script;
pub use pg_picture::PrintFault;
/// Why the table of a script isn't printed.
pub use pg_picture::PrintFault as ShowFault;
pub use pg_script::{Script, ScriptFault, parse_script};
