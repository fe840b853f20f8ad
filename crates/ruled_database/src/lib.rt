//! The rows of a table of an SQLite database, read from the bytes of its file by the file's format, and the list of its
//! tables.
#![tactic(auto)]

mod definition;
mod encoding;
mod fault;
mod file;
mod float;
mod overflow;
mod schema;
mod table;
mod token;
mod tree;
mod value;

pub use crate::fault::{DatabaseFault, TableFault};
pub use crate::file::keeps_log;
pub use crate::schema::{list_rows, open_table, table_rows};
pub use crate::table::TableReader;
pub use crate::value::push_value;
