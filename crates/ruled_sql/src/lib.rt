//! The rows that a query reads from an SQLite database, over a copy of its bytes in memory, or from tables of rows. No
//! file is opened, locked or changed.
#![tactic(auto)]

mod database;
mod fault;
mod filled;
mod lack;
mod number;
mod rows;
mod statements;

pub use crate::fault::{QueryFault, Refusal, SqlFault};
pub use crate::filled::NamedRows;
pub use crate::lack::Meaning;
pub use crate::rows::{query_rows, query_tables};
