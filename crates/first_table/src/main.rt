//! The program `first_table`: a table from rows.
#![tactic(auto)]

use pg_layout::Borders;
use pg_table::{Table, TableFault};
use std::alloc::Global;
use std::io;

fn main(rt: HostRuntime) -> io::Result<()> {
    let alloc = rt.alloc();
    match stock(alloc) {
        Ok(text) => println!(rt; "{text}"),
        Err(fault) => println!(rt; "{fault}"),
    }
}

// What is in stock, as a table.
fn stock(alloc: Global) -> Result<String, TableFault> {
    let header = vec![in alloc; "item", "in stock"]?;
    let tea = vec![in alloc; "tea", "12"]?;
    let cups = vec![in alloc; "cups", "3"]?;
    let table = Table::new(alloc, vec![in alloc; header, tea, cups]?)?;
    table.with_borders(Borders::rounded()).to_string(alloc)
}
