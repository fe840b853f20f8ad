//! The program `guide`: the programs of the guide one after another, each after a line with its
//! name. Those that read an input are tried on samples. With a word, only the program of this name
//! runs, such as `invoice`; one that reads an input reads standard input: `live_log`, or
//! `foreign_rows 40` with the width of its table.
//!
//! Each module has one program, or several of one subject. None of their functions needs a proof by hand.
#![tactic(auto)]

mod fault;
mod foreign_rows;
mod grid_calls;
mod logs;
mod menu;
mod reports;
mod rows;
mod streamed_rows;
mod tasks;
mod timetable;

use crate::fault::Fault;
use std::alloc::Global;
use std::env;
use std::io::{BufRead, Lock};
use std::process::ExitCode;

// The programs that read no input.
const NAMES: [&str; 22] = [
    "price_list",
    "invoice",
    "titled",
    "lunch",
    "dinner",
    "menus",
    "bill",
    "shifts",
    "shifts_page",
    "shifts_notes",
    "files",
    "tests",
    "sales",
    "order",
    "item",
    "record_blocks",
    "levels",
    "timetable",
    "streamed_rows",
    "compact_list",
    "told_widths",
    "grid_calls",
];

fn main(rt: HostRuntime) -> ExitCode {
    match run(&rt) {
        Ok(()) => ExitCode::SUCCESS,
        Err(fault) => {
            let _ = eprintln!(rt; "{fault}");
            ExitCode::FAILURE
        }
    }
}

// Runs the program that the first word names, or all of them.
fn run(rt: &HostRuntime) -> Result<(), Fault> {
    let alloc = rt.alloc();
    let mut words = env::args(rt)?.skip(1);
    match words.next() {
        Some(name) => {
            let columns = env::var(rt, "COLUMNS").ok();
            let width = foreign_rows::width_of(words.next().as_deref(), columns.as_deref());
            print_program(rt, alloc, &name, width, rt.stdin().lock())
        }
        None => {
            show_texts(rt, alloc)?;
            show_samples(rt, alloc)
        }
    }
}

// Prints the text of each program that reads no input, after a line with its name.
fn show_texts(rt: &impl Print, alloc: Global) -> Result<(), Fault> {
    for name in NAMES {
        let text = text_of(alloc, name)?;
        println!(rt; "== {name}\n{text}")?;
    }
    Ok(())
}

// The text of the program of this name.
fn text_of(alloc: Global, name: &str) -> Result<String, Fault> {
    match name {
        "timetable" => timetable::week(alloc),
        "streamed_rows" => streamed_rows::lists(alloc),
        "compact_list" => tasks::list(alloc),
        "told_widths" => tasks::errands(alloc),
        "grid_calls" => grid_calls::tables(alloc),
        _ => table_of(alloc, name),
    }
}

// The text of the program of this name, one of those that make a table from rows.
fn table_of(alloc: Global, name: &str) -> Result<String, Fault> {
    let text = match name {
        "price_list" => reports::prices(alloc),
        "invoice" => reports::invoice(alloc),
        "titled" => reports::titled(alloc),
        "lunch" => menu::lunch(alloc),
        "dinner" => menu::dinner(alloc),
        "menus" => menu::menus(alloc),
        "bill" => reports::bill(alloc),
        "shifts" => timetable::shifts_list(alloc),
        "shifts_page" => timetable::shifts_page(alloc),
        "shifts_notes" => timetable::shifts_notes(alloc),
        "files" => foreign_rows::files(alloc),
        "tests" => reports::tests(alloc),
        "sales" => reports::sales(alloc),
        "order" => reports::order(alloc),
        "item" => reports::item(alloc),
        "record_blocks" => reports::blocks(alloc),
        "levels" => logs::levels(alloc),
        _ => return Err(Fault::Name),
    };
    text.map_err(Fault::from)
}

// Prints what each program makes of its sample, after a line with its name.
fn show_samples(rt: &impl Print, alloc: Global) -> Result<(), Fault> {
    for (name, sample) in [
        ("word_counts", rows::LINES),
        ("live_log", rows::LOG),
        ("foreign_rows", rows::TEXTS),
    ] {
        println!(rt; "== {name}")?;
        print_program(rt, alloc, name, 40, sample.as_bytes())?;
    }
    println!(rt; "== word_counts_of_a_wide_line")?;
    match logs::print_counts(rt, alloc, rows::WIDE_LINES.as_bytes()) {
        Ok(()) => Ok(()),
        Err(fault) => println!(rt; "\n{fault}").map_err(Fault::from),
    }
}

// Prints the text of the program of this name: of an input if it reads one, and within a width if it has one.
fn print_program<R: BufRead + Drop>(
    rt: &impl Print,
    alloc: Global,
    name: &str,
    width: usize,
    input: R,
) -> Result<(), Fault> {
    let text = match name {
        "word_counts" => return logs::print_counts(rt, alloc, input),
        "live_log" => return logs::print_log(rt, alloc, input),
        "foreign_rows" => foreign_rows::table_within(alloc, input, width),
        _ => text_of(alloc, name),
    };
    println!(rt; "{}", text?).map_err(Fault::from)
}
