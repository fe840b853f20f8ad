//! Tables that aren't drawn, and why; tables that are drawn while memory is refused, and those that no memory holds.

use crate::case::{Mismatch, Wrong};
use crate::tables::TableCase;
use crate::tables::drawing::{Drawer, OLD};
use pg_grid::{Misfit, PrintFault};
use pg_table::TableFault;
use pg_testing::LineFault;
use pg_testing::ledger::{Outcome, Trial};
use pg_testing::refusing::Refusing;
use pg_testing::report::Report;
use pg_testing::settings::Words;
use std::alloc::{AllocError, Global};

/// What a buffer holds before, which is compared byte by byte.
const KEPT: &str = "log:\u{e9}\n";

/// Why a table isn't drawn.
#[derive(Debug, Clone, Copy, PartialEq, Eq)]
pub(crate) enum Refusal {
    /// This row is the first one of another length than row 0.
    Ragged(usize),
    /// The cell in this row and this column has no room.
    Room(usize, usize),
    /// A span doesn't fit.
    Spans,
    /// A total is no number of 64 bits.
    Totals,
    /// Memory was refused.
    Memory,
}

impl Refusal {
    /// The refusal that a line names, as `room 0 1`.
    pub(crate) fn named(line: &str) -> Result<Refusal, LineFault> {
        let mut words = Words::new(line);
        let refusal = match words.word() {
            "spans" => Refusal::Spans,
            "totals" => Refusal::Totals,
            "memory" => Refusal::Memory,
            "ragged" => Refusal::Ragged(words.number()),
            "room" => Refusal::Room(words.number(), words.number()),
            _ => return Err(LineFault::Unknown),
        };
        words.end(refusal)
    }
}

impl From<Misfit> for Refusal {
    fn from(misfit: Misfit) -> Refusal {
        match misfit {
            Misfit::Spans => Refusal::Spans,
            Misfit::Totals => Refusal::Totals,
            Misfit::Room(row, col) => Refusal::Room(row, col),
        }
    }
}

impl From<PrintFault> for Refusal {
    fn from(fault: PrintFault) -> Refusal {
        match fault {
            PrintFault::Misfit(misfit) => Refusal::from(misfit),
            PrintFault::Memory => Refusal::Memory,
        }
    }
}

impl From<TableFault> for Refusal {
    fn from(fault: TableFault) -> Refusal {
        match fault {
            TableFault::Ragged(row) => Refusal::Ragged(row),
            TableFault::Spans => Refusal::Spans,
            TableFault::Totals => Refusal::Totals,
            TableFault::Memory => Refusal::Memory,
        }
    }
}

impl TableCase<'_> {
    /// The table is refused so: each call returns it and leaves the buffer as it was. Where memory is
    /// refused, one request is granted, that for the buffer's old text.
    pub(crate) fn draw_refusal(
        &self,
        drawer: Drawer<'_>,
        refusal: Refusal,
        report: &mut Report,
    ) -> Result<(), AllocError> {
        let place = self.place(drawer);
        if let Some(fits) = self.fits(drawer) {
            report.compare(place, "fits", fits, Err(refusal));
        }
        let granted = if self.has_memory { u64::MAX } else { 1 };
        let memory = Refusing::from_on(self.alloc, granted);
        let mut buf = String::from_str(&memory, KEPT)?;
        let printed = self.print(&memory, drawer, &mut buf);
        report.compare(place, "print", printed, Err(refusal));
        report.compare(place, "print", buf.as_bytes(), KEPT.as_bytes());
        let given = self.text(&memory, drawer).err();
        report.compare(place, "text", given, Some(refusal));
        if self.has_memory {
            return Ok(());
        }
        let requests = self.requests_of(drawer, refusal);
        report.compare(place, "text", memory.requests(), requests);
        Ok(())
    }

    // How many requests come where the table is refused so: that of the buffer; and where it is drawn at
    // its natural sizes, one for these in each of two calls, but where spans are refused, which are looked
    // at first. Within a width totals are, too.
    fn requests_of(&self, drawer: Drawer<'_>, refusal: Refusal) -> u64 {
        match (drawer, refusal) {
            _ if self.way.within.is_some() => 1,
            (Drawer::Grid(_, _), _) | (_, Refusal::Spans) => 1,
            _ => 3,
        }
    }
}

/// How many rows a table has at most whose requests are refused in turn: each try tests all rows again.
const FEW: usize = 100;

/// How many bytes the longest picture has that is printed into buffers of every smaller room.
const SHORT: usize = 200;

/// A call whose requests for memory are refused in turn.
#[derive(Clone, Copy)]
enum PrintCall {
    /// It prints behind the old text of a buffer, whose request is the first one.
    Print,
    /// It gives a text of its own.
    Text,
}

/// A call of a table that is made while memory is refused, what draws the table, and its picture.
#[derive(Clone, Copy)]
struct RefusedTable<'c, 'a> {
    case: &'c TableCase<'a>,
    drawer: Drawer<'c>,
    picture: &'c str,
    call: PrintCall,
}

impl TableCase<'_> {
    /// Draws the table again and again while memory is refused, and reports the first thing that is wrong with
    /// each kind of these tries.
    pub(crate) fn draw_refused(&self, drawer: Drawer<'_>, picture: &str, report: &mut Report) {
        let printed = RefusedTable {
            case: self,
            drawer,
            picture,
            call: PrintCall::Print,
        };
        let text = RefusedTable {
            call: PrintCall::Text,
            ..printed
        };
        let place = self.place(drawer);
        if self.rows.len() <= FEW {
            report.compare(place, "print", printed.mismatch(), None);
            report.compare(place, "text", text.mismatch(), None);
        }
        report.compare(place, "print", printed.mismatch_of_rooms(), None);
    }
}

impl Trial for RefusedTable<'_, '_> {
    // The request of this number is refused, alone or with all behind it: both ways end alike.
    fn outcome(&mut self, number: u64) -> Outcome {
        let refused = match self.call {
            PrintCall::Print => number.saturating_add(1),
            PrintCall::Text => number,
        };
        let one = self.made(&Refusing::only(self.case.alloc, refused));
        let all = self.made(&Refusing::from_on(self.case.alloc, refused));
        if one == all { one } else { Outcome::Wrong }
    }
}

impl RefusedTable<'_, '_> {
    // Refuses the requests of the call in turn, until one comes no more.
    fn mismatch(mut self) -> Option<Mismatch> {
        match self.failures() {
            Ok(requests) => self.mismatch_of_count(requests),
            Err(number) => Some((Wrong::Request, number)),
        }
    }

    // How the call ends.
    fn made(&self, memory: &Refusing<Global>) -> Outcome {
        match self.call {
            PrintCall::Print => self.printed(memory, 0),
            PrintCall::Text => self.given(memory),
        }
    }

    // Prints the table into a buffer that has room for so many bytes behind its old text.
    fn printed(&self, memory: &Refusing<Global>, room: usize) -> Outcome {
        let Ok(mut buf) = old_text(memory, room) else {
            return Outcome::Wrong;
        };
        let printed = self.case.print(memory, self.drawer, &mut buf);
        match buf.as_str().strip_prefix(OLD) {
            Some(gained) => judged(self.picture, memory, printed.err(), gained),
            None => Outcome::Wrong,
        }
    }

    // Asks for a text of the table: where memory is refused there is none.
    fn given(&self, memory: &Refusing<Global>) -> Outcome {
        match self.case.text(memory, self.drawer) {
            Ok(text) => judged(self.picture, memory, None, text.as_str()),
            Err(fault) => judged(self.picture, memory, Some(fault), ""),
        }
    }

    // Tells of so many requests where they are too few, or where none but those that printing makes of its
    // own is needed: a picture that isn't empty takes one or more for the buffer.
    fn mismatch_of_count(&self, requests: u64) -> Option<Mismatch> {
        let own = self.case.own_requests(self.drawer);
        let is_right = if self.picture.is_empty() {
            requests == own
        } else {
            requests > own
        };
        (!is_right).then_some((Wrong::Requests, requests))
    }

    // Prints the table into buffers of more and more room, the last of which has room for all of it. Of a
    // long picture only the last two are tried.
    fn mismatch_of_rooms(&self) -> Option<Mismatch> {
        let bytes = self.picture.len();
        let first = if bytes > SHORT {
            bytes.saturating_sub(1)
        } else {
            0
        };
        for room in first..bytes.saturating_add(1) {
            let expected = if room < bytes {
                Outcome::Failed
            } else {
                Outcome::Whole
            };
            if self.within(room) != expected {
                return Some((Wrong::Room, room as u64));
            }
        }
        None
    }

    // How it ends where the buffer has room for so many bytes, and nothing else is granted than what
    // printing asks for of its own: those who ask for more are refused, and ask once.
    fn within(&self, room: usize) -> Outcome {
        let granted = self.case.own_requests(self.drawer).saturating_add(1);
        let memory = Refusing::from_on(self.case.alloc, granted);
        let outcome = self.printed(&memory, room);
        let requests = match outcome {
            Outcome::Whole => granted,
            _ => granted.saturating_add(1),
        };
        if memory.requests() == requests {
            outcome
        } else {
            Outcome::Wrong
        }
    }
}

// How a call ends that returns this, and leaves this text of the picture. Of an empty picture any beginning is all.
fn judged(
    picture: &str,
    memory: &Refusing<Global>,
    refusal: Option<Refusal>,
    text: &str,
) -> Outcome {
    let is_whole = text == picture;
    let is_begun = picture.starts_with(text) && (!is_whole || text.is_empty());
    match (refusal, memory.has_refused()) {
        (None, false) if is_whole => Outcome::Whole,
        (Some(Refusal::Memory), true) if is_begun => Outcome::Failed,
        _ => Outcome::Wrong,
    }
}

// The old text of a buffer that has room for so many bytes behind it.
fn old_text(
    memory: &Refusing<Global>,
    room: usize,
) -> Result<String<&Refusing<Global>>, AllocError> {
    let mut buf = String::with_capacity(memory, OLD.len().saturating_add(room))?;
    buf.push_str(OLD)?;
    Ok(buf)
}

/// How many requests for memory are granted at most.
const GRANTED: u64 = 8;

impl TableCase<'_> {
    /// Begins a table that no memory holds, with more and more memory, and asks for a text of it, which
    /// there isn't. Of the requests that are granted one is that for the buffer's old text.
    pub(crate) fn draw_beginnings(
        &self,
        drawer: Drawer<'_>,
        endless: (&str, &str),
        report: &mut Report,
    ) -> Result<(), AllocError> {
        let place = self.place(drawer);
        let needed = self.own_requests(drawer).saturating_add(2);
        let mut longest = 0;
        for granted in 1..GRANTED {
            let bytes = self.draw_beginning(drawer, endless, granted, report)?;
            let goes_on = bytes > longest || granted < needed;
            report.compare(place, "print", goes_on, true);
            longest = bytes;
        }
        let memory = Refusing::from_on(self.alloc, GRANTED);
        let refused = self.text(&memory, drawer).err();
        report.compare(place, "text", refused, Some(Refusal::Memory));
        Ok(())
    }

    // Begins such a table where so many requests for memory are granted, and all behind them refused: the
    // grid stops at the first of these, behind a beginning of the picture. Answers how long the buffer's
    // text is. The request of number 0 is that for its old text.
    fn draw_beginning(
        &self,
        drawer: Drawer<'_>,
        endless: (&str, &str),
        granted: u64,
        report: &mut Report,
    ) -> Result<usize, AllocError> {
        let place = self.place(drawer);
        let memory = Refusing::from_on(self.alloc, granted);
        let mut buf = String::from_str(&memory, OLD)?;
        let printed = self.print(&memory, drawer, &mut buf);
        report.compare(place, "print", printed, Err(Refusal::Memory));
        let requests = granted.saturating_add(1);
        report.compare(place, "print", memory.requests(), requests);
        let front = self.front_of(endless, buf.len())?;
        let is_begun = buf.len() >= OLD.len() && front.starts_with(buf.as_str());
        report.compare(place, "print", is_begun, true);
        Ok(buf.len())
    }

    // No less than the first so many bytes of the old text and a picture that goes on and on.
    fn front_of(&self, (picture, again): (&str, &str), bytes: usize) -> Result<String, AllocError> {
        let mut text = String::from_str(self.alloc, OLD)?;
        text.push_str(picture)?;
        for _ in 0..bytes {
            text.push_str(again)?;
        }
        Ok(text)
    }
}
