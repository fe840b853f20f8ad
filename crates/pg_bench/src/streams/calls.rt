//! Calls of streams, of those that hold a row and of those that show each row at once, and what calls return and
//! append, beside what is expected.

use crate::case::{Mismatch, Wrong, owned_row};
use crate::streams::printing::Way;
use crate::streams::{Step, StepKind, StreamCase};
use pg_layout::{ConstantDimension, NoColors};
use pg_stream::{LiveStream, RowStream, RowsFault, SizedStream, StreamFault};
use pg_testing::refusing::Refusing;
use std::alloc::{AllocError, Global};
use std::fmt::Display;

/// What a buffer holds before.
pub(crate) const OLD: &str = "log:";

/// The memory of a stream, of its rows and of its buffer.
pub(crate) type Memory<'m> = &'m Refusing<Global>;

/// A buffer.
pub(crate) type Buffer<'m> = String<Memory<'m>>;

/// The steps of a table that is printed, and what was wrong with them so far.
#[derive(Clone, Copy)]
pub(crate) struct Watch<'w> {
    pub(crate) alloc: Global,
    pub(crate) memory: Memory<'w>,
    steps: &'w [Step<'w>],
    // What all of them append.
    text: &'w str,
    // How much of the buffer was there when memory was refused.
    left: Option<usize>,
    mismatch: Option<Mismatch>,
}

impl<'w> Watch<'w> {
    /// Nothing was seen.
    pub(crate) fn new(
        alloc: Global,
        memory: Memory<'w>,
        steps: &'w [Step<'w>],
        text: &'w str,
    ) -> Watch<'w> {
        Watch {
            alloc,
            memory,
            steps,
            text,
            left: None,
            mismatch: None,
        }
    }

    /// The first thing that was wrong.
    pub(crate) fn mismatch(&self) -> Option<Mismatch> {
        self.mismatch
    }

    /// Takes what is wrong at this step, if nothing was before.
    pub(crate) fn take(&mut self, what: Wrong, step: usize) {
        if self.mismatch.is_none() {
            self.mismatch = Some((what, step as u64));
        }
    }

    /// The call of this step returned no fault.
    pub(crate) fn goes(&mut self, step: usize, buf: &str) {
        let is_expected = match self.steps.get(step) {
            Some(step) => step.fault.is_none(),
            None => false,
        };
        if !is_expected || self.memory.has_refused() {
            self.take(Wrong::Answer, step);
        }
        self.look(step, buf);
    }

    /// The call of this step returned a fault.
    pub(crate) fn stops<F: Display>(&mut self, step: usize, fault: &F, buf: &str) {
        let Ok(words) = format!(in self.alloc; "{fault}") else {
            return self.take(Wrong::Answer, step);
        };
        if self.memory.has_refused() {
            if words.as_str() != "out of memory" {
                self.take(Wrong::Answer, step);
            }
            return self.look_refused(step, buf);
        }
        let is_expected = match self.steps.get(step) {
            Some(step) => step.fault == Some(words.as_str()),
            None => false,
        };
        if !is_expected {
            self.take(Wrong::Answer, step);
        }
        self.look(step, buf);
    }

    /// The call of this step ended so.
    pub(crate) fn ends<F: Display + Drop>(&mut self, step: usize, ended: Result<(), F>, buf: &str) {
        match ended {
            Ok(()) => self.goes(step, buf),
            Err(fault) => self.stops(step, &fault, buf),
        }
    }

    // The buffer holds what is expected behind this step.
    fn look(&mut self, step: usize, buf: &str) {
        let bytes = match self.steps.get(step) {
            Some(step) => step.bytes,
            None => 0,
        };
        if buf.strip_prefix(OLD) != self.text.get(..bytes) {
            self.take(Wrong::Text, step);
        }
    }

    // The buffer holds a beginning of the text, and no more than when memory was refused.
    fn look_refused(&mut self, step: usize, buf: &str) {
        let is_beginning = match buf.strip_prefix(OLD) {
            Some(gained) => self.text.starts_with(gained),
            None => false,
        };
        let is_left = match self.left {
            Some(left) => left == buf.len(),
            None => true,
        };
        if !is_beginning || !is_left {
            self.take(Wrong::Text, step);
        }
        self.left = Some(buf.len());
    }

    /// A question that takes no memory is answered by this fault at this step, or by none.
    pub(crate) fn hears<F: Display + Drop>(&mut self, step: usize, fault: Option<F>) {
        let expected = match self.steps.get(step) {
            Some(step) => step.fault,
            None => None,
        };
        let is_expected = match (fault, expected) {
            (Some(fault), Some(expected)) => match format!(in self.alloc; "{fault}") {
                Ok(words) => words.as_str() == expected,
                Err(_) => false,
            },
            (None, None) => true,
            _ => false,
        };
        if !is_expected {
            self.take(Wrong::Answer, step);
        }
    }

    /// The printer says this behind this step.
    pub(crate) fn note(&mut self, step: usize, note: &str) {
        let is_expected = match self.steps.get(step) {
            Some(step) => step.note.is_none() || step.note == Some(note),
            None => false,
        };
        if !is_expected {
            self.take(Wrong::Note, step);
        }
    }
}

/// A stream that holds a row of texts.
type HeldStream<'a> = RowStream<
    'a,
    &'a str,
    ConstantDimension,
    NoColors,
    Global,
    Memory<'a>,
    Memory<'a>,
>;

/// A row, or the number in its place.
type Item<'a> = Result<Vec<&'a str, Memory<'a>>, u8>;

/// The error in place of a row.
const ERROR: u8 = 7;

impl<'a> StreamCase<'a> {
    /// Pushes the rows one after the other. A row is printed when the next one is there.
    pub(crate) fn push_rows<'m>(
        &'m self,
        way: Way,
        hint: Option<usize>,
        watch: &mut Watch<'m>,
        buf: &mut Buffer<'m>,
    ) {
        let mut stream = match self.stream(watch.memory, hint) {
            Ok(stream) => stream,
            Err(fault) => return watch.stops(0, &fault, buf),
        };
        watch.goes(0, buf);
        let mut held = 0;
        for (number, step) in self.steps.iter().enumerate() {
            if matches!(step.kind, StepKind::Row) {
                stream = match push(watch.memory, stream, way, step, buf) {
                    Ok(stream) => stream,
                    Err(fault) => return watch.stops(held, &fault, buf),
                };
                watch.goes(held, buf);
                held = number;
            }
        }
        match stream.finish(buf) {
            Ok(()) => watch.goes(self.stop(), buf),
            Err(fault) => watch.stops(held, &fault, buf),
        }
    }

    /// Prints all rows by one call.
    pub(crate) fn print_rows<'m>(
        &'m self,
        way: Way,
        hint: Option<usize>,
        watch: &mut Watch<'m>,
        buf: &mut Buffer<'m>,
    ) {
        let printed = self.printed(way, hint, watch.memory, buf);
        watch.ends(self.stop(), printed, buf);
    }

    // A stream before its first row.
    fn stream<'m>(
        &'m self,
        memory: Memory<'m>,
        hint: Option<usize>,
    ) -> Result<HeldStream<'m>, StreamFault> {
        RowStream::new(
            memory,
            &*self.config,
            &self.dimension,
            &NoColors,
            self.columns(),
            hint,
        )
    }

    // What a call that prints all rows returns.
    fn printed<'m>(
        &'m self,
        way: Way,
        hint: Option<usize>,
        memory: Memory<'m>,
        buf: &mut Buffer<'m>,
    ) -> Result<(), RowsFault<u8>> {
        if matches!(way, Way::PrintResults) {
            let mut items = self.items(memory)?.into_iter();
            return self.stream(memory, hint)?.print_results(&mut items, buf);
        }
        self.printed_rows(way, hint, memory, buf)
            .map_err(RowsFault::from)
    }

    // What a call returns that prints all rows, of which each is there.
    fn printed_rows<'m>(
        &'m self,
        way: Way,
        hint: Option<usize>,
        memory: Memory<'m>,
        buf: &mut Buffer<'m>,
    ) -> Result<(), StreamFault> {
        let rows = self.rows(memory)?;
        let stream = self.stream(memory, hint)?;
        if matches!(way, Way::PrintVec) {
            return stream.print_vec(rows, buf);
        }
        stream.print_all(rows.into_iter(), buf)
    }

    // All rows.
    fn rows<'m>(
        &'m self,
        memory: Memory<'m>,
    ) -> Result<Vec<Vec<&'m str, Memory<'m>>, Memory<'m>>, StreamFault> {
        let mut rows = Vec::new(memory);
        for step in &self.steps {
            if matches!(step.kind, StepKind::Row) {
                rows.push(step.cells.as_slice().to_vec(memory)?)?;
            }
        }
        Ok(rows)
    }

    // All rows, and what is in the place of any of them.
    fn items<'m>(&'m self, memory: Memory<'m>) -> Result<Vec<Item<'m>, Memory<'m>>, StreamFault> {
        let mut items = Vec::new(memory);
        for step in &self.steps {
            match step.kind {
                StepKind::Row => items.push(Ok(step.cells.as_slice().to_vec(memory)?))?,
                StepKind::Error => items.push(Err(ERROR))?,
                StepKind::Make | StepKind::Finish | StepKind::Close => {}
            }
        }
        Ok(items)
    }

    /// The step at which a table stops that is printed as a whole: the first that returns a fault, or the last.
    pub(crate) fn stop(&self) -> usize {
        for (number, step) in self.steps.iter().enumerate() {
            if step.fault.is_some() {
                return number;
            }
        }
        self.last()
    }
}

// Pushes a row.
fn push<'m>(
    memory: Memory<'m>,
    stream: HeldStream<'m>,
    way: Way,
    step: &Step<'m>,
    buf: &mut Buffer<'m>,
) -> Result<HeldStream<'m>, StreamFault> {
    if matches!(way, Way::PushFrom) {
        return stream.push_from(memory, step.cells.iter().copied(), buf);
    }
    let cells = step.cells.as_slice().to_vec(memory)?;
    stream.push(cells, buf)
}

/// A stream whose rows are shown at once.
type Live<'a> = LiveStream<'a, &'a str, ConstantDimension, NoColors, Global, Memory<'a>>;

/// A stream whose rows bring their heights.
type Sized<'a> = SizedStream<'a, &'a str, ConstantDimension, NoColors, Global, Memory<'a>>;

/// A stream that shows each row at once.
#[derive(Drop)]
enum ShownStream<'a> {
    /// Its rows are pushed or lent.
    Live(Live<'a>),
    /// Its rows bring their heights.
    Sized(Sized<'a>),
}

impl<'a> StreamCase<'a> {
    /// Pushes or lends the rows to a stream that shows each of them at once. It goes on behind a fault.
    pub(crate) fn show_rows<'m>(&'m self, way: Way, watch: &mut Watch<'m>, buf: &mut Buffer<'m>) {
        let mut stream = match self.shown(way, watch.memory) {
            Ok(stream) => stream,
            Err(fault) => return watch.stops(0, &fault, buf),
        };
        watch.goes(0, buf);
        for (number, step) in self.steps.iter().enumerate() {
            if matches!(step.kind, StepKind::Row) {
                let is_lent = matches!(way, Way::Lent) && !step.is_pushed;
                let shown = stream.show(self.alloc, is_lent, step, buf);
                watch.ends(number, shown, buf);
            }
        }
        watch.ends(self.last(), stream.finish(buf), buf);
    }

    // Such a stream before its first row.
    fn shown<'m>(&'m self, way: Way, memory: Memory<'m>) -> Result<ShownStream<'m>, StreamFault> {
        let (config, dimension, columns) = (&*self.config, &self.dimension, self.columns());
        if matches!(way, Way::Sized) {
            let made: Result<Sized<'m>, StreamFault> = SizedStream::new(
                memory, config, dimension, &NoColors, columns,
            );
            return Ok(ShownStream::Sized(made?));
        }
        let made: Result<Live<'m>, StreamFault> = LiveStream::new(
            memory, config, dimension, &NoColors, columns,
        );
        Ok(ShownStream::Live(made?))
    }
}

impl<'m> ShownStream<'m> {
    // Shows a row, whose texts are gone when the next one comes, where they are lent.
    fn show(
        &mut self,
        alloc: Global,
        is_lent: bool,
        step: &Step<'m>,
        buf: &mut Buffer<'m>,
    ) -> Result<(), StreamFault> {
        if is_lent {
            return self.lend(&owned_row(alloc, &step.cells)?, buf);
        }
        let cells = step.cells.as_slice().to_vec(alloc)?;
        match self {
            ShownStream::Live(stream) => stream.push(cells, buf),
            ShownStream::Sized(stream) => stream.push(step.height, cells, buf),
        }
    }

    // Lends a row to a stream that takes such rows.
    fn lend(&mut self, cells: &[String], buf: &mut Buffer<'m>) -> Result<(), StreamFault> {
        match self {
            ShownStream::Live(stream) => stream.push_lent(cells, buf),
            ShownStream::Sized(_) => Ok(()),
        }
    }

    // Ends the table.
    fn finish(self, buf: &mut Buffer<'m>) -> Result<(), StreamFault> {
        match self {
            ShownStream::Live(stream) => stream.finish(buf),
            ShownStream::Sized(stream) => stream.finish(buf),
        }
    }
}
