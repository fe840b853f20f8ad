//! The bytes of an input, piece by piece.

ghost use Rattle.std.specs.Prelude.{◌≡◌, ◌≤◌, ◌<◌, ◌++◌, ℕ, List, length, take, map, true, Err, None, Ok, IfErr, IfOk, IfSome, OnOk};
ghost use Rattle.std.specs.IoError.{error_kind};
ghost use Rattle.std.specs.Io.KnownBytes.{Consumes, IsAtEnd};
ghost use Rattle.csv.specs.Records.{fields_of};
ghost use Rattle.ruled_json.specs.Streamed.{LineRules};
ghost use Rattle.ruled_io.specs.Faults.{IsOfRead, fault_of_read, is_read, read_part};
ghost use Rattle.ruled_io.specs.Reading.{BeginsSo, GivesMore, GoesOn, Origin, ReadsFront, ReportsRead, Stands, StandsIn, read_failure, left_in};
ghost use Rattle.ruled_io.specs.declared.formats.Format.{Format};
ghost use Rattle.ruled_io.specs.declared.reader.Reading.{Reading};

use crate::fault::{InputFault, ReadFault, RunFault};
use crate::formats::{Known, shows_input};
use crate::reader::{Reader, Reading, read_stored};
use crate::request::Source;
use ruled_row::TextRow;
use std::alloc::Global;
use std::io;
use std::io::{ErrorKind, Read};

/// An input whose bytes are read piece by piece, and of which it is known whether a read has failed.
#[derive(Drop)]
pub struct Pieces<R: Drop> {
    input: R,
    // The piece that was read last, at its front.
    buffer: [u8; 8192],
    /// Why a read has failed, other than for memory. Only what the reader says sets it.
    failure: Option<ReadFault>,
}

impl<R: Read + Drop> Pieces<R> {
    /// An input, of which nothing is read.
    pub fn new(input: R) -> Pieces<R>
        ensures left { left_in R.remaining result ≡ R.remaining input }
        ensures fine { read_failure result ≡ None }
    {
        Pieces {
            input,
            buffer: [0; 8192],
            failure: None,
        }
    }

    // Notes that a read failed with this error, and returns the fault of the run.
    fn failed(&mut self, error: io::Error) -> RunFault
        ensures fault { result ≡ fault_of_read (error_kind error) }
        ensures failed { IsOfRead result }
        ensures noted { is_read result ≡ true → read_failure self.new ≡ read_part result }
    {
        let fault = match error.kind() {
            ErrorKind::OutOfMemory => return RunFault::Input(InputFault::Memory),
            ErrorKind::InvalidData => ReadFault::Encoding,
            ErrorKind::IsADirectory => ReadFault::Folder,
            _ => ReadFault::Failed,
        };
        self.failure = Some(fault);
        RunFault::Read(fault)
    }

    // Reads a piece, and returns how many bytes it has: none at the end.
    fn read(&mut self) -> Result<usize, RunFault>
        ensures within { IfOk result (λ count. count ≤ 8192) }
        ensures piece { IfOk result (λ count. Consumes (R.remaining self.old.input) (R.remaining self.new.input) (take count self.new.buffer)) }
        ensures end { IfOk result (λ count. count ≡ 0 → IsAtEnd (R.remaining self.old.input)) }
        ensures failed { IfErr result IsOfRead }
        ensures noted { ReportsRead (read_failure self.new) result }
    {
        for _ in 0..usize::MAX {
            match self.input.read(&mut self.buffer) {
                Ok(count) => return Ok(count),
                Err(error) if error.kind() == ErrorKind::Interrupted => {}
                Err(error) => return Err(self.failed(error)),
            }
        }
        Err(self.failed(ErrorKind::Interrupted.into()))
    }

    // Reads on until the bytes show what the input is, or to the end.
    fn read_shown(&mut self, alloc: Global, known: Known) -> Result<Vec<u8>, RunFault>
        ensures read { IfOk result (λ front. Consumes (R.remaining self.old.input) (R.remaining self.new.input) front.items) }
        ensures shown { IfOk result (λ front. IfSome (R.remaining self.old.input) (BeginsSo known front.items)) }
        ensures failed { IfErr result IsOfRead }
        ensures noted { ReportsRead (read_failure self.new) result }
    {
        let mut front = Vec::new(alloc);
        for _ in 0..usize::MAX {
            if shows_input(known, &front) {
                return Ok(front);
            }
            let count = self.read()?;
            if count == 0 {
                return Ok(front);
            }
            front.extend_from_slice(&self.buffer[..count])?;
        }
        Err(RunFault::Input(InputFault::Memory))
    }

    /// Reads the first bytes of an input, as many as show what it is and which bytes hold its rows.
    pub(crate) fn read_front(&mut self, alloc: Global, source: &Source) -> Result<Vec<u8>, RunFault>
        ensures read { IfOk result (λ front. IfSome (R.remaining self.old.input) (λ all. ReadsFront source.now all (R.remaining self.new.input) front.items)) }
        ensures failed { IfErr result IsOfRead }
        ensures noted { ReportsRead (read_failure self.new) result }
    {
        self.read_shown(alloc, source.known())
    }

    /// Reads all that is left, behind these bytes.
    pub(crate) fn read_rest(&mut self, bytes: &mut Vec<u8>) -> Result<(), RunFault>
        ensures read { OnOk result (IfSome (R.remaining self.old.input) (λ rest. bytes.new.items ≡ bytes.old.items ++ rest)) }
        ensures failed { IfErr result IsOfRead }
        ensures noted { ReportsRead (read_failure self.new) result }
    {
        for _ in 0..usize::MAX {
            let count = self.read()?;
            if count == 0 {
                return Ok(());
            }
            bytes.extend_from_slice(&self.buffer[..count])?;
        }
        Err(RunFault::Input(InputFault::Memory))
    }

    // Reads the next bytes, and appends the rows that are complete with them.
    fn read_bytes<'d>(
        &mut self,
        reader: Reader,
        rows: &mut Vec<TextRow>,
    ) -> Result<Reading<'d>, RunFault>
        ensures given { (format : Format) (rules : LineRules) (all : List ℕ) (given : List (List (List ℕ)))
            → Stands format rules all (R.remaining self.old.input) given (Reading.More reader)
            → IfOk result (GoesOn format rules all (R.remaining self.new.input) given (map fields_of rows.old.items) (map fields_of rows.new.items)) }
        ensures failed { IfErr result IsOfRead }
        ensures noted { ReportsRead (read_failure self.new) result }
    {
        let count = self.read()?;
        if count == 0 {
            return Ok(reader.finish(rows)?);
        }
        Ok(reader.read(&self.buffer[..count], rows)?)
    }

    /// Reads on, and appends the next rows, of which none are left where all were read.
    pub(crate) fn read_on<'d>(
        &mut self,
        reading: Reading<'d>,
        rows: &mut Vec<TextRow>,
    ) -> Result<Reading<'d>, RunFault>
        ensures given { (origin : Origin) (given : List (List (List ℕ))) → StandsIn origin (R.remaining self.old.input) given reading.entry
            → IfOk result (GivesMore origin (R.remaining self.new.input) given reading.entry (map fields_of rows.old.items) (map fields_of rows.new.items)) }
        ensures failed { IfErr result IsOfRead }
        ensures noted { ReportsRead (read_failure self.new) result }
    {
        match reading {
            Reading::More(reader) => self.read_bytes(reader, rows),
            Reading::Stored(table) => Ok(read_stored(table, rows)),
            Reading::Done(wrong) => Ok(Reading::Done(wrong)),
        }
    }
}
