//! Where a run writes: all of what is to be written, or a beginning of it.

ghost use Rattle.std.specs.Prelude.{◌≡◌, ◌≢◌, ◌≤◌, [], length, take, true, None, Some, Err, IfOk, OnErr, OnOk};
ghost use Rattle.std.specs.IoError.{error_kind};
ghost use Rattle.std.specs.Io.KnownBytes.{Appends, Keeps};
ghost use Rattle.ruled_io.specs.Faults.{fault_of_write, is_of_write, Begins};
ghost use Rattle.ruled_io.specs.Faults as spec;
ghost use Rattle.ruled_io.specs.declared.fault.RunFault.{RunFault};
ghost use Rattle.ruled_io.specs.declared.output.WriteFault.{WriteFault};

use crate::fault::RunFault;
use std::io;
use std::io::{ErrorKind, Write};

/// Why a write failed.
#[derive(Clone, Copy)]
pub(crate) enum WriteFault {
    /// Nobody reads what is written.
    Closed,
    /// Any other reason.
    Failed,
}

impl WriteFault {
    // What the writer's error says: that nobody reads, only where its kind is that of a broken pipe.
    fn of_error(error: io::Error) -> WriteFault
        ensures closed { error_kind error ≡ ErrorKind.BrokenPipe → result ≡ WriteFault.Closed }
        ensures others { error_kind error ≢ ErrorKind.BrokenPipe → result ≡ WriteFault.Failed }
    {
        match error.kind() {
            ErrorKind::BrokenPipe => WriteFault::Closed,
            _ => WriteFault::Failed,
        }
    }

    // The fault of the run.
    fn in_run(self) -> RunFault
        ensures fault { result ≡ fault_of_write self }
        ensures part { spec.write_part result ≡ Some result }
        ensures failed { is_of_write result ≡ true }
    {
        match self {
            WriteFault::Closed => RunFault::Closed,
            WriteFault::Failed => RunFault::Write,
        }
    }
}

/// A writer, of which it is known whether a write has failed. Once one has, nothing more is written, and each further
/// write fails in the same way.
#[derive(Drop)]
pub struct Output<W: Drop> {
    writer: W,
    /// Why a write failed, where one has. Only what the writer says sets it.
    failure: Option<WriteFault>,
}

impl<W: Write + Drop> Output<W> {
    /// A writer to which no write has failed.
    pub fn new(writer: W) -> Output<W>
        ensures kept { spec.written W.contents result ≡ W.contents writer }
        ensures none { spec.failure_of result ≡ None }
    {
        Output {
            writer,
            failure: None,
        }
    }

    /// The writer.
    pub fn into_writer(self) -> W
        ensures { W.contents result ≡ spec.written W.contents self }
    {
        self.writer
    }

    // Notes that a write failed with this error, and returns the fault of the run.
    fn failed(&mut self, error: io::Error) -> RunFault
        ensures kept { W.contents self.new.writer ≡ W.contents self.old.writer }
        ensures told { spec.failure_of self.new ≡ Some result }
        ensures part { spec.write_part result ≡ Some result }
        ensures failed { is_of_write result ≡ true }
    {
        let failure = WriteFault::of_error(error);
        self.failure = Some(failure);
        failure.in_run()
    }

    // Writes some bytes, and returns how many; none if the write is to be tried again.
    fn write_some(&mut self, bytes: &[u8]) -> Result<usize, RunFault>
        ensures within { IfOk result (λ count. count ≤ length bytes.now) }
        ensures written { IfOk result (λ count. Appends (W.contents self.old.writer) (W.contents self.new.writer) (take count bytes.now)) }
        ensures none { OnErr result (Appends (W.contents self.old.writer) (W.contents self.new.writer) []) }
        ensures told { spec.failure_of self.new ≡ spec.failure_in result }
        ensures fine { OnOk result (spec.failure_of self.old ≡ None) }
        ensures failed { (fault : RunFault) → result ≡ Err fault → is_of_write fault ≡ true }
    {
        if let Some(failure) = self.failure {
            return Err(failure.in_run());
        }
        match self.writer.write(bytes) {
            Ok(0) => Err(self.failed(ErrorKind::WriteZero.into())),
            Ok(count) => Ok(count),
            Err(error) if error.kind() == ErrorKind::Interrupted => Ok(0),
            Err(error) => Err(self.failed(error)),
        }
    }

    /// Writes bytes, all of them or a beginning.
    pub(crate) fn write(&mut self, bytes: &[u8]) -> Result<(), RunFault>
        ensures written { OnOk result (Appends (W.contents self.old.writer) (W.contents self.new.writer) bytes.now) }
        ensures begun { OnErr result (Begins (W.contents self.old.writer) (W.contents self.new.writer) bytes.now) }
        ensures told { spec.TellsWrite (spec.failure_of self.old) (spec.failure_of self.new) result }
        ensures failed { (fault : RunFault) → result ≡ Err fault → is_of_write fault ≡ true }
    {
        let mut rest = bytes;
        for _ in 0..usize::MAX {
            if rest.is_empty() {
                return Ok(());
            }
            let count = self.write_some(rest)?;
            rest = &rest[count..];
        }
        Err(self.failed(ErrorKind::WriteZero.into()))
    }

    /// Shows what was written.
    pub(crate) fn flush(&mut self) -> Result<(), RunFault>
        ensures kept { Keeps (W.contents self.old.writer) (W.contents self.new.writer) }
        ensures told { spec.failure_of self.new ≡ spec.failure_in result }
        ensures fine { OnOk result (spec.failure_of self.old ≡ None) }
        ensures failed { (fault : RunFault) → result ≡ Err fault → is_of_write fault ≡ true }
    {
        if let Some(failure) = self.failure {
            return Err(failure.in_run());
        }
        match self.writer.flush() {
            Ok(()) => Ok(()),
            Err(error) => Err(self.failed(error)),
        }
    }
}
