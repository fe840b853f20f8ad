//! What prints a table only if each line of its texts is shown.

ghost use Rattle.std.specs.Prelude.{◌≡◌, ◌++◌, ◌↔◌, Option, true, false, None, Some, Err, IsOk, OnOk, string_bytes};
ghost use Rattle.pg_picture.specs.Shown.{unless_unshown};
ghost use Rattle.pg_picture.specs.Printed.{PrintsWhole, PrintsWholeOrNothing};
ghost use Rattle.pg_picture.specs.declared.shown.Unshown.{Unshown};

use crate::shown::Unshown;
use crate::table_printer::TablePrinter;
use crate::whole_fault::WholeFault;
use std::alloc::Allocator;

/// A table printer that can test whether its picture shows each line of each text.
pub trait WholePrinter: TablePrinter {
    /// The first thing that isn't shown: the first misfit, or if there is none the first cell with
    /// a line that is left out.
    ghost unshown: { Self → Option Unshown };

    /// Whether the table fits and shows each line of its texts: the error is the first thing that
    /// isn't shown.
    fn shows_all(&self) -> Result<(), Unshown>
        ensures exact { result ≡ unless_unshown (unshown self.now) }
        ensures fits { IsOk result → Self.misfit self.now ≡ None }
        ensures empty { Self.is_empty self.now ≡ true → IsOk result };

    /// Appends the picture of the table, if it fits and shows each line of its texts: `shows_all`,
    /// and then `build`. Precondition: its records are readable, as records in memory always are.
    ///
    /// Any other table is refused with what `shows_all` returns, and the buffer is unchanged. After
    /// out of memory the buffer has gained a beginning of the picture; a printer that allocates
    /// memory of its own may also leave it unchanged. A table with no rows or no columns shows all,
    /// and leaves the buffer unchanged.
    final fn print_whole<A: Allocator>(self, buf: &mut String<A>) -> Result<(), WholeFault>
        requires readable { Self.is_readable self }
        ensures prints { Self.takes_memory ≡ false → PrintsWhole (unshown self) buf.old buf.new result (Self.picture self) }
        ensures or_nothing { PrintsWholeOrNothing (unshown self) buf.old buf.new result (Self.picture self) }
        ensures printed { OnOk result (string_bytes buf.new ≡ string_bytes buf.old ++ Self.picture self) }
        ensures unshown { (u : _) → (result ≡ Err (WholeFault.Unshown u)) ↔ (unshown self ≡ Some u) }
        ensures empty { Self.is_empty self ≡ true → IsOk result × (buf.new ≡ buf.old) }
    {
        self.shows_all()?;
        self.build(buf)?;
        Ok(())
    }
}
