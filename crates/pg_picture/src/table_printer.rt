//! What prints a table: it tests whether the table fits, and appends its picture.

ghost use Rattle.std.specs.Prelude.{◌≡◌, ◌++◌, ◌↔◌, ℕ, List, Option, Bool, true, false, None, Some, Err, IsOk, IfOk, OnOk, ⊤, string_bytes};
ghost use Rattle.pg_picture.specs.Appending.{Appends, AppendsOrNothing};
ghost use Rattle.pg_picture.specs.Printed.{Prints, PrintsOrNothing};
ghost use Rattle.pg_picture.specs.Sizes.{unless_misfit};
ghost use Rattle.pg_picture.specs.declared.fits.Misfit.{Misfit};

use crate::fault::PrintFault;
use crate::fits::Misfit;
use std::alloc::{AllocError, Allocator};

/// A table with all that printing it needs.
///
/// A grid has its own test and its own `build`, and gets `print` and `text` from here. They take
/// the printer; a grid that is only read while it prints is one by reference, so its calls can be
/// made again.
pub trait TablePrinter: Sized + Drop {
    /// The picture of the table.
    ghost picture: { Self → List ℕ };

    /// The first thing that doesn't fit in the table.
    ghost misfit: { Self → Option Misfit };

    /// Whether the table has no rows or no columns.
    ghost is_empty: { Self → Bool };

    /// Whether the records are readable, as records in memory always are.
    ghost is_readable: { Self → Type 0 } = { λ _. ⊤ };

    /// Whether printing allocates memory of its own, apart from the buffer's.
    ghost takes_memory: { Bool } = { false };

    /// Whether the table fits: the error is the first misfit. Allocates nothing.
    fn fits(&self) -> Result<(), Misfit>
        ensures exact { result ≡ unless_misfit (misfit self.now) }
        ensures fits { IsOk result → misfit self.now ≡ None }
        ensures empty { is_empty self.now ≡ true → IsOk result };

    /// Appends the picture of a table that fits.
    fn build<A: Allocator>(self, buf: &mut String<A>) -> Result<(), AllocError>
        requires readable { is_readable self }
        requires fits { misfit self ≡ None }
        ensures appends { takes_memory ≡ false → Appends buf.old buf.new result (picture self) }
        ensures or_nothing { AppendsOrNothing buf.old buf.new result (picture self) }
        ensures empty { is_empty self ≡ true → IsOk result × (buf.new ≡ buf.old) };

    /// Appends the picture of the table, if it fits: `fits`, and then `build`. Precondition: its
    /// records are readable, as records in memory always are.
    ///
    /// A table that doesn't fit is refused with what `fits` returns, and the buffer is unchanged.
    /// After out of memory the buffer has gained a beginning of the picture; a printer that
    /// allocates memory of its own may also leave it unchanged. A table with no rows or no columns
    /// fits, and leaves the buffer unchanged.
    final fn print<A: Allocator>(self, buf: &mut String<A>) -> Result<(), PrintFault>
        requires readable { is_readable self }
        ensures prints { takes_memory ≡ false → Prints (misfit self) buf.old buf.new result (picture self) }
        ensures or_nothing { PrintsOrNothing (misfit self) buf.old buf.new result (picture self) }
        ensures printed { OnOk result (string_bytes buf.new ≡ string_bytes buf.old ++ picture self) }
        ensures misfit { (m : _) → (result ≡ Err (PrintFault.Misfit m)) ↔ (misfit self ≡ Some m) }
        ensures empty { is_empty self ≡ true → IsOk result × (buf.new ≡ buf.old) }
    {
        self.fits()?;
        self.build(buf)?;
        Ok(())
    }

    /// The picture of the table as a text of its own, under the precondition of `print`. A table
    /// with no rows or no columns allocates nothing.
    final fn text<A: Allocator>(self, alloc: A) -> Result<String<A>, PrintFault>
        requires readable { is_readable self }
        ensures misfit { (m : _) → (result ≡ Err (PrintFault.Misfit m)) ↔ (misfit self ≡ Some m) }
        ensures text { IfOk result (λ text. string_bytes text ≡ picture self) }
        ensures empty { is_empty self ≡ true → IsOk result }
    {
        let mut text = String::new(alloc);
        self.print(&mut text)?;
        Ok(text)
    }
}
