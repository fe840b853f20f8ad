//! The records of rows, which may go on in overflow pages.

ghost use Rattle.std.specs.Prelude.{◌≡◌, length, IfOk};
ghost use Rattle.ruled_database.specs.Listings.{stored_of};
ghost use Rattle.ruled_database.specs.Trees.{page, page_count, usable_size, Gives, GivesPage, chain, record_of};

use crate::fault::TableFault;
use crate::file::File;
use crate::tree::StoredRow;
use sqlite_format::bytes::get_u32;

/// The overflow pages of a file.
#[derive(Drop)]
pub(crate) struct Overflow<'a> {
    pub(crate) file: File<'a>,
    /// How many pages may still be read: no page of a sound file holds parts of two rows.
    pub(crate) left: usize,
}

impl<'a> Overflow<'a> {
    /// Those of a file, of which none is read yet.
    pub(crate) fn of(file: File<'a>) -> Overflow<'a>
        ensures file { result.file ≡ file.entry }
        ensures left { result.left ≡ page_count file.entry.bytes.now }
    {
        let left = file.pages();
        Overflow { file, left }
    }

    // The page of this number, which is one less to read.
    fn page(&mut self, number: u32) -> Result<&'a [u8], TableFault>
        ensures file { self.new.file ≡ self.old.file }
        ensures page { GivesPage (λ bytes. bytes.now) (page self.old.file.bytes.now number) self.old.left self.new.left result }
        ensures usable { IfOk result (λ bytes. length bytes.now ≡ usable_size self.old.file.bytes.now) }
    {
        if self.left == 0 {
            return Err(TableFault::Damage);
        }
        self.left -= 1;
        self.file.page(number).ok_or(TableFault::Damage)
    }

    // Appends so many bytes of a chain of overflow pages.
    fn read_chain(&mut self, first: u32, count: u64, bytes: &mut Vec<u8>) -> Result<(), TableFault>
        ensures file { self.new.file ≡ self.old.file }
        ensures bytes { Gives (chain self.old.file.bytes.now count first count) self.old.left self.new.left bytes.old.items bytes.new.items result }
    {
        let (mut number, mut left) = (first, count as usize);
        while left > 0 {
            let page = self.page(number)?;
            let rest = &page[4..];
            let here = &rest[..left.min(rest.len())];
            bytes.extend_from_slice(here)?;
            number = get_u32(page, 0);
            left -= here.len();
        }
        Ok(())
    }

    /// Appends the record of a row.
    pub(crate) fn read_record(
        &mut self,
        row: &StoredRow<'_>,
        bytes: &mut Vec<u8>,
    ) -> Result<(), TableFault>
        ensures file { self.new.file ≡ self.old.file }
        ensures bytes { Gives (record_of self.old.file.bytes.now (stored_of row.now)) self.old.left self.new.left bytes.old.items bytes.new.items result }
    {
        bytes.extend_from_slice(row.payload.local)?;
        self.read_chain(row.payload.overflow, row.payload.spilled, bytes)
    }
}
