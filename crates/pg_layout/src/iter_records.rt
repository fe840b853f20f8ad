//! Rows of cells that an iterator gives.

ghost use Rattle.std.specs.Prelude.{◌≡◌, None, Some, MatchOption};
ghost use Rattle.std.specs.Borrow.{ftrue};
ghost use Rattle.pg_layout.specs.Records.{Table, Gives, Becomes, IsGiven};

use crate::records::Records;
use std::convert::AsStr;
use std::iter::IntoIterator;
use std::marker::Model;

/// The rows of records that an iterator gives.
#[derive(Debug)]
pub struct IterRows<I> {
    pub(crate) iter: I,
}

// Written out, so that it is proved here, once for all iterators. A derived drop is proved by each
// program that drops such rows.
impl<I: Drop> Drop for IterRows<I> {
    fn drop(self) {
        let IterRows { iter } = self;
        drop(iter);
    }
}

impl<I: Iterator> Iterator for IterRows<I>
where
    I::Item: IntoIterator,
{
    type Item = <I::Item as IntoIterator>::IntoIter;

    ghost can_next = { λ s. I.can_next s.iter };

    ghost next_gives = { λ s r t. MatchOption r (I.next_gives s.iter None t.iter) (λ cells. (row : _) × I.next_gives s.iter (Some row) t.iter × I.Item.into_iter_gives row cells) };

    ghost remaining = { λ s. I.remaining s.iter };

    fn next(&mut self) -> Option<<I::Item as IntoIterator>::IntoIter> {
        match self.iter.next() {
            Some(row) => Some(row.into_iter()),
            None => None,
        }
    }
}

// The texts of rows. Only contracts see them: they take no bytes.
#[derive(Drop)]
struct Meaning {
    ghost texts: { Table },
}

impl Model for Meaning {
    ghost also_owns = { λ _. ftrue };
}

impl Meaning {
    fn new() -> Meaning
        ghost texts: { Table }
        ensures { result.texts ≡ texts }
    {
        Meaning {}
    }
}

/// Records that an iterator of rows gives. They are for callers who prove: their texts are a ghost
/// value, which a proof file picks, and whoever reads the records proves that the iterator gives
/// these texts.
///
/// Without a proof, rows of an iterator go into a `RowStream` (`pg_stream`), and rows in memory into
/// [`VecRecords`](crate::VecRecords).
#[derive(Drop)]
pub struct IterRecords<I> {
    iter: I,
    count_columns: usize,
    hint: Option<usize>,
    meaning: Meaning,
}

impl<I> Model for IterRecords<I> {
    ghost use Rattle.pg_layout.specs.Records.{Given};

    ghost Value = { Given I };

    ghost view = { λ r. record { iter = r.iter; texts = r.meaning.texts; columns = r.count_columns; hint = r.hint } };
}

impl<I> IterRecords<I> {
    /// Records of the rows that an iterator gives, each of which gives its cells by `IntoIterator`.
    /// Their texts are those of the cells, row by row.
    ///
    /// They are readable if the iterator gives these texts and ends, each row has as many cells as
    /// there are columns, and a hint is the number of rows.
    pub fn new(iter: I, count_columns: usize, hint: Option<usize>) -> IterRecords<I>
        ghost texts: { Table }
        ensures { result ≡ record { iter = iter; texts = texts; columns = count_columns; hint = hint } }
    {
        IterRecords {
            iter,
            count_columns,
            hint,
            meaning: Meaning::new(),
        }
    }
}

impl<I> Records for IterRecords<I>
where
    I: Iterator,
    I::Item: IntoIterator,
    <I::Item as IntoIterator>::Item: AsStr + Drop,
{
    type Cell = <I::Item as IntoIterator>::Item;

    type Columns = <I::Item as IntoIterator>::IntoIter;

    type Rows = IterRows<I>;

    ghost texts = { λ r. r.texts };

    ghost columns = { λ r. r.columns };

    ghost hint = { λ r. r.hint };

    ghost is_readable = { IsGiven (Gives
        (Becomes I.Item.into_iter_gives (Gives (λ x y. I.Item.Item.text x ≡ y) I.Item.IntoIter.can_next I.Item.IntoIter.next_gives I.Item.IntoIter.remaining))
        I.can_next I.next_gives I.remaining) };

    fn iter_rows(self) -> IterRows<I> {
        IterRows { iter: self.iter }
    }

    fn count_columns(&self) -> usize {
        self.count_columns
    }

    fn hint_count_rows(&self) -> Option<usize> {
        self.hint
    }
}
