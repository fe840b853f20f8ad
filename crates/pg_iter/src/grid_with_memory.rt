//! The streaming grid and the memory for its open cells, which together print a table.

ghost use Rattle.std.specs.Prelude.{true};
ghost use Rattle.pg_picture.specs.Fits.{misfit_of};
ghost use Rattle.pg_picture.specs.Picture.{picture};
ghost use Rattle.pg_picture.specs.Shown.{unshown_of};
ghost use Rattle.pg_picture.specs.Table.{is_empty};
ghost use Rattle.pg_iter.specs.IterGrids.{MayBeRead, streamed, told};

use crate::grid::IterGrid;
use pg_config::SpannedConfig;
use pg_layout::{Colors, Dimension, ExactRecords, PeekableRecords};
use pg_picture::fits::Misfit;
use pg_picture::shown::Unshown;
use pg_picture::{TablePrinter, WholePrinter};
use std::alloc::{AllocError, Allocator};

/// A grid, and the allocator for its open cells.
#[derive(Debug, Clone, Copy, Drop)]
pub struct GridWithMemory<G, A> {
    pub grid: G,
    pub memory: A,
}

impl<'a, R, D, C, B, M> TablePrinter for GridWithMemory<IterGrid<R, D, &'a SpannedConfig<B>, C>, M>
where
    R: PeekableRecords + ExactRecords + Drop,
    D: Dimension + Drop,
    C: Colors + Drop,
    B: Allocator,
    M: Allocator,
{
    ghost picture = { λ it. picture (told R.Records it.grid) (streamed R.Records D.Dimension C.Colors it.grid) };

    ghost misfit = { λ it. misfit_of (streamed R.Records D.Dimension C.Colors it.grid) };

    ghost is_empty = { λ it. is_empty (streamed R.Records D.Dimension C.Colors it.grid) };

    ghost is_readable = { λ it. MayBeRead R.Records it.grid };

    ghost takes_memory = { true };

    fn fits(&self) -> Result<(), Misfit> {
        self.grid.fits()
    }

    fn build<A: Allocator>(self, buf: &mut String<A>) -> Result<(), AllocError> {
        self.grid.build(self.memory, buf)
    }
}

impl<'a, R, D, C, B, M> WholePrinter for GridWithMemory<IterGrid<R, D, &'a SpannedConfig<B>, C>, M>
where
    R: PeekableRecords + ExactRecords + Drop,
    D: Dimension + Drop,
    C: Colors + Drop,
    B: Allocator,
    M: Allocator,
{
    ghost unshown = { λ it. unshown_of (streamed R.Records D.Dimension C.Colors it.grid) };

    fn shows_all(&self) -> Result<(), Unshown> {
        self.grid.shows_all()
    }
}
