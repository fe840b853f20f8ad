//! Crossings that follow merged cells.

ghost use Rattle.std.specs.Prelude.{◌≡◌, [], OnOk, OnErr, IsOk};
ghost use Rattle.pg_config.specs.Crossings.{span_crossing, with_crossings};

use crate::crossings::{glyphs_of, marks_of};
use crate::spanned::SpannedConfig;
use pg_layout::Borders;
use std::alloc::{AllocError, Allocator};

impl<A: Allocator + Copy> SpannedConfig<A> {
    /// Overrides each crossing on the edge of a cell with a span, in a table of `size` rows and
    /// columns, by the glyph of the lines that meet there: `top_intersection` below a merged heading,
    /// `bottom_intersection` above one, `left_intersection` and `right_intersection` beside a cell of
    /// several rows, and where two such cells touch the glyph of the line that goes on.
    ///
    /// A crossing at a corner of such a cell stays unchanged, and so does one whose glyph these
    /// borders lack, or whose lines don't both exist. If memory is refused, nothing changes;
    /// without spans nothing is allocated. The time is that of the edges of the spans.
    ///
    /// A span that is set later changes no crossing: call this last.
    pub fn set_span_crossings(
        &mut self,
        alloc: A,
        size: (usize, usize),
        borders: Borders<char>,
    ) -> Result<(), AllocError>
        ensures ok { OnOk result (self.new ≡ record self.old { overrides = with_crossings size.0 size.1 (span_crossing self.old borders size.0 size.1) self.old.overrides }) }
        ensures err { OnErr result (self.new ≡ self.old) }
        ensures nothing { self.old.spans ≡ [] → IsOk result }
    {
        let marks = marks_of(alloc, self.spans(), size)?;
        let glyphs = glyphs_of(alloc, self, &marks, &borders, size)?;
        // Shows that they are in order.
        marks.stand_in_order();
        glyphs.stand_in_order();
        self.overrides.set_crossings(&glyphs)
    }
}
