//! The crossings and the horizontals of a separator.

ghost use Rattle.std.specs.Prelude.{◌≡◌, map, IfOk};
ghost use Rattle.std.specs.List.{range_with_len};
ghost use Rattle.pg_layout.specs.Colors.{lent_color};
ghost use Rattle.pg_config.specs.Config.{get_horizontal};
ghost use Rattle.pg_picture.specs.Appending.{Appends};
ghost use Rattle.pg_picture.specs.Inside.{items_after, last_color};
ghost use Rattle.pg_picture.specs.Table.{border_glyph, border_items, crossing_at};

use crate::run::Run;
use pg_config::SpannedConfig;
use pg_layout::{ANSIBuf, Position};
use std::alloc::{AllocError, Allocator};

impl<'a, B: Allocator> Run<'a, ANSIBuf<B>> {
    /// Appends the crossing of a place in a table of `size` rows and columns; nothing if its column
    /// line doesn't exist or it has no glyph.
    #[tactic(auto, unfolding(crate::specs::Table::crossing_at), using(crate::proofs::Separators::one_item))]
    #[inline(always)]
    pub fn crossing<A: Allocator>(
        self,
        buf: &mut String<A>,
        config: &'a SpannedConfig<B>,
        pos: Position,
        size: (usize, usize),
    ) -> Result<Run<'a, ANSIBuf<B>>, AllocError>
        ensures appends { Appends buf.old buf.new result (items_after self.entry (crossing_at config.now size.0 size.1 pos)) }
        ensures color { IfOk result (λ run. run ≡ last_color self.entry (crossing_at config.now size.0 size.1 pos)) }
    {
        if !config.has_vertical(pos.col, size.1) {
            return Ok(self);
        }
        match config.get_intersection(pos, size) {
            None => Ok(self),
            Some(glyph) => self.glyph(buf, glyph, config.get_intersection_color(pos, size)),
        }
    }

    /// Appends the horizontal of a place, `width` columns wide, in a table of `rows` rows: its
    /// glyph repeatedly, except where single glyphs or their colours were set, and spaces if it has
    /// no glyph.
    #[inline(always)]
    pub fn border<A: Allocator>(
        self,
        buf: &mut String<A>,
        config: &'a SpannedConfig<B>,
        pos: Position,
        width: usize,
        rows: usize,
    ) -> Result<Run<'a, ANSIBuf<B>>, AllocError>
        ensures appends { Appends buf.old buf.new result (items_after self.entry (border_items config.now pos rows width (get_horizontal config.now pos rows))) }
        ensures color { IfOk result (λ run. run ≡ last_color self.entry (border_items config.now pos rows width (get_horizontal config.now pos rows))) }
    {
        match config.get_horizontal(pos, rows) {
            None => self.spaces(buf, width),
            Some(glyph) => {
                let color = config.get_horizontal_color(pos, rows);
                push_glyphs(self, buf, config, pos, width, glyph, color)
            }
        }
    }
}

fn push_glyphs<'a, A: Allocator, B: Allocator>(
    run: Run<'a, ANSIBuf<B>>,
    buf: &mut String<A>,
    config: &SpannedConfig<B>,
    pos: Position,
    width: usize,
    glyph: char,
    color: Option<&'a ANSIBuf<B>>,
) -> Result<Run<'a, ANSIBuf<B>>, AllocError>
    ensures appends { Appends buf.old buf.new result (items_after run.entry (map (border_glyph config.now pos width glyph (lent_color (λ c. c) color.entry)) (range_with_len 0 width))) }
    ensures color { IfOk result (λ after. after ≡ last_color run.entry (map (border_glyph config.now pos width glyph (lent_color (λ c. c) color.entry)) (range_with_len 0 width))) }
{
    if config.is_overridden_horizontal(pos) {
        return push_single_glyphs(run, buf, config, pos, width, glyph, color);
    }
    run.repeated_glyph(buf, glyph, width, color)
}

fn push_single_glyphs<'a, A: Allocator, B: Allocator>(
    mut run: Run<'a, ANSIBuf<B>>,
    buf: &mut String<A>,
    config: &SpannedConfig<B>,
    pos: Position,
    width: usize,
    glyph: char,
    color: Option<&'a ANSIBuf<B>>,
) -> Result<Run<'a, ANSIBuf<B>>, AllocError>
    ensures appends { Appends buf.old buf.new result (items_after run.entry (map (border_glyph config.now pos width glyph (lent_color (λ c. c) color.entry)) (range_with_len 0 width))) }
    ensures color { IfOk result (λ after. after ≡ last_color run.entry (map (border_glyph config.now pos width glyph (lent_color (λ c. c) color.entry)) (range_with_len 0 width))) }
{
    for i in 0..width {
        let single = config
            .lookup_horizontal_char(pos, i, width)
            .unwrap_or(glyph);
        let offset = config.lookup_horizontal_color(pos, i, width);
        run = run.offset_glyph(buf, single, color, offset)?;
    }
    Ok(run)
}
