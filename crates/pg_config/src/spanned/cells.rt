//! The settings of cells, and the style of a cell.

ghost use Rattle.std.specs.Prelude.{◌≡◌, ⊤, option_map, OnOk, OnErr, IsOk, IsTrue, is_some};
ghost use Rattle.std.specs.Option.{ForSome};
ghost use Rattle.pg_config.specs.Settings.{no_settings, with_setting, HasRoom, is_by_column};
ghost use Rattle.pg_config.specs.Config.{get_padding, get_padding_color, get_alignment_horizontal, get_alignment_vertical, get_formatting};
ghost use Rattle.pg_config.specs.Config.{get_justification, get_justification_color, has_padding_color, has_justification, has_one_style};
ghost use Rattle.pg_config.specs.Cells.{style_at, style_of, IsStyleOfAll};
ghost use Rattle.pg_config.specs.Common.{has_one_style_but_across, IsStyleButAcross, IsSidedByColumn};

use crate::settings::Settings;
use crate::spanned::SpannedConfig;
use pg_layout::{
    ANSIBuf, AlignmentHorizontal, AlignmentVertical, Entity, Formatting, Indent, Position, Sides,
};
use std::alloc::{AllocError, Allocator, Global};

/// The settings of cells: each for all of them, for rows, columns and single ones.
#[derive(Debug, Drop)]
pub(crate) struct Cells<A: Allocator> {
    pub(crate) padding: Settings<Sides<Indent>, A>,
    pub(crate) padding_color: Settings<Sides<Option<ANSIBuf<A>>>, A>,
    pub(crate) alignment_horizontal: Settings<AlignmentHorizontal, A>,
    pub(super) alignment_vertical: Settings<AlignmentVertical, A>,
    pub(super) trim_horizontal: Settings<bool, A>,
    pub(super) trim_vertical: Settings<bool, A>,
    pub(super) line_alignment: Settings<bool, A>,
    pub(super) justification: Settings<char, A>,
    pub(super) justification_color: Settings<Option<ANSIBuf<A>>, A>,
}

impl<A: Allocator + Copy> Cells<A> {
    /// No settings. Allocates nothing.
    pub(super) fn new(alloc: A) -> Cells<A>
        ensures { result ≡ record {
          padding = no_settings;
          padding_color = no_settings;
          alignment_horizontal = no_settings;
          alignment_vertical = no_settings;
          trim_horizontal = no_settings;
          trim_vertical = no_settings;
          line_alignment = no_settings;
          justification = no_settings;
          justification_color = no_settings;
        } }
    {
        Cells {
            padding: Settings::new(alloc),
            padding_color: Settings::new(alloc),
            alignment_horizontal: Settings::new(alloc),
            alignment_vertical: Settings::new(alloc),
            trim_horizontal: Settings::new(alloc),
            trim_vertical: Settings::new(alloc),
            line_alignment: Settings::new(alloc),
            justification: Settings::new(alloc),
            justification_color: Settings::new(alloc),
        }
    }
}

impl<A: Allocator> SpannedConfig<A> {
    /// Sets the padding of cells: what separates their sides from their texts.
    pub fn set_padding(&mut self, entity: Entity, padding: Sides<Indent>) -> Result<(), AllocError>
    where
        A: Clone,
        ensures ok { OnOk result (self.new ≡ record self.old { padding = with_setting entity padding self.old.padding }) }
        ensures err { OnErr result (self.new ≡ self.old) }
        ensures global { entity ≡ Entity.Global → IsOk result }
        ensures again { HasRoom entity self.old.padding → IsOk result }
    {
        self.cells.padding.set(entity, padding)
    }

    /// The padding of a cell.
    #[tactic(auto, unfolding(crate::specs::Config::get_padding))]
    #[inline(always)]
    pub fn get_padding(&self, pos: Position) -> Sides<Indent>
        ensures { result ≡ get_padding self.now pos }
    {
        let default = Sides::filled(Indent::zero());
        self.cells.padding.get(pos).copied().unwrap_or(default)
    }

    /// Sets the colours of paddings.
    pub fn set_padding_color(
        &mut self,
        entity: Entity,
        color: Sides<Option<ANSIBuf<A>>>,
    ) -> Result<(), AllocError>
    where
        A: Clone,
        ensures ok { OnOk result (self.new ≡ record self.old { padding_color = with_setting entity color self.old.padding_color }) }
        ensures err { OnErr result (self.new ≡ self.old) }
        ensures global { entity ≡ Entity.Global → IsOk result }
        ensures again { HasRoom entity self.old.padding_color → IsOk result }
    {
        self.cells.padding_color.set(entity, color)
    }

    /// The colours of a cell's padding.
    #[tactic(auto, unfolding(crate::specs::Config::get_padding_color))]
    #[inline(always)]
    pub fn get_padding_color(&self, pos: Position) -> &Sides<Option<ANSIBuf<A>>>
        ensures { result.now ≡ get_padding_color self.now pos }
    {
        match self.cells.padding_color.get(pos) {
            Some(color) => color,
            None => &self.no_colors,
        }
    }

    /// Whether the colour of a padding was set.
    #[tactic(auto, unfolding(crate::specs::Config::has_padding_color))]
    pub fn has_padding_color(&self) -> bool
        ensures { result ≡ has_padding_color self.now }
    {
        self.cells.padding_color.is_set()
    }

    /// Sets the horizontal alignment of texts.
    pub fn set_alignment_horizontal(
        &mut self,
        entity: Entity,
        alignment: AlignmentHorizontal,
    ) -> Result<(), AllocError>
    where
        A: Clone,
        ensures ok { OnOk result (self.new ≡ record self.old { alignment_horizontal = with_setting entity alignment self.old.alignment_horizontal }) }
        ensures err { OnErr result (self.new ≡ self.old) }
        ensures global { entity ≡ Entity.Global → IsOk result }
        ensures again { HasRoom entity self.old.alignment_horizontal → IsOk result }
    {
        self.cells.alignment_horizontal.set(entity, alignment)
    }

    /// The horizontal alignment of a cell's text.
    #[tactic(auto, unfolding(crate::specs::Config::get_alignment_horizontal))]
    #[inline(always)]
    pub fn get_alignment_horizontal(&self, pos: Position) -> AlignmentHorizontal
        ensures { result ≡ get_alignment_horizontal self.now pos }
    {
        self.cells
            .alignment_horizontal
            .get(pos)
            .copied()
            .unwrap_or(AlignmentHorizontal::Left)
    }

    /// Sets the vertical alignment of texts.
    pub fn set_alignment_vertical(
        &mut self,
        entity: Entity,
        alignment: AlignmentVertical,
    ) -> Result<(), AllocError>
    where
        A: Clone,
        ensures ok { OnOk result (self.new ≡ record self.old { alignment_vertical = with_setting entity alignment self.old.alignment_vertical }) }
        ensures err { OnErr result (self.new ≡ self.old) }
        ensures global { entity ≡ Entity.Global → IsOk result }
        ensures again { HasRoom entity self.old.alignment_vertical → IsOk result }
    {
        self.cells.alignment_vertical.set(entity, alignment)
    }

    /// The vertical alignment of a cell's text.
    #[tactic(auto, unfolding(crate::specs::Config::get_alignment_vertical))]
    #[inline(always)]
    pub fn get_alignment_vertical(&self, pos: Position) -> AlignmentVertical
        ensures { result ≡ get_alignment_vertical self.now pos }
    {
        self.cells
            .alignment_vertical
            .get(pos)
            .copied()
            .unwrap_or(AlignmentVertical::Top)
    }

    /// Sets whether each line of a text is trimmed of white space.
    pub fn set_trim_horizontal(&mut self, entity: Entity, trims: bool) -> Result<(), AllocError>
    where
        A: Clone,
        ensures ok { OnOk result (self.new ≡ record self.old { trim_horizontal = with_setting entity trims self.old.trim_horizontal }) }
        ensures err { OnErr result (self.new ≡ self.old) }
        ensures global { entity ≡ Entity.Global → IsOk result }
        ensures again { HasRoom entity self.old.trim_horizontal → IsOk result }
    {
        self.cells.trim_horizontal.set(entity, trims)
    }

    /// Sets whether blank lines at the start and at the end of a text are left out.
    pub fn set_trim_vertical(&mut self, entity: Entity, trims: bool) -> Result<(), AllocError>
    where
        A: Clone,
        ensures ok { OnOk result (self.new ≡ record self.old { trim_vertical = with_setting entity trims self.old.trim_vertical }) }
        ensures err { OnErr result (self.new ≡ self.old) }
        ensures global { entity ≡ Entity.Global → IsOk result }
        ensures again { HasRoom entity self.old.trim_vertical → IsOk result }
    {
        self.cells.trim_vertical.set(entity, trims)
    }

    /// Sets whether each line of a text is aligned by its own width.
    pub fn set_line_alignment(&mut self, entity: Entity, aligns: bool) -> Result<(), AllocError>
    where
        A: Clone,
        ensures ok { OnOk result (self.new ≡ record self.old { line_alignment = with_setting entity aligns self.old.line_alignment }) }
        ensures err { OnErr result (self.new ≡ self.old) }
        ensures global { entity ≡ Entity.Global → IsOk result }
        ensures again { HasRoom entity self.old.line_alignment → IsOk result }
    {
        self.cells.line_alignment.set(entity, aligns)
    }

    /// How the lines of a cell's text are read and aligned.
    #[tactic(auto, unfolding(crate::specs::Config::get_formatting))]
    #[inline(always)]
    pub fn get_formatting(&self, pos: Position) -> Formatting
        ensures { result ≡ get_formatting self.now pos }
    {
        let cells = &self.cells;
        Formatting {
            horizontal_trim: cells.trim_horizontal.get(pos).copied().unwrap_or(false),
            vertical_trim: cells.trim_vertical.get(pos).copied().unwrap_or(false),
            allow_lines_alignment: cells.line_alignment.get(pos).copied().unwrap_or(false),
        }
    }

    /// Whether all cells have one style: no padding, alignment, trim or justification, and no colour
    /// of these, was set for a row, a column or a cell alone.
    #[tactic(auto, unfolding(crate::specs::Config::has_one_style))]
    pub fn has_one_style(&self) -> bool
        ensures { result ≡ has_one_style self.now }
    {
        let cells = &self.cells;
        (cells.padding.is_for_all() && cells.padding_color.is_for_all())
            && (cells.alignment_horizontal.is_for_all() && cells.alignment_vertical.is_for_all())
            && (cells.trim_horizontal.is_for_all()
                && (cells.trim_vertical.is_for_all() && cells.line_alignment.is_for_all()))
            && (cells.justification.is_for_all() && cells.justification_color.is_for_all())
    }

    /// Whether all cells have one style except for their horizontal alignments, as
    /// [`SpannedConfig::has_one_style`] tells it of the whole style.
    #[tactic(auto, unfolding(crate::specs::Common::has_one_style_but_across))]
    pub fn has_one_style_but_across(&self) -> bool
        ensures { result ≡ has_one_style_but_across self.now }
    {
        let cells = &self.cells;
        (cells.padding.is_for_all() && cells.padding_color.is_for_all())
            && cells.alignment_vertical.is_for_all()
            && (cells.trim_horizontal.is_for_all()
                && (cells.trim_vertical.is_for_all() && cells.line_alignment.is_for_all()))
            && (cells.justification.is_for_all() && cells.justification_color.is_for_all())
    }

    /// Whether each cell has the horizontal alignment of its column: none was set for a row or a cell
    /// alone.
    #[tactic(auto, using(crate::proofs::Rulesets::sided))]
    pub fn has_sides_by_column(&self) -> bool
        ensures set { result ≡ is_by_column self.now.alignment_horizontal }
        ensures sided { IsTrue result → IsSidedByColumn self.now }
    {
        self.cells.alignment_horizontal.is_by_column()
    }

    /// Sets the character that fills the room beside a text's lines.
    pub fn set_justification(&mut self, entity: Entity, fill: char) -> Result<(), AllocError>
    where
        A: Clone,
        ensures ok { OnOk result (self.new ≡ record self.old { justification = with_setting entity fill self.old.justification }) }
        ensures err { OnErr result (self.new ≡ self.old) }
        ensures global { entity ≡ Entity.Global → IsOk result }
        ensures again { HasRoom entity self.old.justification → IsOk result }
    {
        self.cells.justification.set(entity, fill)
    }

    /// The character that fills the room beside the lines of a cell's text.
    #[tactic(auto, unfolding(crate::specs::Config::get_justification))]
    #[inline(always)]
    pub fn get_justification(&self, pos: Position) -> char
        ensures { result ≡ get_justification self.now pos }
    {
        self.cells.justification.get(pos).copied().unwrap_or(' ')
    }

    /// Sets the colour of the room beside a text's lines, or none.
    pub fn set_justification_color(
        &mut self,
        entity: Entity,
        color: Option<ANSIBuf<A>>,
    ) -> Result<(), AllocError>
    where
        A: Clone,
        ensures ok { OnOk result (self.new ≡ record self.old { justification_color = with_setting entity color self.old.justification_color }) }
        ensures err { OnErr result (self.new ≡ self.old) }
        ensures global { entity ≡ Entity.Global → IsOk result }
        ensures again { HasRoom entity self.old.justification_color → IsOk result }
    {
        self.cells.justification_color.set(entity, color)
    }

    /// The colour of the room beside the lines of a cell's text.
    #[tactic(auto, unfolding(crate::specs::Config::get_justification_color))]
    #[inline(always)]
    pub fn get_justification_color(&self, pos: Position) -> Option<&ANSIBuf<A>>
        ensures { option_map (λ x. x.now) result ≡ get_justification_color self.now pos }
    {
        self.cells.justification_color.get(pos)?.as_ref()
    }

    /// Whether a justification or its colour was set.
    #[tactic(auto, unfolding(crate::specs::Config::has_justification))]
    pub fn has_justification(&self) -> bool
        ensures { result ≡ has_justification self.now }
    {
        self.cells.justification.is_set() || self.cells.justification_color.is_set()
    }
}

/// The style of a cell: the settings that hold at its place.
#[derive(Debug)]
pub struct CellStyle<'a, A: Allocator = Global> {
    /// How the lines of its text are read and aligned.
    pub formatting: Formatting,
    /// Its padding.
    pub padding: Sides<Indent>,
    /// The colours of the paddings.
    pub padding_color: &'a Sides<Option<ANSIBuf<A>>>,
    /// Its horizontal alignment.
    pub alignment_horizontal: AlignmentHorizontal,
    /// Its vertical alignment.
    pub alignment_vertical: AlignmentVertical,
    /// What fills the columns beside its lines.
    pub justification: char,
    /// The colour of these.
    pub justification_color: Option<&'a ANSIBuf<A>>,
}

impl<'a, A: Allocator> Clone for CellStyle<'a, A> {
    ghost is_clone = { λ x y. y ≡ x };

    ghost is_infallible = { λ _. ⊤ };

    fn clone(&self) -> Result<Self, AllocError> {
        Ok(*self)
    }
}

impl<'a, A: Allocator> Copy for CellStyle<'a, A> {}

impl<'a, A: Allocator> CellStyle<'a, A> {
    /// The style of the cell at a place.
    #[tactic(auto, unfolding(crate::specs::Cells::style_at))]
    #[inline(always)]
    pub fn of(config: &'a SpannedConfig<A>, pos: Position) -> CellStyle<'a, A>
        ensures { style_of result ≡ style_at config.now pos }
    {
        CellStyle {
            alignment_horizontal: config.get_alignment_horizontal(pos),
            alignment_vertical: config.get_alignment_vertical(pos),
            ..CellStyle::unaligned(config, pos)
        }
    }

    /// The style of the cell at a place, except for its alignments, which aren't looked up: left
    /// and top.
    #[tactic(auto, unfolding(crate::specs::Cells::style_at))]
    #[inline(always)]
    pub fn unaligned(config: &'a SpannedConfig<A>, pos: Position) -> CellStyle<'a, A>
        ensures { style_of result ≡ record (style_at config.now pos) { across = AlignmentHorizontal.Left; down = AlignmentVertical.Top } }
    {
        CellStyle {
            formatting: config.get_formatting(pos),
            padding: config.get_padding(pos),
            padding_color: config.get_padding_color(pos),
            alignment_horizontal: AlignmentHorizontal::Left,
            alignment_vertical: AlignmentVertical::Top,
            justification: config.get_justification(pos),
            justification_color: config.get_justification_color(pos),
        }
    }

    /// The style that all cells have, where no setting is for some of them.
    pub fn of_all(config: &'a SpannedConfig<A>) -> Option<CellStyle<'a, A>>
        ensures of { ForSome result (λ style. IsStyleOfAll config.now (style_of style)) }
        ensures there { is_some result ≡ has_one_style config.now }
    {
        if !config.has_one_style() {
            return None;
        }
        Some(CellStyle::of(config, Position::new(0, 0)))
    }

    /// The style that all cells have except for their horizontal alignments, where no other setting
    /// is for some of them.
    pub fn of_all_but_across(config: &'a SpannedConfig<A>) -> Option<CellStyle<'a, A>>
        ensures of { ForSome result (λ style. IsStyleButAcross config.now (style_of style)) }
        ensures there { is_some result ≡ has_one_style_but_across config.now }
    {
        if !config.has_one_style_but_across() {
            return None;
        }
        Some(CellStyle::of(config, Position::new(0, 0)))
    }

    /// This style with another horizontal alignment.
    #[inline(always)]
    pub fn aligned(self, side: AlignmentHorizontal) -> CellStyle<'a, A>
        ensures { style_of result ≡ record (style_of self.entry) { across = side } }
    {
        CellStyle {
            alignment_horizontal: side,
            ..self
        }
    }
}
