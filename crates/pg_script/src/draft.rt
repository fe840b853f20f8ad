//! Tables as far as a script has described them.

ghost use Rattle.std.specs.Prelude.{◌≡◌};

use crate::cell_texts::CellTexts;
use crate::script::Script;
use crate::statement::{Size, Statement};
use pg_config::SpannedConfig;
use pg_layout::{ColorsMap, ConstantDimension};
use std::alloc::{AllocError, Allocator};

/// A table as far as a script has described it.
#[derive(Drop)]
pub(crate) struct Draft<A: Allocator> {
    pub(crate) size: Size,
    texts: CellTexts<A>,
    dimension: ConstantDimension<A>,
    colors: ColorsMap<A>,
    config: SpannedConfig<A>,
    ghost sized: { texts.size ≡ size },
}

impl<A: Allocator + Copy> Draft<A> {
    ghost use Rattle.std.specs.Prelude.{◌≡◌, IfOk, OnOk};
    ghost use Rattle.pg_script.specs.Draft.{told_of_draft};
    ghost use Rattle.pg_script.specs.Script.{told_of_script};
    ghost use Rattle.pg_script.specs.Statement.{FitsSize, change_of};
    ghost use Rattle.pg_script.specs.Told.{told_nothing};

    /// A table of empty cells, of width 0 and height 1 each.
    #[tactic(auto, unfolding(pg_config::specs::Config::default_config))]
    pub(crate) fn new(alloc: A, size: Size) -> Result<Draft<A>, AllocError>
        ensures size { IfOk result (λ draft. draft.size ≡ size) }
        ensures told { IfOk result (λ draft. told_of_draft draft ≡ told_nothing size) }
    {
        Ok(Draft {
            size,
            texts: CellTexts::empty(alloc, size)?,
            dimension: ConstantDimension(
                vec![in alloc; 0; size.columns]?,
                vec![in alloc; 1; size.rows]?,
            ),
            colors: ColorsMap::new(alloc),
            config: SpannedConfig::new(alloc),
        })
    }

    /// Changes the table as a statement says. After out of memory a part of the statement may have
    /// taken effect.
    pub(crate) fn follow(&mut self, statement: Statement<A>) -> Result<(), AllocError>
        requires { FitsSize self.old.size statement }
        ensures size { self.new.size ≡ self.old.size }
        ensures told { OnOk result (told_of_draft self.new ≡ change_of statement (told_of_draft self.old)) }
    {
        match statement {
            Statement::Widths(widths) => {
                self.dimension.0 = widths;
                Ok(())
            }
            Statement::Heights(heights) => {
                self.dimension.1 = heights;
                Ok(())
            }
            Statement::Cell(place, text) => {
                self.texts.set(place, text);
                Ok(())
            }
            Statement::Borders(borders) => {
                self.config.set_borders(borders);
                Ok(())
            }
            Statement::HorizontalAlignment(entity, alignment) => {
                self.config.set_alignment_horizontal(entity, alignment)
            }
            Statement::VerticalAlignment(entity, alignment) => {
                self.config.set_alignment_vertical(entity, alignment)
            }
            Statement::Padding(entity, padding) => self.config.set_padding(entity, padding),
            Statement::Trim(entity, horizontal, vertical) => {
                self.config.set_trim_horizontal(entity, horizontal)?;
                self.config.set_trim_vertical(entity, vertical)
            }
            Statement::Lines(entity, aligns) => self.config.set_line_alignment(entity, aligns),
            Statement::Margin(margin) => {
                self.config.set_margin(margin);
                Ok(())
            }
            Statement::Color(place, color) => self.colors.set(place, color),
            Statement::Span(place, rows, columns) => {
                self.config.set_row_span(place, rows)?;
                self.config.set_column_span(place, columns)
            }
        }
    }

    /// The script of this table.
    pub(crate) fn finish(self) -> Script<A>
        ensures { told_of_script result ≡ told_of_draft self }
    {
        Script {
            records: self.texts.into_records(),
            dimension: self.dimension,
            colors: self.colors,
            config: self.config,
        }
    }
}
