//! Titles over the lines of a table.

ghost use Rattle.std.specs.Prelude.{◌≡◌, ◌==◌, ◌&&◌, not, false, ℕ, List, [], map, chars, encode_utf8, length, Some, None, Err, OnOk, OnErr, IfOk, IsOk, if◌then◌else◌};
ghost use Rattle.pg_layout.specs.declared.alignment.AlignmentHorizontal.{AlignmentHorizontal};
ghost use Rattle.pg_layout.specs.Colors.{Color as Texts};
ghost use Rattle.pg_layout.specs.Records.{columns_of};
ghost use Rattle.pg_layout.specs.Terminal.{color_texts};
ghost use Rattle.pg_layout.specs.Text.{width_of};
ghost use Rattle.pg_config.specs.Config.{has_horizontal};
ghost use Rattle.pg_table.specs.OwnRows.{captioned, own_sizes, own_sizes_fault, titled, titled_at, titled_in};
ghost use Rattle.pg_table.specs.declared.sizes.Axis.TheVariants.{Columns};
ghost use Rattle.pg_table.specs.Panels.{title_glyph, title_room, title_start, with_title_color, with_title_glyphs};

use crate::fault::TableFault;
use crate::table::Table;
use pg_config::SpannedConfig;
use pg_layout::{ANSIBuf, AlignmentHorizontal, Color, ConstantDimension, get_line_width};
use pg_picture::calculate_indent;
use std::alloc::{AllocError, Allocator};
use std::convert::AsStr;

impl<T: AsStr + Drop, A: Allocator + Copy> Table<T, A> {
    /// Puts a title over the glyphs of row line `row`, where 0 is the line above row 0, between the
    /// first column line and the last one: at the left, at the right or in the middle, at the
    /// columns' current widths. A title that is too long is cut there.
    ///
    /// A line feed, or a character that doesn't take one column, becomes `�`. A line that doesn't
    /// exist gets no title, and what a merged cell hides of a line stays hidden. Call it last: a
    /// later text or setting doesn't move the title.
    ///
    /// The error is that of the natural sizes ([`Table::natural_dimension`]), or `Memory`; then
    /// nothing changes. An empty title, or one over a line that doesn't exist, allocates nothing.
    ///
    /// ```text
    /// table.set_title(alloc, 0, "Orders", AlignmentHorizontal::Center)?; // ╭─Orders─╮
    /// ```
    pub fn set_title(
        &mut self,
        alloc: A,
        row: usize,
        title: &str,
        side: AlignmentHorizontal,
    ) -> Result<(), TableFault>
        ensures ok { OnOk result (self.new ≡ titled row side title.now T.text self.old) }
        ensures err { OnErr result (self.new ≡ self.old) }
        ensures fault { (fault : TableFault) → own_sizes_fault T.text self.old ≡ Some fault → result ≡ Err fault }
        ensures memory { (fault : TableFault) → own_sizes_fault T.text self.old ≡ None → result ≡ Err fault → fault ≡ TableFault.Memory }
        ensures empty { title.now ≡ [] → own_sizes_fault T.text self.old ≡ None → IsOk result }
        ensures absent { has_horizontal self.old.config row (length self.old.rows) ≡ false → own_sizes_fault T.text self.old ≡ None → IsOk result }
    {
        if !self.shows_title(row, title) {
            return match self.sizes_fault() {
                Some(fault) => Err(fault),
                None => Ok(()),
            };
        }
        let dimension = self.natural_dimension(alloc)?;
        match self.set_title_at(alloc, row, title, side, &dimension) {
            Ok(()) => Ok(()),
            Err(error) => Err(error.into()),
        }
    }

    // Whether a title over row line `row` is seen: it has a character, and the line exists.
    #[tactic(auto, using(crate::proofs::StraightTables::untitled_lines))]
    fn shows_title(&self, row: usize, title: &str) -> bool
        ensures same { result ≡ false → (side : AlignmentHorizontal) (widths : List ℕ) → titled_at row side title.now widths self.now ≡ self.now }
        ensures colorless { result ≡ false → (side : AlignmentHorizontal) (color : Texts) (widths : List ℕ) → titled_in color row side title.now widths self.now ≡ self.now }
        ensures empty { title.now ≡ [] → result ≡ false }
        ensures absent { has_horizontal self.now.config row (length self.now.rows) ≡ false → result ≡ false }
    {
        if title.is_empty() {
            return false;
        }
        self.config.has_horizontal(row, self.count_rows())
    }

    /// Puts a title over row line `row` ([`Table::set_title`]) where columns have these widths, such
    /// as those of a table within a width.
    ///
    /// If memory is refused, nothing changes. An empty title, or one over a line that doesn't exist,
    /// allocates nothing.
    ///
    /// ```text
    /// let sizes = table.within(alloc, 40, how)?.natural_dimension(alloc)?;
    /// table.set_title_at(alloc, 0, "Orders", AlignmentHorizontal::Left, &sizes)?;
    /// table.within(alloc, 40, how)?.print(alloc, &mut buf)?;
    /// ```
    pub fn set_title_at<B: Allocator>(
        &mut self,
        alloc: A,
        row: usize,
        title: &str,
        side: AlignmentHorizontal,
        dimension: &ConstantDimension<B>,
    ) -> Result<(), AllocError>
        ensures ok { OnOk result (self.new ≡ titled_at row side title.now dimension.now.0.items self.old) }
        ensures err { OnErr result (self.new ≡ self.old) }
        ensures empty { title.now ≡ [] → IsOk result }
        ensures absent { has_horizontal self.old.config row (length self.old.rows) ≡ false → IsOk result }
    {
        if self.shows_title(row, title) {
            let glyphs = title_glyphs(alloc, title)?;
            return self.set_title_glyphs(alloc, row, side, dimension, &glyphs);
        }
        Ok(())
    }

    // Puts the glyphs of a title over row line `row`, for columns of these widths.
    fn set_title_glyphs<B: Allocator>(
        &mut self,
        alloc: A,
        row: usize,
        side: AlignmentHorizontal,
        dimension: &ConstantDimension<B>,
        glyphs: &[char],
    ) -> Result<(), AllocError>
        ensures ok { OnOk result (self.new ≡ record self.old {
          config = with_title_glyphs row side glyphs.now dimension.now.0.items (length self.old.rows) (columns_of self.old.rows) self.old.config;
        }) }
        ensures err { OnErr result (self.new ≡ self.old) }
    {
        let size = self.size();
        let start = title_start(&self.config, size.1, &dimension.0, side, glyphs.len());
        self.config
            .set_line_glyphs(alloc, row, size, dimension, start, glyphs)
    }

    /// Puts a caption over the line below the last row, as [`Table::set_title`] puts a title.
    ///
    /// ```text
    /// table.set_caption(alloc, "2 items", AlignmentHorizontal::Right)?; // ╰──2 items╯
    /// ```
    pub fn set_caption(
        &mut self,
        alloc: A,
        caption: &str,
        side: AlignmentHorizontal,
    ) -> Result<(), TableFault>
        ensures ok { OnOk result (self.new ≡ captioned side caption.now T.text self.old) }
        ensures err { OnErr result (self.new ≡ self.old) }
        ensures fault { (fault : TableFault) → own_sizes_fault T.text self.old ≡ Some fault → result ≡ Err fault }
        ensures memory { (fault : TableFault) → own_sizes_fault T.text self.old ≡ None → result ≡ Err fault → fault ≡ TableFault.Memory }
        ensures empty { caption.now ≡ [] → own_sizes_fault T.text self.old ≡ None → IsOk result }
    {
        let below = self.count_rows();
        self.set_title(alloc, below, caption, side)
    }

    /// Puts a caption over the line below the last row of a table by value ([`Table::set_caption`]).
    /// After an error the table is dropped.
    ///
    /// ```text
    /// let table = table.with_caption(alloc, "2 items", AlignmentHorizontal::Right)?;
    /// ```
    pub fn with_caption(
        self,
        alloc: A,
        caption: &str,
        side: AlignmentHorizontal,
    ) -> Result<Table<T, A>, TableFault>
        ensures ok { IfOk result (λ table. table ≡ captioned side caption.now T.text self) }
        ensures fault { (fault : TableFault) → own_sizes_fault T.text self ≡ Some fault → result ≡ Err fault }
        ensures memory { (fault : TableFault) → own_sizes_fault T.text self ≡ None → result ≡ Err fault → fault ≡ TableFault.Memory }
        ensures empty { caption.now ≡ [] → own_sizes_fault T.text self ≡ None → IsOk result }
    {
        let below = self.count_rows();
        self.with_title(alloc, below, caption, side)
    }

    /// Puts a title over row line `row` of a table by value ([`Table::set_title`]). After an error
    /// the table is dropped.
    ///
    /// ```text
    /// let table = table.with_title(alloc, 0, "Orders", AlignmentHorizontal::Left)?;
    /// ```
    pub fn with_title(
        mut self,
        alloc: A,
        row: usize,
        title: &str,
        side: AlignmentHorizontal,
    ) -> Result<Table<T, A>, TableFault>
        ensures ok { IfOk result (λ table. table ≡ titled row side title.now T.text self) }
        ensures fault { (fault : TableFault) → own_sizes_fault T.text self ≡ Some fault → result ≡ Err fault }
        ensures memory { (fault : TableFault) → own_sizes_fault T.text self ≡ None → result ≡ Err fault → fault ≡ TableFault.Memory }
        ensures empty { title.now ≡ [] → own_sizes_fault T.text self ≡ None → IsOk result }
        ensures absent { has_horizontal self.config row (length self.rows) ≡ false → own_sizes_fault T.text self ≡ None → IsOk result }
    {
        match self.set_title(alloc, row, title, side) {
            Ok(()) => Ok(self),
            Err(fault) => Err(fault),
        }
    }

    /// Puts a title in this colour over row line `row` of a table by value ([`Table::set_title`]): its
    /// columns of the line get the colour. After an error the table is dropped.
    ///
    /// ```text
    /// let table = table.with_colored_title(alloc, 0, "Orders", AlignmentHorizontal::Left, Color::red())?;
    /// ```
    pub fn with_colored_title(
        self,
        alloc: A,
        row: usize,
        title: &str,
        side: AlignmentHorizontal,
        color: Color,
    ) -> Result<Table<T, A>, TableFault>
        ensures ok { IfOk result (λ table. table ≡ titled_in (color_texts color) row side title.now (own_sizes Columns T.text self) self) }
        ensures fault { (fault : TableFault) → own_sizes_fault T.text self ≡ Some fault → result ≡ Err fault }
        ensures memory { (fault : TableFault) → own_sizes_fault T.text self ≡ None → result ≡ Err fault → fault ≡ TableFault.Memory }
        ensures empty { title.now ≡ [] → own_sizes_fault T.text self ≡ None → IsOk result }
        ensures absent { has_horizontal self.config row (length self.rows) ≡ false → own_sizes_fault T.text self ≡ None → IsOk result }
    {
        if self.shows_title(row, title) {
            let dimension = self.natural_dimension(alloc)?;
            return Ok(self.with_colored_title_at(alloc, row, title, side, &dimension, color)?);
        }
        match self.sizes_fault() {
            Some(fault) => Err(fault),
            None => Ok(self),
        }
    }

    /// Puts a title in this colour over row line `row` of a table by value where columns have these
    /// widths ([`Table::set_title_at`]), such as those of a table within a width. After an error the
    /// table is dropped.
    ///
    /// ```text
    /// let sizes = table.within(alloc, 40, how)?.natural_dimension(alloc)?;
    /// let side = AlignmentHorizontal::Left;
    /// let table = table.with_colored_title_at(alloc, 0, "Orders", side, &sizes, Color::red())?;
    /// ```
    pub fn with_colored_title_at<B: Allocator>(
        mut self,
        alloc: A,
        row: usize,
        title: &str,
        side: AlignmentHorizontal,
        dimension: &ConstantDimension<B>,
        color: Color,
    ) -> Result<Table<T, A>, AllocError>
        ensures ok { IfOk result (λ table. table ≡ titled_in (color_texts color) row side title.now dimension.now.0.items self) }
        ensures empty { title.now ≡ [] → IsOk result }
        ensures absent { has_horizontal self.config row (length self.rows) ≡ false → IsOk result }
    {
        let is_shown = self.shows_title(row, title);
        if !is_shown {
            return Ok(self);
        }
        let color = color.to_ansi(alloc)?;
        let count = title.chars().count();
        self.color_title(alloc, row, side, dimension, count, &color)?;
        self.set_title_at(alloc, row, title, side, dimension)?;
        Ok(self)
    }

    // Colours the columns of a title of so many characters over row line `row`.
    #[tactic(auto, unfolding(crate::specs::Panels::with_title_color))]
    fn color_title<B: Allocator>(
        &mut self,
        alloc: A,
        row: usize,
        side: AlignmentHorizontal,
        dimension: &ConstantDimension<B>,
        count: usize,
        color: &ANSIBuf<A>,
    ) -> Result<(), AllocError>
        ensures ok { OnOk result (self.new ≡ record self.old {
          config = with_title_color row side count color.now dimension.now.0.items (length self.old.rows) (columns_of self.old.rows) self.old.config;
        }) }
        ensures err { OnErr result (self.new ≡ self.old) }
    {
        let (rows, columns) = self.size();
        let start = title_start(&self.config, columns, &dimension.0, side, count);
        self.config.set_line_color(alloc, row, (rows, columns), dimension, start, count, color)
    }
}

fn title_glyph(c: char) -> char
    ensures { result ≡ title_glyph c }
{
    let mut bytes = [0; 4];
    if c != '\n' && get_line_width(c.encode_utf8(&mut bytes)) == 1 {
        c
    } else {
        '�'
    }
}

// The glyphs for the characters of a title.
fn title_glyphs<A: Allocator>(alloc: A, title: &str) -> Result<Vec<char, A>, AllocError>
    ensures { IfOk result (λ glyphs. glyphs.items ≡ map title_glyph (chars title.now)) }
{
    let glyphs = title.chars().map(|c| title_glyph(c)).collect(alloc)?;
    Ok(glyphs)
}

// How many columns a row line has between the first column line and the last one, at most
// `usize::MAX`.
fn title_room<A: Allocator>(config: &SpannedConfig<A>, columns: usize, widths: &[usize]) -> usize
    ensures { result ≡ title_room config.now widths.now columns }
{
    let mut room = config.count_verticals(1, columns.saturating_sub(1), columns);
    for width in widths {
        room = room.saturating_add(*width);
    }
    room
}

fn title_start<A: Allocator>(
    config: &SpannedConfig<A>,
    columns: usize,
    widths: &[usize],
    side: AlignmentHorizontal,
    count: usize,
) -> usize
    ensures { result ≡ title_start side count (title_room config.now widths.now columns) }
{
    let room = title_room(config, columns, widths);
    let (left, _) = calculate_indent(side, count.min(room), room);
    left
}
