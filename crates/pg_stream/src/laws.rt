//! Laws of printers of rows. The functions do nothing: their contracts are the laws.

ghost use Rattle.pg_stream.specs.Laws.{RowsMakeThePicture, LiveRowsMakeThePicture, RowsCountTheirLines, SizedRowsMakeThePicture, FittingTablesMayBePrinted};

/// All rows of a table whose spans fit it, printed one after another, and then the end, are its
/// picture: with the number of rows that of looked-up printing, without it the one in which side
/// margins with an offset from the end are whole.
#[tactic(auto, using(crate::proofs::PicturesOfRows::pictures_of_rows))]
pub fn rows_make_the_picture()
    ensures { RowsMakeThePicture }
{}

/// All rows of a table whose spans fit it, printed one after another without declaring one the
/// last, and then the end, are its picture, in which side margins with an offset from the end are
/// whole.
#[tactic(auto, using(crate::proofs::PicturesOfRows::pictures_of_rows))]
pub fn live_rows_make_the_picture()
    ensures { LiveRowsMakeThePicture }
{}

/// The lines of a printer are those of its rows, by their heights: before the first row, and after
/// each.
#[tactic(auto, using(crate::proofs::SizedRows::lines_of_sized_rows))]
pub fn rows_count_their_lines()
    ensures { RowsCountTheirLines }
{}

/// All rows of a table whose spans fit it, pushed one after another into a [`SizedStream`], each
/// with its height, and then the end, are its picture, in which side margins with an offset from
/// the end are whole.
///
/// [`SizedStream`]: crate::SizedStream
pub fn sized_rows_make_the_picture()
    ensures { SizedRowsMakeThePicture }
{}

/// A table that fits (`pg_picture::fits::table_fits`) may be printed row by row: its printer may be
/// made, with the number of rows or without it, and each of its rows may be printed when it comes.
#[tactic(auto, using(crate::proofs::PicturesOfRows::pictures_of_rows))]
pub fn tables_that_fit_may_be_printed()
    ensures { FittingTablesMayBePrinted }
{}
