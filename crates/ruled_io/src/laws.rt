//! Laws of runs. The functions do nothing: their contracts are the laws.

ghost use Rattle.ruled_io.specs.Runs.{AtOnceShowsAsStreams, BothWaysFindOneFault, StreamsShowAsAtOnce};

/// If all rows of an input are among the first ones, the text of a stream is the text at once, byte for byte, and the
/// text at once is that of a stream. The same is wrong with the rows, or else with their table.
///
/// Left out is what a stream refuses: lists of tables, single JSON values, and the options that it doesn't have; and what is
/// wrong with a database. Without a given format, the first bytes must show it: what begins with `{` and is one JSON value is
/// streamed as lines.
pub fn both_ways_show_one_text()
    ensures streamed { StreamsShowAsAtOnce }
    ensures at_once { AtOnceShowsAsStreams }
    ensures wrong { BothWaysFindOneFault }
{}
