//! Worked scripts, each beside what `pgshow` prints for it. The functions do nothing: their
//! contracts say that the definitions give the texts written here.
#![tactic(auto, unfolding(crate::proofs::ScriptTables::answer_words))]

ghost use Rattle.std.specs.Prelude.{◌≡◌, ◌++◌, ◌∷◌, ℕ, List, [], Err, Ok, codes};
ghost use Rattle.pg_picture.specs.declared.fits.Misfit.TheVariants.{Room};
ghost use Rattle.pg_show.specs.Program.{answer_to};
ghost use Rattle.pg_show.specs.declared.fault.Fault.TheVariants.{Bad, Misfit, Usage};

/// A script prints its picture and a line feed.
///
/// ```text
/// +-+--+
/// |a|  |
/// +-+--+
/// | |b |
/// | |cd|
/// +-+--+
/// ```
///
/// The `a` is red.
pub fn a_script_is_answered_by_its_picture()
    ensures looked_up { let script : List ℕ = codes "size 2 2\nwidths 1 2\nheights 1 2\nborders ascii\ncell 0 0 a\ncell 1 1 b\\ncd\ncolor 0 0 31" in
        answer_to (codes "peek" ∷ []) script ≡ Ok (codes "+-+--+\n|" ++ 27 ∷ codes "[31ma" ++ 27 ∷ codes "[0m|  |\n+-+--+\n| |b |\n| |cd|\n+-+--+\n") }
    ensures read_once { answer_to (codes "iter" ∷ []) (codes "size 2 1\nwidths 1\ncell 0 0 a\ncell 1 0 b") ≡ Ok (codes "a\nb\n") }
    ensures misfit { answer_to (codes "peek" ∷ []) (codes "size 1 2\ncell 0 1 a") ≡ Err (Misfit (Room 0 1)) }
    ensures bad { answer_to (codes "peek" ∷ []) (codes "size 1 2\n\nsell 0 1 a") ≡ Err (Bad 3) }
    ensures no_mode { answer_to [] (codes "size 1") ≡ Err Usage }
{}

/// A compact table uses the settings for all cells, and the first line of each text. A table at its
/// natural sizes uses no widths and no borders, either. Neither uses heights, spans, trims, or
/// settings of one row.
///
/// ```text
/// compact    table
/// +----+     +----+
/// |  a |     |  a |
/// |----|     +----+
/// |   b|     | b  |
/// +----+     | cde|
///            +----+
/// ```
pub fn other_lines_are_read_and_not_used()
    ensures compact { let script : List ℕ = codes "size 2 1\nwidths 4\nheights 0 5\nborders ascii\nhalign all right\nhalign row 1 left\nvalign all bottom\n"
        ++ codes "pad all 1 0 0 0\npad row 1 0 0 1 1\ntrim all hv\nlines all on\nspan 0 0 2 1\ncell 0 0 a \ncell 1 0 b\\ncde" in
        answer_to (codes "compact" ∷ []) script ≡ Ok (codes "+----+\n|  a |\n|----|\n|   b|\n+----+\n") }
    ensures natural { let script : List ℕ = codes "size 2 1\nwidths 9\nheights 0 5\nborders none\nhalign all right\nhalign row 1 left\nvalign all bottom\n"
        ++ codes "pad all 1 0 0 0\npad row 1 0 0 1 1\ntrim all hv\nlines all on\nspan 0 0 2 1\ncell 0 0 a \ncell 1 0 b\\ncde" in
        answer_to (codes "table" ∷ []) script ≡ Ok (codes "+----+\n|  a |\n+----+\n| b  |\n| cde|\n+----+\n") }
{}
