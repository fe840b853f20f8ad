//! Laws of texts within widths: the contracts of functions that do nothing are the laws.

ghost use Rattle.pg_fit.specs.Laws.{LinesFit, NothingIsLost, OnlySpacesAreLost, FittingTextsStay, LinesStand, WrappedTextsFit, CutLinesFit, CutTextsStay, CutLinesStand};
ghost use Rattle.pg_fit.specs.Laws.{CutTextsFit, VisibleTextsStay, NoControlsAreLeft, SignsTakeOneColumn, FrontCutsFit, CutAwayLinesFit, CutAwayTextsStay};
ghost use Rattle.pg_fit.specs.Laws.{CutAwayLinesStand, CutAwayTextsFit, NoEscapesAreLeft, TextsWithoutEscapesStay, LineFeedsStay};
ghost use Rattle.std.specs.Prelude.{◌≡◌, ◌∷◌, ◌++◌, codes};
ghost use Rattle.pg_fit.specs.Cutting.{cut_away_text};
ghost use Rattle.pg_fit.specs.declared.cutting_away.Kept.TheVariants.{End, BothEnds};
ghost use Rattle.pg_fit.specs.Escapes.{without_escapes};
ghost use Rattle.pg_fit.specs.Narrowing.{FillsTheRoom, WithinRanges, IsEvenHanded, LimitsHold, StayNatural, EndAtLeast};

/// Each line of a wrapped text is at most as wide as allowed, unless a character is wider. Broken
/// between characters, the lines of a line together are that line; between words, up to spaces. A
/// text that fits stays.
#[tactic(auto, using(crate::proofs::LawsOfTexts::laws_of_lines))]
pub fn wrapped_lines_fit()
    ensures fit { LinesFit }
    ensures whole { NothingIsLost }
    ensures spaces { OnlySpacesAreLost }
    ensures stay { FittingTextsStay }
{}

/// The lines of a wrapped text are those into which its lines were broken, so it is at most as wide
/// as allowed, unless a character is wider.
#[tactic(auto, using(crate::proofs::LawsOfTexts::lines_stand, crate::proofs::LawsOfTexts::wrapped_texts_fit))]
pub fn wrapped_texts_fit()
    ensures lines { LinesStand }
    ensures fit { WrappedTextsFit }
{}

/// A cut text has as many lines as before, and a text that fits stays. Each line is at most as wide
/// as allowed, if the tail is printable ASCII and ellipses.
#[tactic(auto, using(crate::proofs::LawsOfCuts::laws_of_cuts))]
pub fn cut_texts_fit()
    ensures line { CutLinesFit }
    ensures stay { CutTextsStay }
    ensures lines { CutLinesStand }
    ensures fit { CutTextsFit }
{}

/// A text that is cut in front or in the middle has as many lines as before, and a text that fits
/// stays. Each line is at most as wide as allowed, if the tail is printable ASCII and ellipses; a line
/// that is cut in front, with any tail.
#[tactic(auto, using(crate::proofs::LawsOfCuts::laws_of_cuts_away))]
pub fn front_and_middle_cuts_fit()
    ensures front { FrontCutsFit }
    ensures line { CutAwayLinesFit }
    ensures stay { CutAwayTextsStay }
    ensures lines { CutAwayLinesStand }
    ensures fit { CutAwayTextsFit }
{}

/// A visible text has no control character, and a text without one stays. Each replacement takes
/// one column.
#[tactic(auto, using(crate::proofs::LawsOfControls::no_controls_are_left, crate::proofs::LawsOfControls::visible_texts_stay, crate::proofs::LawsOfControls::signs_take_one_column))]
pub fn visible_texts_are_seen()
    ensures none { NoControlsAreLeft }
    ensures stay { VisibleTextsStay }
    ensures column { SignsTakeOneColumn }
{}

/// A text without its escape sequences has no escape, and as many lines as before; and a text without
/// an escape stays.
#[tactic(auto, using(crate::proofs::LawsOfEscapes::no_escapes_are_left, crate::proofs::LawsOfEscapes::texts_without_escapes_stay, crate::proofs::LawsOfEscapes::line_feeds_stay))]
pub fn escapes_are_left_out()
    ensures none { NoEscapesAreLeft }
    ensures stay { TextsWithoutEscapesStay }
    ensures lines { LineFeedsStay }
{}

/// Narrowed widths add up to the room, unless the natural widths take less, or the least widths
/// more. Each lies between the least and the natural width of its column. No column is narrower by
/// two than another that could be narrower, unless it has its natural width. A limit holds, unless
/// the column can't be that narrow. Columns that fit have their natural widths, and those that
/// can't fit their least.
pub fn narrowed_widths_fill_the_room()
    ensures room { FillsTheRoom }
    ensures ranges { WithinRanges }
    ensures even { IsEvenHanded }
    ensures limits { LimitsHold }
    ensures natural { StayNatural }
    ensures least { EndAtLeast }
{}

/// Worked examples: a path that is cut in front, letters that are cut in the middle, and a word without
/// its colour.
pub fn ends_by_example()
    ensures front { cut_away_text End 6 (codes "..") (codes "lib/foo.rs") ≡ codes "..o.rs" }
    ensures middle { cut_away_text BothEnds 7 (codes "..") (codes "abcdefuvwxyz") ≡ codes "abc..yz" }
    ensures tail { cut_away_text BothEnds 2 (codes "...") (codes "abcd") ≡ codes ".." }
    ensures lines { cut_away_text End 2 (codes "-") (codes "abc" ++ 10 ∷ codes "de") ≡ codes "-c" ++ 10 ∷ codes "de" }
    ensures color { without_escapes (27 ∷ codes "[31mred" ++ 27 ∷ codes "[0m") ≡ codes "red" }
    ensures link { without_escapes (27 ∷ codes "]8;;x" ++ 7 ∷ codes "here" ++ 27 ∷ codes "]8;;" ++ 27 ∷ codes "\\") ≡ codes "here" }
    ensures broken { without_escapes (27 ∷ codes "[3" ++ 10 ∷ codes "b") ≡ 10 ∷ codes "b" }
{}
