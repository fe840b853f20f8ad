//! Values by key, in the order of their keys, and colours, also those of cells: which of several counts, which are
//! the same, and what they need memory for.

use crate::case::CaseFault;
use crate::values::Fact;
use pg_layout::{
    ANSIBuf, ANSIFmt, ANSIStr, Colors, ColorsMap, NoColors, Places, Position, same_color,
};
use pg_testing::refusing::Refusing;
use pg_testing::report::Report;
use std::alloc::Global;

// The place in row 0 and column 7, which gets a value twice.
const TWICE: Position = Position { row: 0, col: 7 };

// The place behind it.
const NEXT: Position = Position { row: 0, col: 8 };

/// What is set at a place, and what was there before.
const EXCHANGES: [(Position, Option<u8>, Option<u8>); 4] = [
    (TWICE, Some(5), Some(4)),
    (NEXT, Some(6), None),
    (TWICE, None, Some(5)),
    (TWICE, None, None),
];

fn at(row: usize, col: usize) -> Position {
    Position { row, col }
}

// Four values, of which the last takes the place of the second.
fn set_values(alloc: Global) -> Result<Places<Position, u8>, CaseFault> {
    let mut places = Places::new(alloc);
    for (key, value) in [(at(1, 5), 1u8), (TWICE, 2), (at(1, 1), 3), (TWICE, 4)] {
        places.set(key, value)?;
    }
    Ok(places)
}

fn check_found(fact: &mut Fact<'_>, places: &Places<Position, u8>) {
    fact.same(places.iter().count(), 3);
    fact.same(places.get(TWICE).copied(), Some(4));
    fact.same(places.get(at(0, 6)).copied(), None);
    let (three, four) = (3u8, 4u8);
    fact.same(places.last_up_to(at(0, 6)), None);
    fact.same(places.last_up_to(at(1, 4)), Some((at(1, 1), &three)));
    fact.same(places.last_before(at(1, 1)), Some((TWICE, &four)));
    fact.same(places.last_before(TWICE), None);
    fact.same(places.next_from(at(1, 1)), Some((at(1, 1), &three)));
    fact.same(places.next_from(at(1, 6)), None);
    fact.same(places.first_key_from(at(1, 0)), Some(at(1, 1)));
    fact.same(places.first_key_from(at(2, 0)), None);
}

fn check_exchanged(
    fact: &mut Fact<'_>,
    places: &mut Places<Position, u8>,
) -> Result<(), CaseFault> {
    for (key, value, before) in EXCHANGES {
        fact.same(places.exchange(key, value)?, before);
    }
    fact.same(places.get(NEXT).copied(), Some(6));
    fact.same(places.iter().count(), 3);
    Ok(())
}

fn check_removed(fact: &mut Fact<'_>, places: &mut Places<Position, u8>) {
    places.remove(at(1, 1));
    places.remove(NEXT);
    fact.same(places.iter().count(), 1);
    places.clear();
    fact.holds(places.is_empty());
}

/// What was set last is found until it is removed.
pub(crate) fn check_places(alloc: Global, report: &mut Report) -> Result<(), CaseFault> {
    let mut fact = Fact::new(report, "what was set last is found until it is removed");
    fact.holds(Places::<Position, u8>::new(alloc).is_empty());
    let mut places = set_values(alloc)?;
    check_found(&mut fact, &places);
    check_exchanged(&mut fact, &mut places)?;
    check_removed(&mut fact, &mut places);
    Ok(())
}

// A colour with this prefix.
fn color(alloc: Global, prefix: &str) -> Result<ANSIBuf, CaseFault> {
    ANSIBuf::new(alloc, prefix, "</>").map_err(CaseFault::from)
}

// The prefix of a colour, if there is one.
fn prefix(color: Option<&ANSIBuf>) -> Option<&str> {
    Some(color?.prefix())
}

// Whether a colour has these two texts.
fn has_texts<C: ANSIFmt>(color: &C, prefix: &str, suffix: &str) -> bool {
    color.prefix() == prefix && color.suffix() == suffix
}

fn the_latest_color_of_a_place_counts(alloc: Global, report: &mut Report) -> Result<(), CaseFault> {
    let mut fact = Fact::new(report, "the latest color of a place counts");
    let mut colors = ColorsMap::new(alloc);
    fact.holds(colors.is_empty() && (&NoColors).is_empty());
    for name in ["<a>", "<b>"] {
        colors.set(Position::new(1, 2), color(alloc, name)?)?;
    }
    fact.holds(!(&colors).is_empty());
    fact.same(
        prefix((&colors).get_color(Position::from((1, 2)))),
        Some("<b>"),
    );
    fact.same(prefix(colors.get_color(Position::new(2, 1))), None);
    fact.same(prefix(NoColors.get_color(Position::new(1, 2))), None);
    Ok(())
}

fn lent_colors_are_equal_by_both_texts(report: &mut Report) {
    let mut fact = Fact::new(report, "lent colors are equal by both texts");
    let red = ANSIStr::new("<r>", "</r>");
    fact.holds(ANSIStr::default().is_empty() && !ANSIStr::new("", "</r>").is_empty());
    fact.holds(red == ANSIStr::new("<r>", "</r>") && red != ANSIStr::new("<r>", "</>"));
}

fn colors_are_equal_by_both_texts(alloc: Global, report: &mut Report) -> Result<(), CaseFault> {
    let mut fact = Fact::new(report, "colors are equal by both texts");
    let owned = ANSIBuf::new(alloc, "<r>", "</r>")?;
    fact.holds(owned == ANSIBuf::new(alloc, "<r>", "</r>")?);
    fact.holds(owned != ANSIBuf::new(alloc, "<b>", "</r>")? && !owned.is_empty());
    fact.holds(has_texts(&owned, "<r>", "</r>"));
    Ok(())
}

fn colors_of_two_types_are_the_same_by_both_texts(
    alloc: Global,
    report: &mut Report,
) -> Result<(), CaseFault> {
    let mut fact = Fact::new(report, "colors of two types are the same by both texts");
    let red = ANSIStr::new("<r>", "</r>");
    let owned = ANSIBuf::new(alloc, "<r>", "</r>")?;
    fact.holds(same_color(Some(&owned), Some(&red)));
    fact.holds(!same_color(Some(&owned), Some(&ANSIStr::default())));
    fact.holds(!same_color::<ANSIBuf, ANSIStr<'_>>(None, Some(&red)));
    fact.holds(same_color::<ANSIBuf, ANSIStr<'_>>(None, None));
    Ok(())
}

fn a_color_needs_memory_for_both_texts(alloc: Global, report: &mut Report) {
    let mut fact = Fact::new(report, "a color needs memory for both texts");
    for k in 0..3 {
        for memory in [Refusing::only(alloc, k), Refusing::from_on(alloc, k)] {
            let made = ANSIBuf::new(&memory, "<r>", "</r>");
            let is_whole = matches!(&made, Ok(color) if has_texts(color, "<r>", "</r>"));
            fact.same((made.is_ok(), is_whole), (k >= 2, k >= 2));
            fact.same(memory.has_refused(), k < 2);
        }
    }
}

fn a_color_is_made_of_any_two_texts(alloc: Global, report: &mut Report) -> Result<(), CaseFault> {
    let mut fact = Fact::new(report, "a color is made of any two texts");
    let long =
        "a text of more bytes than the short ones together, so that it is a piece of its own";
    for (prefix, suffix, is_empty) in [
        ("", "", true),
        ("<r>", "", false),
        ("", "</r>", false),
        ("\u{1b}[31m", "\u{1b}[0m", false),
        ("日", "本", false),
        (long, "</r>", false),
        ("<r>", long, false),
    ] {
        let owned = ANSIBuf::new(alloc, prefix, suffix)?;
        fact.holds(has_texts(&owned, prefix, suffix));
        fact.same(owned.is_empty(), is_empty);
    }
    Ok(())
}

/// All facts of this file.
pub(crate) fn check_colors(alloc: Global, report: &mut Report) {
    let checked = the_latest_color_of_a_place_counts(alloc, report);
    report.take(0, "colors of places", checked);
    lent_colors_are_equal_by_both_texts(report);
    let checked = colors_are_equal_by_both_texts(alloc, report);
    report.take(0, "equal colors", checked);
    let checked = colors_of_two_types_are_the_same_by_both_texts(alloc, report);
    report.take(0, "colors of two types", checked);
    a_color_needs_memory_for_both_texts(alloc, report);
    let checked = a_color_is_made_of_any_two_texts(alloc, report);
    report.take(0, "colors of any texts", checked);
}
