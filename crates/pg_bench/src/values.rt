//! Facts about single values, which no section can write: what lines, widths, colours, values by place and records
//! are, what the cases are made with, and what `pgshow` does where no script can say it.

pub(crate) mod calls;
pub(crate) mod failing;
pub(crate) mod places;
pub(crate) mod records;
pub(crate) mod scripts;
pub(crate) mod texts;

use pg_testing::report::Report;
use std::alloc::Global;
use std::fmt::Debug;

/// A fact, and the report on what is compared of it.
#[derive(Drop)]
pub(crate) struct Fact<'r> {
    report: &'r mut Report,
    name: &'static str,
}

impl<'r> Fact<'r> {
    /// A fact of this name.
    pub(crate) fn new(report: &'r mut Report, name: &'static str) -> Fact<'r> {
        report.count_case();
        Fact { report, name }
    }

    /// What a call returns is what is expected.
    pub(crate) fn same<T: PartialEq + Debug + Drop>(&mut self, answer: T, expected: T) {
        self.same_at("", answer, expected);
    }

    /// What a call returns for this text is what is expected.
    pub(crate) fn same_at<T: PartialEq + Debug + Drop>(
        &mut self,
        text: &str,
        answer: T,
        expected: T,
    ) {
        self.report.compare((0, self.name), text, answer, expected);
    }

    /// This is so.
    pub(crate) fn holds(&mut self, is_so: bool) {
        self.same_at("", is_so, true);
    }
}

/// All facts.
pub(crate) fn check_values(alloc: Global, report: &mut Report) {
    texts::check_texts(report);
    places::check_colors(alloc, report);
    let checked = places::check_places(alloc, report);
    report.take(0, "places", checked);
    let checked = records::check_pushed(alloc, report);
    report.take(0, "rows that are pushed", checked);
    let checked = records::check_given(alloc, report);
    report.take(0, "rows that are given", checked);
    let checked = calls::check_calls(alloc, report);
    report.take(0, "calls of tables", checked);
    failing::check_failing(alloc, report);
    let checked = scripts::check_endings(alloc, report);
    report.take(0, "endings", checked);
    let checked = scripts::check_scripts(alloc, report);
    report.take(0, "scripts", checked);
}
