//! The file of a report, and how its rows are spelled.

ghost use Rattle.std.specs.Prelude.{◌≡◌};
ghost use Rattle.order_words.specs.Words.{report_file, spelled_as};

use crate::order::{ReportFile, Text};
use row_spelling::Spelling;

/// How rows are spelled where the flag of JSON is given, or isn't.
pub fn spelled_as(json: bool) -> Spelling
    ensures { result ≡ spelled_as json }
{
    if json { Spelling::Json } else { Spelling::Text }
}

/// The file, where there is one, with how its rows are spelled.
pub fn report_file(spelling: Spelling, file: Option<Text>) -> Option<ReportFile>
    ensures { result ≡ report_file spelling file }
{
    match file {
        Some(file) => Some(ReportFile { file, spelling }),
        None => None,
    }
}
