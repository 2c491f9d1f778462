//! Files that a command would write twice.
ghost use Rattle.std.specs.Prelude.{◌≡◌, IfSome, IsTrue, MatchOption, None, false};

use crate::wanted::CoverageFiles;
use fmp_files::Outside;

/// Whether both of these files are named, and are one.
fn are_one_file<O: Outside>(outside: &O, one: Option<&str>, other: Option<&str>) -> bool
    ensures { MatchOption one.entry (result ≡ false) (λ a. MatchOption other.entry (result ≡ false)
        (λ b. a.now ≡ b.now → IsTrue result)) }
{
    match (one, other) {
        (Some(one), Some(other)) => outside.is_one_file(one, other),
        _ => false,
    }
}

/// Whether a tracefile of lcov and a table of coverage would be written to one file.
pub fn is_coverage_one_file<O: Outside>(outside: &O, files: CoverageFiles<'_>) -> bool
    ensures { MatchOption files.entry.lcov (result ≡ false) (λ a. MatchOption files.entry.coverage (result ≡ false)
        (λ b. a.now ≡ b.now → IsTrue result)) }
{
    are_one_file(outside, files.lcov, files.coverage)
}

/// Whether a report of tests would be written to the file of a tracefile or of a table of coverage.
pub fn is_report_over_coverage<O: Outside>(
    outside: &O,
    junit: Option<&str>,
    files: CoverageFiles<'_>,
) -> bool
    ensures none { junit.entry ≡ None → result ≡ false }
    ensures lcov { IfSome junit.entry (λ a. IfSome files.entry.lcov (λ b. a.now ≡ b.now → IsTrue result)) }
    ensures coverage { IfSome junit.entry (λ a. IfSome files.entry.coverage (λ b. a.now ≡ b.now → IsTrue result)) }
{
    are_one_file(outside, junit, files.lcov) || are_one_file(outside, junit, files.coverage)
}
