//! Laws over the definitions alone, which no single call has in its contract.
//!
//! That what is written reports the same is one of them. The clauses of the engines are drawn from
//! it.

ghost use Rattle.lsp_log.specs.laws.Logs.{UniqueLaw};
ghost use Rattle.log_report.specs.laws.Trace.{TraceLaw};
ghost use Rattle.log_rewrite.specs.laws.Written.{ReportLaw, CanonicalLogLaw, SquashedLaw, StopsAlike, ConvertedLaw, WholeLogLaw, WholeOfCanonicalLaw};

use lsp_log::reading_laws;

/// States what holds of every log, whatever its version and whoever wrote it. It does nothing; its
/// contract says:
///
/// - An input has at most one list of complete records, with one rest after them.
/// - `replay` writes nothing before the end of the input.
/// - What `normalise` writes is a log of which `replay` reports the same, and `normalise` writes
///   the same bytes again.
/// - With squash a log ends as without. What is written is a log of which `replay` reports the same
///   documents and status, and the same is written again.
/// - What `convert` writes of a log of version 1 is a log of which `replay` reports the same. For
///   that each reply in it must be within the limit on bodies.
/// - What `normalise --whole` writes is a log of which `replay` reports the same, and of which the
///   same is written again. Of what `normalise` writes it writes what it writes of the log.
/// - `trace` ends where `check` does, and as it does, with the same numbers and words. Its last
///   texts are those of `replay`.
pub fn log_laws()
    ensures unique { UniqueLaw }
    ensures report { ReportLaw }
    ensures canonical_log { CanonicalLogLaw }
    ensures stops { StopsAlike }
    ensures squashed { SquashedLaw }
    ensures converted { ConvertedLaw }
    ensures whole { WholeLogLaw }
    ensures whole_of_canonical { WholeOfCanonicalLaw }
    ensures traced { TraceLaw }
{
    reading_laws();
}
