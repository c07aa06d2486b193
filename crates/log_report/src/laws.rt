//! A law over the definitions alone, which no single call has in its contract.

ghost use Rattle.log_report.specs.laws.JsonLines.{TraceJsonLaw, ReplayJsonLaw};

/// States that what is written as JSON is JSON. It does nothing; its contract says:
///
/// - `trace` writes lines, each of them JSON. The value of each is stated.
/// - So is the line of `replay` for a document.
pub fn json_laws()
    ensures trace { TraceJsonLaw }
    ensures replay { ReplayJsonLaw }
{}
