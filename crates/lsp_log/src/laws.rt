//! Laws over the definitions alone, which no single call has in its contract.

ghost use Rattle.lsp_log.specs.laws.Logs.{AllRecordsLaw, UniqueLaw, VersionLaw, FirstLaw, BufferedLaw, RestLaw};

use lsp_frame::frame_laws;

/// States what holds of every log, whatever its version and whoever wrote it. It does nothing; its
/// contract says:
///
/// - an input has one version, and exactly one list of complete records, with one rest after them;
/// - any records that an input begins with are the first of that list;
/// - a splitter's buffer is the next record of the input, or the beginning of one.
pub fn reading_laws()
    ensures all_records { AllRecordsLaw }
    ensures unique { UniqueLaw }
    ensures version { VersionLaw }
    ensures first { FirstLaw }
    ensures buffered { BufferedLaw }
    ensures rest { RestLaw }
{
    frame_laws();
}
