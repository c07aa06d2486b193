//! The function that compares a log with a saved text.

ghost use Rattle.std.specs.Prelude.{◌≡◌, IfOk};
ghost use Rattle.line_diff.specs.Comparison.{new_comparison};
ghost use Rattle.laspidru.specs.Codes.{IsAnswerOrNoMemory, unless};
ghost use Rattle.laspidru.specs.Logs.{IsKeptRun, IsUnlessEnded, comparison_asked};
ghost use Rattle.laspidru.specs.Objects.{in_use};

use crate::bytes::checked_text;
use crate::codes::{OUT_OF_MEMORY, or_return};
use crate::command::Command;
use crate::endings::{Ending, LogSettings, log_settings_of};
use crate::handle::Handle;
use crate::log::run_into;
use lsp_replay::Comparison;
use std::alloc::{AllocError, Global};

/// Returns a comparison with a saved text, before the log was read.
fn comparison_of(alloc: Global, uri: &str, saved: &str) -> Result<Comparison, AllocError>
    ensures { IfOk result (λ comparison. comparison ≡ new_comparison uri.now saved.now) }
{
    let uri = uri.to_string(alloc)?;
    let saved = saved.to_string(alloc)?;
    Ok(Comparison::new(uri, saved))
}

/// Compares the last text of a document of a log with a saved one, and puts the output of
/// [`lsp_replay::compare`] into an empty handle. The document is the one whose URI ends as `uri`,
/// and the only one if that has no bytes. After a fault of the log the output has no bytes.
///
/// Codes, in this order: IN_USE; NOT_UTF8 of the URI or the saved text; BAD_ENCODING, BAD_MAX_BODY,
/// BAD_MAX_TEXT, BAD_MAX_DOCS, BAD_MAX_CHANGES; OUT_OF_MEMORY, or the fault: CUT, BAD_FRAME,
/// BAD_LOG. Costs that call, and copies the saved text.
#[unsafe(no_mangle)]
pub extern "C" fn laspidru_log_compare(
    alloc: Global,
    handle: &mut Handle,
    settings: &LogSettings,
    uri: &[u8],
    saved: &[u8],
    log: &[u8],
    out: &mut Ending,
) -> u32
    ensures answer { let asked =
        unless (in_use handle.old.value) (comparison_asked settings.now uri.now saved.now) in
        IsAnswerOrNoMemory asked result (λ asked.
        IsKeptRun asked.0 asked.1 log.now result handle.new.value out.new) }
    ensures unchanged { IsUnlessEnded result
        ((handle.new.value ≡ handle.old.value) × (out.new ≡ out.old)) }
{
    or_return!(handle.check_empty(alloc));
    let uri = or_return!(checked_text(uri));
    let saved = or_return!(checked_text(saved));
    let taken = or_return!(log_settings_of(settings));
    let Ok(comparison) = comparison_of(alloc, uri, saved) else {
        return OUT_OF_MEMORY;
    };
    let command = Command::Compare(comparison);
    run_into(alloc, handle, command, taken, log, out)
}
