//! The functions on logs.

ghost use Rattle.std.specs.Prelude.{◌≡◌, ◌≢◌, ◌⊎◌, None};
ghost use Rattle.laspidru.specs.Codes.{IsAnswer, IsAnswerOrNoMemory, unless};
ghost use Rattle.laspidru.specs.Logs.{IsCommandRun, IsKeptRun, IsUnlessEnded, as_output, run_asked};
ghost use Rattle.laspidru.specs.Objects.{IsCopy, in_handle, in_use, rest_asked};

mod compare;

use crate::bytes::{checked_text, copy_from};
use crate::codes::{OK, OUT_OF_MEMORY, OUT_OF_RANGE, or_return};
use crate::command::{Command, CommandRun, command_named, command_of, run_command};
use crate::endings::{Ending, LogSettings, ending_of, log_settings_of};
use crate::handle::{Handle, with_object};
use crate::object::Object;
use lsp_replay::Settings;
use std::alloc::Global;

/// Runs a command, and puts its output into an empty handle. After a fault that isn't the log's the
/// output isn't kept.
#[tactic(auto, using(crate::proofs::Runs::ran_and_kept))]
fn run_into(
    alloc: Global,
    handle: &mut Handle,
    command: Command,
    settings: Settings,
    log: &[u8],
    out: &mut Ending,
) -> u32
    requires { handle.old.value ≡ None }
    ensures answer { (result ≡ OUT_OF_MEMORY)
        ⊎ IsKeptRun command settings log.now result handle.new.value out.new }
    ensures unchanged { IsUnlessEnded result
        ((handle.new.value ≡ handle.old.value) × (out.new ≡ out.old)) }
{
    let CommandRun { answer, output } = run_command(alloc, command, settings, log);
    let (code, ending) = or_return!(ending_of(output.len(), answer));
    if handle.fill(alloc, Object::Output(output)) != OK {
        return OUT_OF_MEMORY;
    }
    *out = ending;
    code
}

/// Runs a command over the bytes of a log, and puts its output into an empty handle: of
/// [`lsp_replay::check`], [`lsp_replay::explain`], [`lsp_replay::trace`], [`lsp_replay::replay`] or
/// [`lsp_replay::replay_part`], [`lsp_replay::normalise`] or [`lsp_replay::normalise_documents`],
/// or [`lsp_replay::convert`]. After a fault of the log that is the output up to the fault.
///
/// Codes, in this order: IN_USE; OUT_OF_RANGE of the command; NOT_UTF8 of the URI; BAD_ENCODING,
/// BAD_MAX_BODY, BAD_MAX_TEXT, BAD_MAX_DOCS, BAD_MAX_CHANGES; OUT_OF_MEMORY, or the fault: CUT,
/// BAD_FRAME, BAD_LOG, of `normalise` also BODY_TOO_LONG. Costs that call, and keeps the output in
/// memory.
#[tactic(auto, using(crate::proofs::Runs::command_ran))]
#[unsafe(no_mangle)]
pub extern "C" fn laspidru_log_run(
    alloc: Global,
    handle: &mut Handle,
    command: u32,
    settings: &LogSettings,
    uri: &[u8],
    log: &[u8],
    out: &mut Ending,
) -> u32
    ensures answer { let asked =
        unless (in_use handle.old.value) (run_asked command settings.now uri.now) in
        IsAnswerOrNoMemory asked result (λ asked.
        IsCommandRun asked settings.now log.now result handle.new.value out.new) }
    ensures unchanged { IsUnlessEnded result
        ((handle.new.value ≡ handle.old.value) × (out.new ≡ out.old)) }
{
    or_return!(handle.check_empty(alloc));
    let Some(name) = command_named(command) else {
        return OUT_OF_RANGE;
    };
    let uri = or_return!(checked_text(uri));
    let taken = or_return!(log_settings_of(settings));
    let Ok(command) = command_of(alloc, name, settings, uri) else {
        return OUT_OF_MEMORY;
    };
    run_into(alloc, handle, command, taken, log, out)
}

/// Copies the bytes of a command's output, or of a canonical message's frame, from `start` on, as
/// many as `out` has room for, and returns how many. Codes, in this order: EMPTY, OTHER_KIND,
/// OUT_OF_RANGE. Costs the copy.
#[unsafe(no_mangle)]
pub extern "C" fn laspidru_output_copy(
    alloc: Global,
    handle: &mut Handle,
    start: usize,
    out: &mut [u8],
    copied: &mut usize,
) -> u32
    ensures answer { IsAnswer (rest_asked start (in_handle as_output handle.old.value)) result
        (IsCopy out.old out.new copied.new) }
    ensures handle { handle.new.value ≡ handle.old.value }
    ensures unchanged { result ≢ OK → (out.new ≡ out.old) × (copied.new ≡ copied.old) }
{
    with_object!(handle, alloc, Object::Output(output) => copy_from(output, start, out, copied))
}
