//! The program over any reader, folder and writers.

ghost use Rattle.std.specs.Prelude.{◌≡◌, ◌≢◌, ◌⊎◌, MatchResult, Result, map, option_map};
ghost use Rattle.std.specs.String.{string_bytes};
ghost use Rattle.clap.specs.Values.{kind_of};
ghost use Rattle.clap.specs.declared.error.kind.ErrorKind.TheVariants.{OutOfMemory};
ghost use Rattle.clap.specs.declared.error.kind.ErrorKind.TheVariants.{DisplayHelp, DisplayVersion};
ghost use Rattle.lsp_stream.specs.Ports.{ports};
ghost use Rattle.lsp_program.specs.Output.{IsPrinted, IsTextPrinted, allowed_turns, streams};
ghost use Rattle.log_session.specs.Run.{IsEngineRun};
ghost use Rattle.lspsync.specs.Run.{IsEnding, IsFaultEnd, IsFileDone, IsFileTried, IsHeaded};
ghost use Rattle.lspsync.specs.Run.{IsHelpEnd, IsLoaded};
ghost use Rattle.lspsync.specs.Run.{IsNotLoaded, IsPerformed, IsProgramRun, IsTaskDone};
ghost use Rattle.lspsync.specs.Run.{IsCallDone, answer_after_flush, engine_of, fault_after};
ghost use Rattle.lspsync.specs.Run.{shown_name};

use crate::again::copied;
use crate::command_line::{Call, Task, parse};
use crate::ends::{CONTRARY, Ending, both, end_after, end_well, is_write_fault, report, say};
use crate::files::{FileEnd, Folder, LogFile, end_file, read_text, unreadable};
use crate::reached::Fronts;
use crate::wanted::wanted_by;
use clap::error as clap_error;
use lsp_program::{BAD_INPUT, MAX_TURNS, USAGE, flush, print, print_text};
use lsp_replay::{
    Comparison, Duplex, EngineFault, Outcome, Sink, Source, Told, check, check_live, compare,
    convert, explain, explain_live, replay, replay_part, rewrite, serve, trace, trace_live,
};
use std::alloc::Global;

/// Runs the program. `words` is its command line, the program's name first. A file that it names is
/// opened in `folder`. A fault's line is written to `errors`.
///
/// Tasks are done one after another. The status is the greatest of theirs. None is done after one
/// whose output failed.
pub fn run<F: Folder, R: Source, W: Sink, E: Sink>(
    alloc: Global,
    words: &[&str],
    folder: &F,
    input: &mut R,
    output: &mut W,
    errors: &mut E,
) -> Ending
    ensures { IsProgramRun (F.bytes folder.now) (map (λ word. word.now) words.entry.now)
        (streams (R.seen input.old) (W.seen output.old) (E.seen errors.old))
        (streams (R.seen input.new) (W.seen output.new) (E.seen errors.new)) result }
{
    let tasks = match parse(alloc, words) {
        Ok(Some(tasks)) => tasks,
        Ok(None) => return say(USAGE, None, CONTRARY, errors),
        Err(error) => return print_error(alloc, &error, output, errors),
    };
    let is_headed = tasks.len() > 1;
    let mut ending = Ending::new(0, Ok(()));
    for task in tasks {
        let done = do_task(alloc, task, is_headed, folder, input, output, errors);
        let output_failed = done.output_failed;
        ending = both(ending, done);
        if output_failed {
            return ending;
        }
    }
    ending
}

/// Does a task, after its heading if it is one of several.
fn do_task<F: Folder, R: Source, W: Sink, E: Sink>(
    alloc: Global,
    task: Task,
    is_headed: bool,
    folder: &F,
    input: &mut R,
    output: &mut W,
    errors: &mut E,
) -> Ending
    ensures { IsTaskDone (F.bytes folder.now) is_headed task
        (streams (R.seen input.old) (W.seen output.old) (E.seen errors.old))
        (streams (R.seen input.new) (W.seen output.new) (E.seen errors.new)) result }
{
    let Task { call, saved, file } = task;
    let headed = head(is_headed, &file, errors);
    match (loaded(alloc, call, saved, folder, errors), file) {
        (Ok(call), Some(name)) => {
            run_file(alloc, call, name.as_str(), folder, output, errors).after(headed)
        }
        (Ok(call), None) => { run_input(alloc, call, input, output, errors).after(headed) }
        (Err(ending), _) => ending.after(headed),
    }
}

/// Prints the heading of an input, if it is one of several.
fn head<E: Sink>(is_headed: bool, file: &Option<String>, errors: &mut E) -> Result<(), EngineFault>
    ensures { IsHeaded is_headed (option_map string_bytes file.now)
        (E.seen errors.old) (E.seen errors.new) result }
{
    if !is_headed {
        return Ok(());
    }
    print(errors, &["==> ", shown_name(file), " <==\n"])
}

fn shown_name<'a>(file: &'a Option<String>) -> &'a str
    ensures { result.now ≡ shown_name (option_map string_bytes file.now) }
{
    match file {
        Some(name) => name.as_str(),
        None => "standard input",
    }
}

/// Returns a call once its saved text was read, or the end if that can't be read.
fn loaded<F: Folder, E: Sink>(
    alloc: Global,
    call: Call,
    saved: Option<String>,
    folder: &F,
    errors: &mut E,
) -> Result<Call, Ending>
    ensures { MatchResult result
        (λ loaded. IsLoaded (F.bytes folder.now) call (option_map string_bytes saved) loaded
        × (E.seen errors.new ≡ E.seen errors.old))
        (λ ending. IsNotLoaded (option_map string_bytes saved)
        (E.seen errors.old) (E.seen errors.new) ending) }
{
    let Some(name) = saved else {
        return Ok(call);
    };
    match read_text(alloc, &name, folder) {
        Ok(text) => Ok(call.with_text(text)),
        Err(error) => Err(unreadable(alloc, &name, error, errors)),
    }
}

/// Runs the engine that a call names over standard input, and flushes the output.
fn run_input<R: Source, W: Sink, E: Sink>(
    alloc: Global,
    call: Call,
    input: &mut R,
    output: &mut W,
    errors: &mut E,
) -> Ending
    ensures { IsCallDone call
        (streams (R.seen input.old) (W.seen output.old) (E.seen errors.old))
        (streams (R.seen input.new) (W.seen output.new) (E.seen errors.new)) result }
{
    let Performed { answer, second } = perform(alloc, call, input, output);
    let first = end_with(answer, errors);
    end_after(first, second, errors)
}

/// Makes a call on a file. If it prints only at the end of its log, and the log has a fault, then
/// it is made once more on the part before that.
fn run_file<F: Folder, W: Sink, E: Sink>(
    alloc: Global,
    call: Call,
    name: &str,
    folder: &F,
    output: &mut W,
    errors: &mut E,
) -> Ending
    ensures { IsFileDone call name.now (F.bytes folder.now name.now)
        (W.seen output.old) (W.seen output.new)
        (E.seen errors.old) (E.seen errors.new) result }
{
    let copy = copied(alloc, &call);
    let repeats = copy.is_some();
    let FileEnd { ending, front } = run_log(alloc, call, name, repeats, folder, output, errors);
    if ending.status != BAD_INPUT || ending.output_failed {
        return ending;
    }
    match (copy, front) {
        (Some(copy), Some(front)) => {
            let fronts = Fronts {
                folder,
                len: front.len,
            };
            let next = run_log(alloc, copy, name, false, &fronts, output, errors);
            both(ending, next.ending)
        }
        _ => ending,
    }
}

/// Runs the engine that a call names over a file, and flushes the output.
fn run_log<F: Folder, W: Sink, E: Sink>(
    alloc: Global,
    call: Call,
    name: &str,
    repeats: bool,
    folder: &F,
    output: &mut W,
    errors: &mut E,
) -> FileEnd
    ensures { IsFileTried call name.now (F.bytes folder.now name.now)
        (W.seen output.old) (W.seen output.new)
        (E.seen errors.old) (E.seen errors.new) result.ending }
{
    match folder.open(name) {
        Ok(file) => {
            let mut log = Told::new(LogFile::new(alloc, file, &call));
            let wanted = wanted_by(alloc, &call);
            let Performed { answer, second } = perform(alloc, call, &mut log, output);
            let log = log.into_inner();
            let first = end_file(alloc, name, &log, wanted, answer, repeats, folder, errors);
            FileEnd {
                ending: end_after(first.ending, second, errors),
                front: first.front,
            }
        }
        Err(error) => FileEnd::whole(unreadable(alloc, name, error, errors)),
    }
}

/// Ends with an outcome, or reports a fault.
fn end_with<E: Sink>(answer: Result<Outcome, EngineFault>, errors: &mut E) -> Ending
    ensures { IsEnding answer (E.seen errors.old) (E.seen errors.new) result }
{
    match answer {
        Ok(outcome) => end_well(None, outcome, errors),
        Err(fault) => report(fault, errors),
    }
}

/// What came of a call.
struct Performed {
    /// The engine's outcome; or its fault, else that of the flush.
    answer: Result<Outcome, EngineFault>,
    /// The fault of the flush after another one of the engine: then output is lost.
    second: Option<EngineFault>,
}

/// Runs the engine that a call names, and then flushes the output, also after a fault.
fn perform<R: Source, W: Sink>(
    alloc: Global,
    call: Call,
    input: &mut R,
    output: &mut W,
) -> Performed
    ensures performed { IsPerformed call
        (ports (R.seen input.old) (W.seen output.old))
        (ports (R.seen input.new) (W.seen output.new)) result.answer result.second }
{
    let ran = obey(alloc, call, input, output);
    let flushed = flush(output);
    Performed {
        answer: answer_with(ran, flushed),
        second: fault_after(ran, flushed),
    }
}

/// Returns the result of a run. A fault of the engine comes before one of the flush.
fn answer_with(
    ran: Result<Outcome, EngineFault>,
    flushed: Result<(), EngineFault>,
) -> Result<Outcome, EngineFault>
    ensures { result ≡ answer_after_flush ran flushed }
{
    match (ran, flushed) {
        (Ok(outcome), Ok(())) => Ok(outcome),
        (Ok(_), Err(fault)) => Err(fault),
        (Err(fault), _) => Err(fault),
    }
}

/// Returns the fault of a flush after a fault of the engine, unless that was one of writing already.
fn fault_after(
    ran: Result<Outcome, EngineFault>,
    flushed: Result<(), EngineFault>,
) -> Option<EngineFault>
    ensures { result ≡ fault_after ran flushed }
{
    match (ran, flushed) {
        (Err(fault), Err(_)) if is_write_fault(fault) => None,
        (Err(_), Err(failure)) => Some(failure),
        _ => None,
    }
}

/// Runs an engine. If it is live it flushes what it prints before it reads more.
macro_rules! run_lines {
    ($live:ident, $run:ident, $run_live:ident
    => $alloc:ident, $input:ident, $output:ident, $($setting:ident),+) => {{
        if $live {
            let mut ends = Duplex::new($input, $output);
            return $run_live($alloc, &mut ends, $($setting,)+ MAX_TURNS);
        }
        $run($alloc, $input, $output, $($setting,)+ MAX_TURNS)
    }};
}

/// Runs the engine that a call names.
fn obey<R: Source, W: Sink>(
    alloc: Global,
    call: Call,
    input: &mut R,
    output: &mut W,
) -> Result<Outcome, EngineFault>
    ensures { IsEngineRun (engine_of call) allowed_turns
        (ports (R.seen input.old) (W.seen output.old))
        (ports (R.seen input.new) (W.seen output.new)) result }
{
    match call {
        Call::Serve(config) => serve(alloc, input, output, config, MAX_TURNS),
        Call::Check { settings, live } => {
            run_lines!(live, check, check_live => alloc, input, output, settings)
        }
        Call::Explain {
            settings,
            listing,
            live,
        } => run_lines!(live, explain, explain_live => alloc, input, output, settings, listing),
        Call::Trace {
            settings,
            details,
            live,
        } => run_lines!(live, trace, trace_live => alloc, input, output, settings, details),
        Call::Replay(settings) => replay(alloc, input, output, settings, MAX_TURNS),
        Call::ReplayPart(settings, part) => {
            replay_part(alloc, input, output, settings, part, MAX_TURNS)
        }
        Call::Compare(settings, against) => {
            let comparison = Comparison::new(against.ending, against.text);
            compare(alloc, input, output, settings, comparison, MAX_TURNS)
        }
        Call::Normalise {
            settings,
            rewriting,
        } => {
            let mut ends = Duplex::new(input, output);
            rewrite(alloc, &mut ends, settings, rewriting, MAX_TURNS)
        }
        Call::Convert(settings) => convert(alloc, input, output, settings, MAX_TURNS),
    }
}

/// Prints the text of `clap`'s error: help to the output, and a usage fault to the errors.
fn print_error<W: Sink, E: Sink>(
    alloc: Global,
    error: &clap::Error,
    output: &mut W,
    errors: &mut E,
) -> Ending
    ensures memory { kind_of error.now ≡ OutOfMemory →
        (W.seen output.new ≡ W.seen output.old)
        × IsFaultEnd EngineFault.NoMemory (E.seen errors.old) (E.seen errors.new) result }
    ensures mistake { kind_of error.now ≢ OutOfMemory → kind_of error.now ≢ DisplayHelp
        → kind_of error.now ≢ DisplayVersion →
        (W.seen output.new ≡ W.seen output.old) × (result.status ≡ 2)
        × IsTextPrinted (E.seen errors.old) (E.seen errors.new) result.printed }
    ensures help { (kind_of error.now ≡ DisplayHelp) ⊎ (kind_of error.now ≡ DisplayVersion)
        → (answer : Result (Unit {0}) EngineFault)
        × IsTextPrinted (W.seen output.old) (W.seen output.new) answer
        × IsHelpEnd answer (E.seen errors.old) (E.seen errors.new) result }
{
    if error.kind() == clap_error::ErrorKind::OutOfMemory {
        return report(EngineFault::NoMemory, errors);
    }
    if error.use_stderr() {
        return Ending::new(USAGE, print_text(alloc, error, errors));
    }
    let answer = print_text(alloc, error, output);
    end_help(answer, errors)
}

/// Ends with status 0, or reports why help couldn't be written.
fn end_help<E: Sink>(answer: Result<(), EngineFault>, errors: &mut E) -> Ending
    ensures { IsHelpEnd answer (E.seen errors.old) (E.seen errors.new) result }
{
    match answer {
        Err(fault) => report(fault, errors),
        Ok(()) => Ending::new(0, Ok(())),
    }
}
