//! The commands on logs, over bytes in memory.

ghost use Rattle.std.specs.Prelude.{◌≡◌, IfOk};
ghost use Rattle.log_session.specs.Run.{IsEngineRun};
ghost use Rattle.laspidru.specs.Logs.{IsAskedPart, IsCommand, IsLawful, IsReplay, RanOn};
ghost use Rattle.laspidru.specs.Logs.{command_engine, command_turns, log_ports, name_numbered};

use crate::endings::LogSettings;
use crate::log_reader::LogReader;
use crate::log_writer::LogWriter;
use lsp_replay::{
    Comparison, Details, EngineFault, Listing, Outcome, Part, Settings, check, compare, convert,
    explain, normalise, normalise_documents, replay, replay_part, trace,
};
use std::alloc::{AllocError, Global};

/// The name of a command, as C passes it by its number.
#[derive(Clone, Copy, Debug, PartialEq, Eq)]
pub enum CommandName {
    Check,
    Explain,
    Trace,
    Replay,
    Normalise,
    Convert,
}

/// A command on a log, with what it has beside the settings.
#[derive(Drop)]
pub enum Command {
    /// What a server answers to each record.
    Check,
    /// The same, with reasons and what is suspicious.
    Explain(Listing),
    /// All that is known of each record.
    Trace(Details),
    /// The documents that are open at the end.
    Replay,
    /// Those that are open after a record, or the text of one.
    ReplayPart(Part),
    /// Each accepted change as its canonical message.
    Normalise,
    /// The same, of the records that are about the session and the documents' texts.
    NormaliseDocuments,
    /// The log with the server's replies.
    Convert,
    /// Whether a document's last text is a saved one.
    Compare(Comparison),
}

/// Returns the command of a number.
pub(crate) fn command_named(number: u32) -> Option<CommandName>
    ensures { result ≡ name_numbered number }
{
    match number {
        0 => Some(CommandName::Check),
        1 => Some(CommandName::Explain),
        2 => Some(CommandName::Trace),
        3 => Some(CommandName::Replay),
        4 => Some(CommandName::Normalise),
        5 => Some(CommandName::Convert),
        _ => None,
    }
}

/// Returns the part of a log that is asked for.
fn part_of(alloc: Global, settings: &LogSettings, uri: &str) -> Result<Part, AllocError>
    ensures { IfOk result (IsAskedPart settings.now uri.now) }
{
    let uri = if settings.has_uri {
        Some(uri.to_string(alloc)?)
    } else {
        None
    };
    let at = if settings.at == 0 {
        None
    } else {
        Some(settings.at)
    };
    Ok(Part { at, uri })
}

/// Returns `replay`, of a part of the log if one is asked for.
fn replay_of(alloc: Global, settings: &LogSettings, uri: &str) -> Result<Command, AllocError>
    ensures { IfOk result (IsReplay settings.now uri.now) }
{
    if settings.at == 0 && !settings.has_uri {
        return Ok(Command::Replay);
    }
    Ok(Command::ReplayPart(part_of(alloc, settings, uri)?))
}

/// Returns a command with what the settings have of it.
pub(crate) fn command_of(
    alloc: Global,
    name: CommandName,
    settings: &LogSettings,
    uri: &str,
) -> Result<Command, AllocError>
    ensures { IfOk result (IsCommand name settings.now uri.now) }
{
    match name {
        CommandName::Check => Ok(Command::Check),
        CommandName::Explain => Ok(Command::Explain(Listing {
            brief: settings.brief,
            all: settings.all,
        })),
        CommandName::Trace => Ok(Command::Trace(Details {
            texts: settings.texts,
            bodies: settings.bodies,
        })),
        CommandName::Replay => replay_of(alloc, settings, uri),
        CommandName::Normalise if settings.documents => Ok(Command::NormaliseDocuments),
        CommandName::Normalise => Ok(Command::Normalise),
        CommandName::Convert => Ok(Command::Convert),
    }
}

/// The result of a command, and its output.
#[derive(Drop)]
pub struct CommandRun {
    pub(crate) answer: Result<Outcome, EngineFault>,
    pub(crate) output: Vec<u8>,
}

/// Runs the engine of a command between a log and its output.
fn run_between(
    alloc: Global,
    command: Command,
    settings: Settings,
    reader: &mut LogReader,
    writer: &mut LogWriter,
) -> Result<Outcome, EngineFault>
    ensures ran { IsEngineRun (command_engine command settings) command_turns
        (log_ports reader.old.rest.now reader.old.calls reader.old.ended writer.old.bytes.items
        writer.old.failed writer.old.calls writer.old.flushed)
        (log_ports reader.new.rest.now reader.new.calls reader.new.ended writer.new.bytes.items
        writer.new.failed writer.new.calls writer.new.flushed) result }
    ensures lawful { IsLawful command settings
        (log_ports reader.old.rest.now reader.old.calls reader.old.ended writer.old.bytes.items
        writer.old.failed writer.old.calls writer.old.flushed)
        (log_ports reader.new.rest.now reader.new.calls reader.new.ended writer.new.bytes.items
        writer.new.failed writer.new.calls writer.new.flushed) result }
{
    match command {
        Command::Check => check(alloc, reader, writer, settings, u64::MAX),
        Command::Explain(listing) => explain(alloc, reader, writer, settings, listing, u64::MAX),
        Command::Trace(details) => trace(alloc, reader, writer, settings, details, u64::MAX),
        Command::Replay => replay(alloc, reader, writer, settings, u64::MAX),
        Command::ReplayPart(part) => replay_part(alloc, reader, writer, settings, part, u64::MAX),
        Command::Normalise => normalise(alloc, reader, writer, settings, u64::MAX),
        Command::NormaliseDocuments => {
            normalise_documents(alloc, reader, writer, settings, u64::MAX)
        }
        Command::Convert => convert(alloc, reader, writer, settings, u64::MAX),
        Command::Compare(comparison) => {
            compare(alloc, reader, writer, settings, comparison, u64::MAX)
        }
    }
}

/// Runs a command over the bytes of a log.
#[tactic(auto, using(crate::proofs::Runs::enough_turns))]
pub(crate) fn run_command(
    alloc: Global,
    command: Command,
    settings: Settings,
    log: &[u8],
) -> CommandRun
    ensures { RanOn command settings log.now result.output.items result.answer }
{
    let mut reader = LogReader::new(log);
    let mut writer = LogWriter::new(alloc);
    let answer = run_between(alloc, command, settings, &mut reader, &mut writer);
    CommandRun {
        answer,
        output: writer.into_bytes(),
    }
}
