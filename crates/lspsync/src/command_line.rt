//! The program's command line.
//!
//! `options` is the program as `clap` sees it, `help` has the pages of help, `texts` what the
//! commands' pages say, and `misplaced` the text on an option of another command.
//!
//! What words mean is said by `clap`'s definitions, of a program with the options of `program_app`.
//! The parse returns an `Option`, since `clap` has no law that values which it checked are there.

ghost use Rattle.std.specs.Prelude.{◌≡◌, ◌≢◌, ◌||◌, codes, true, false};
ghost use Rattle.std.specs.Prelude.{IfOk, IfSome, IsSome, map, option_map};
ghost use Rattle.std.specs.String.{string_bytes};
ghost use Rattle.lspsync.specs.Call.{AreSettings, AreWordsReadAs, IsCallNamed, IsConfig};
ghost use Rattle.lspsync.specs.Call.{IsExplained, IsFound, IsLogPart, encoding_given};
ghost use Rattle.lspsync.specs.Call.{ending_given, saved_given};
ghost use Rattle.lspsync.specs.Loaded.{with_text};
ghost use Rattle.lspsync.specs.Call.{file_named, files_given, is_contrary, is_set};
ghost use Rattle.lspsync.specs.Call.{is_whole, sync_given};

mod help;
mod misplaced;
mod options;
mod texts;

use crate::command_line::misplaced::placed;
use crate::command_line::options::program;
use clap::{ArgMatches, Error};
use lsp_program::{limits_of, number_of};
use lsp_replay::{Details, Listing, Part, Rewriting, Settings};
use lsp_server::{ChangeForm, Config, EncodingChoice};
use lsp_text::Encoding;
use std::alloc::{AllocError, Global};

/// A call of the program.
#[derive(Debug, PartialEq, Eq, Drop)]
pub enum Call {
    /// `serve`: run a server's end of a session.
    Serve(Config),
    /// `check`: print what a server answers to each record of a log. With `--live` it is flushed
    /// before more is read.
    Check {
        settings: Settings,
        live: bool,
    },
    /// `check --explain`: print of each record, or of some, why it was refused too, and at the end
    /// what came how often and what to do next.
    Explain {
        settings: Settings,
        listing: Listing,
        live: bool,
    },
    /// `trace`: print a line of JSON for each record of a log.
    Trace {
        settings: Settings,
        details: Details,
        live: bool,
    },
    /// `replay`: print the documents that are open at the end of a log.
    Replay(Settings),
    /// `replay --at N --uri URI`: print the documents after a record, or a document's last text.
    ReplayPart(Settings, Part),
    /// `compare`: print whether the last text of a document is a saved one, and else which message
    /// made each line that differs.
    Compare(Settings, Against),
    /// `normalise`: write a log with each accepted change as its canonical message, or with
    /// `--whole` as the text that it leaves. With `--documents` only what is about the session and
    /// the documents' texts is written, and with `--live` it is flushed before more is read.
    Normalise {
        settings: Settings,
        rewriting: Rewriting,
    },
    /// `convert`: write a log of version 1 in version 2.
    Convert(Settings),
}

/// What `compare` compares.
#[derive(Debug, PartialEq, Eq, Drop)]
pub struct Against {
    /// How the document's URI ends.
    pub ending: String,
    /// The saved text, once it was read.
    pub text: String,
}

impl Call {
    /// Returns the call with a text that was read for it.
    pub fn with_text(self, text: String) -> Call
        ensures { result ≡ with_text text self }
    {
        match self {
            Call::Compare(settings, against) => Call::Compare(
                settings,
                Against { text, ..against },
            ),
            other => other,
        }
    }
}

/// A call on one input.
#[derive(Debug, PartialEq, Eq, Drop)]
pub struct Task {
    pub call: Call,
    /// The name of the file with the text that `compare` compares.
    pub saved: Option<String>,
    /// The name of the file that is read; of standard input it is none.
    pub file: Option<String>,
}

/// The file of a command that names none.
static STANDARD_INPUT: [&str; 1] = ["-"];

/// Reads the words of the command line: a call on each file that they name, or on standard input.
/// An error is a usage fault, a text of help or the version, or out of memory. There is no call
/// where options of `normalise` exclude each other, or a subcommand or an option with its value is
/// missing. Tests show that `clap` refuses the latter before.
pub fn parse<'a>(alloc: Global, words: &'a [&'a str]) -> Result<Option<Vec<Task>>, Error>
    ensures { AreWordsReadAs (map (λ word. word.now) words.entry.now) result }
{
    let mut program = program(alloc)?;
    match program.try_get_matches_from_mut(words) {
        Ok(matches) => Ok(tasks_of(alloc, &matches)?),
        Err(error) => Err(placed(alloc, &mut program, words, error)?),
    }
}

/// Returns the calls that `clap` found.
fn tasks_of(alloc: Global, matches: &ArgMatches<'_>) -> Result<Option<Vec<Task>>, AllocError>
    ensures { IfOk result (IsFound matches.now) }
{
    let Some((name, options)) = matches.subcommand() else {
        return Ok(None);
    };
    let mut tasks = Vec::new(alloc);
    for file in files_of(options) {
        let Some(call) = call_named(alloc, name, options)? else {
            return Ok(None);
        };
        let saved = saved_of(alloc, options)?;
        let file = file_named(alloc, file)?;
        tasks.push(Task { call, saved, file })?;
    }
    Ok(Some(tasks))
}

/// Returns the files that the options name.
fn files_of<'a>(options: &'a ArgMatches<'_>) -> &'a [&'a str]
    ensures { map (λ file. file.now) result.now ≡ files_given options.now }
{
    options
        .get_strs("FILE")
        .unwrap_or(STANDARD_INPUT.as_slice())
}

/// Returns the file of a saved text, if the options name one.
fn saved_of(alloc: Global, options: &ArgMatches<'_>) -> Result<Option<String>, AllocError>
    ensures { IfOk result (λ saved. option_map string_bytes saved ≡ saved_given options.now) }
{
    match options.get_str("SAVED") {
        Some(name) => Ok(Some(String::from_str(alloc, name)?)),
        None => Ok(None),
    }
}

/// Returns the file that a word names. `-` is standard input.
fn file_named(alloc: Global, word: &str) -> Result<Option<String>, AllocError>
    ensures { IfOk result (λ file. option_map string_bytes file ≡ file_named word.now) }
{
    if word == "-" {
        return Ok(None);
    }
    Ok(Some(String::from_str(alloc, word)?))
}

/// Returns the call of a subcommand with these options.
fn call_named(
    alloc: Global,
    name: &str,
    options: &ArgMatches<'_>,
) -> Result<Option<Call>, AllocError>
    ensures some { IfOk result (λ found. IfSome found (IsCallNamed name.now options.now)) }
    ensures none { IfOk result (λ found. (call : Call) → IsCallNamed name.now options.now call →
        IsSome found) }
{
    match name {
        "replay" => replay_call(alloc, options),
        "compare" => compare_call(alloc, options),
        _ => Ok(other_call(name, options)),
    }
}

/// Returns the call of another subcommand than `replay` and `compare`.
fn other_call(name: &str, options: &ArgMatches<'_>) -> Option<Call>
    ensures some { IfSome result (IsCallNamed name.now options.now) }
    ensures none { (call : Call) → name.now ≢ codes "replay" → name.now ≢ codes "compare" →
        IsCallNamed name.now options.now call → IsSome result }
{
    match name {
        "serve" => Some(Call::Serve(config_of(options)?)),
        "check" => check_call(options),
        "trace" => trace_call(options),
        "normalise" => normalise_call(options),
        "convert" => Some(Call::Convert(settings_of(options, false)?)),
        _ => None,
    }
}

/// Returns the call of `check`, with reasons or without.
fn check_call(options: &ArgMatches<'_>) -> Option<Call>
    ensures some { IfSome result (IsCallNamed (codes "check") options.now) }
    ensures none { (call : Call) → IsCallNamed (codes "check") options.now call → IsSome result }
{
    let settings = settings_of(options, false)?;
    let live = options.get_flag("live");
    if is_explained(options) {
        let listing = Listing {
            brief: options.get_flag("brief"),
            all: options.get_flag("all"),
        };
        return Some(Call::Explain {
            settings,
            listing,
            live,
        });
    }
    Some(Call::Check { settings, live })
}

/// Returns whether `check` gives reasons: by `--explain`, or by an option that says which.
fn is_explained(options: &ArgMatches<'_>) -> bool
    ensures { IsExplained options.now result }
{
    let explain = options.get_flag("explain");
    let brief = options.get_flag("brief");
    let all = options.get_flag("all");
    is_any(explain, brief, all)
}

/// Returns whether one of the flags is set.
fn is_any(explain: bool, brief: bool, all: bool) -> bool
    ensures { result ≡ (explain || (brief || all)) }
{
    explain || brief || all
}

/// Returns the call of `trace`.
fn trace_call(options: &ArgMatches<'_>) -> Option<Call>
    ensures some { IfSome result (IsCallNamed (codes "trace") options.now) }
    ensures none { (call : Call) → IsCallNamed (codes "trace") options.now call → IsSome result }
{
    let settings = settings_of(options, false)?;
    let details = Details {
        texts: options.get_flag("texts"),
        bodies: options.get_flag("bodies"),
    };
    let live = options.get_flag("live");
    Some(Call::Trace {
        settings,
        details,
        live,
    })
}

/// Returns the call of `normalise`. A series is only written once it has ended, so `--squash` goes
/// neither with `--live` nor with `--whole`: then there is no call.
fn normalise_call(options: &ArgMatches<'_>) -> Option<Call>
    ensures some { IfSome result (IsCallNamed (codes "normalise") options.now) }
    ensures none { (call : Call) → IsCallNamed (codes "normalise") options.now call →
        IsSome result }
{
    if is_contrary(options) {
        return None;
    }
    let settings = settings_of(options, options.get_flag("squash"))?;
    let rewriting = Rewriting {
        whole: options.get_flag("whole"),
        documents: options.get_flag("documents"),
        live: options.get_flag("live"),
    };
    Some(Call::Normalise {
        settings,
        rewriting,
    })
}

/// Returns whether options of `normalise` exclude each other.
fn is_contrary(options: &ArgMatches<'_>) -> bool
    ensures { result ≡ is_contrary options.now }
{
    is_set(options, "squash") && (is_set(options, "whole") || is_set(options, "live"))
}

/// Returns whether a flag is there.
fn is_set(options: &ArgMatches<'_>, id: &str) -> bool
    ensures { result ≡ is_set options.now id.now }
{
    match options.get_str(id) {
        Some(text) => text == "true",
        None => false,
    }
}

/// Returns the call of `replay`, of a part of a log or of the whole.
fn replay_call(alloc: Global, options: &ArgMatches<'_>) -> Result<Option<Call>, AllocError>
    ensures some { IfOk result (λ found. IfSome found (IsCallNamed (codes "replay") options.now)) }
    ensures none { IfOk result (λ found. (call : Call) →
        IsCallNamed (codes "replay") options.now call → IsSome found) }
{
    let Some(settings) = settings_of(options, false) else {
        return Ok(None);
    };
    let part = part_of(alloc, options)?;
    Ok(Some(replaying(settings, part)))
}

/// Returns the call of `compare`, before the saved text was read.
fn compare_call(alloc: Global, options: &ArgMatches<'_>) -> Result<Option<Call>, AllocError>
    ensures some { IfOk result (λ found. IfSome found (IsCallNamed (codes "compare") options.now)) }
    ensures none { IfOk result (λ found. (call : Call) →
        IsCallNamed (codes "compare") options.now call → IsSome found) }
{
    let (Some(settings), Some(ending)) = (settings_of(options, false), ending_of(options)) else {
        return Ok(None);
    };
    let against = Against {
        ending: String::from_str(alloc, ending)?,
        text: String::new(alloc),
    };
    Ok(Some(Call::Compare(settings, against)))
}

/// Returns how the URI of the document that is compared ends.
fn ending_of<'a>(options: &'a ArgMatches<'_>) -> Option<&'a str>
    ensures { option_map (λ ending. ending.now) result ≡ ending_given options.now }
{
    match options.get_str("uri") {
        Some(uri) => Some(uri),
        None => options.get_str("SAVED"),
    }
}

/// Returns the call of `replay` with these settings.
fn replaying(settings: Settings, part: Part) -> Call
    ensures whole { is_whole part ≡ true → result ≡ Call.Replay settings }
    ensures part { is_whole part ≡ false → result ≡ Call.ReplayPart settings part }
{
    if part.at.is_none() && part.uri.is_none() {
        return Call::Replay(settings);
    }
    Call::ReplayPart(settings, part)
}

/// Returns the part of a log that the options name.
fn part_of(alloc: Global, options: &ArgMatches<'_>) -> Result<Part, AllocError>
    ensures { IfOk result (IsLogPart options.now) }
{
    let at = match number_of(options, "at") {
        Some(at) => Some(at as u64),
        None => None,
    };
    let uri = match options.get_str("uri") {
        Some(uri) => Some(String::from_str(alloc, uri)?),
        None => None,
    };
    Ok(Part { at, uri })
}

fn config_of(options: &ArgMatches<'_>) -> Option<Config>
    ensures some { IfSome result (IsConfig options.now) }
    ensures none { (config : Config) → IsConfig options.now config → IsSome result }
{
    let limits = limits_of(options)?;
    let prefer = encoding_of(options)?;
    let sync = sync_of(options)?;
    Some(Config {
        limits,
        choice: EncodingChoice::Negotiated { prefer },
        sync,
    })
}

fn sync_of(options: &ArgMatches<'_>) -> Option<ChangeForm>
    ensures { result ≡ sync_given options.now }
{
    match options.get_str("sync")? {
        "full" => Some(ChangeForm::Full),
        _ => Some(ChangeForm::Incremental),
    }
}

fn settings_of(options: &ArgMatches<'_>, squash: bool) -> Option<Settings>
    ensures some { IfSome result (AreSettings options.now) }
    ensures none { (settings : Settings) → AreSettings options.now settings → IsSome result }
    ensures squash { IfSome result (λ settings. settings.squash ≡ squash) }
{
    let limits = limits_of(options)?;
    let encoding = encoding_of(options)?;
    Some(Settings {
        limits,
        encoding,
        squash,
    })
}

fn encoding_of(options: &ArgMatches<'_>) -> Option<Encoding>
    ensures { result ≡ encoding_given options.now }
{
    Encoding::of_name(options.get_str("encoding")?)
}
