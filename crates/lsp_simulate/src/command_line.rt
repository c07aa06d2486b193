//! The program's command line.
//!
//! `options` is the program as `clap` sees it, and `help` has the texts of help.
//!
//! What words mean is said by `clap`'s definitions, of a program with the options of `program_app`.
//! The parse returns an `Option`: that `clap` finds each value which it checked isn't proved here.

ghost use Rattle.std.specs.Prelude.{◌≡◌, IfSome, IsSome, codes, false, map, ℕ};
ghost use Rattle.lsp_frame.specs.Limits.{LimitsData};
ghost use Rattle.lsp_program.specs.Found.{IsFlag};
ghost use Rattle.lsp_simulate.specs.Setting.{AreServerLimits, AreWordsReadAs, HasEither, IsConfig};
ghost use Rattle.lsp_simulate.specs.Setting.{IsSetting};
ghost use Rattle.lsp_simulate.specs.Setting.{choice_given, form_given};

mod help;
mod options;

use crate::command_line::options::program;
use clap::{ArgMatches, Error};
use lsp_frame::Limits;
use lsp_message::Offers;
use lsp_program::{limits_of, number_of};
use lsp_server::{ChangeForm, Config, EncodingChoice};
use lsp_text::Encoding;
use std::alloc::Global;

/// The set-up of both ends.
#[derive(Clone, Copy, Debug, PartialEq, Eq)]
pub struct Setting {
    /// The client's limits.
    pub limits: Limits,
    /// The encodings that the client offers beside UTF-16.
    pub offers: Offers,
    /// How the server is set up.
    pub config: Config,
}

/// Reads the words of the command line. An error is a usage fault, a text of help or the version,
/// or out of memory. There is no setting only where what `clap` found names none. No words are
/// known to do that: it refuses a faulty value, and has a default for each that is needed.
pub fn parse<'a>(alloc: Global, words: &'a [&'a str]) -> Result<Option<Setting>, Error>
    ensures { AreWordsReadAs (map (λ word. word.now) words.entry.now) result }
{
    let program = program(alloc)?;
    let matches = program.try_get_matches_from(words)?;
    Ok(setting_of(&matches))
}

fn setting_of(options: &ArgMatches<'_>) -> Option<Setting>
    ensures some { IfSome result (IsSetting options.now) }
    ensures none { (setting : Setting) → IsSetting options.now setting → IsSome result }
{
    let limits = limits_of(options)?;
    let config = config_of(options)?;
    Some(Setting {
        limits,
        offers: Offers {
            utf8: options.get_flag("utf-8"),
            utf32: options.get_flag("utf-32"),
        },
        config,
    })
}

fn config_of(options: &ArgMatches<'_>) -> Option<Config>
    ensures some { IfSome result (IsConfig options.now) }
    ensures none { (config : Config) → IsConfig options.now config → IsSome result }
{
    let limits = server_limits(options)?;
    let choice = choice_of(options)?;
    let sync = sync_of(options)?;
    Some(Config {
        limits,
        choice,
        sync,
    })
}

fn sync_of(options: &ArgMatches<'_>) -> Option<ChangeForm>
    ensures { result ≡ form_given options.now }
{
    match options.get_str("sync")? {
        "full" => Some(ChangeForm::Full),
        _ => Some(ChangeForm::Incremental),
    }
}

fn choice_of(options: &ArgMatches<'_>) -> Option<EncodingChoice>
    ensures { result ≡ choice_given options.now }
{
    if let Some(name) = options.get_str("fixed") {
        return Some(EncodingChoice::Fixed(Encoding::of_name(name)?));
    }
    let prefer = Encoding::of_name(options.get_str("prefer")?)?;
    Some(EncodingChoice::Negotiated { prefer })
}

/// Returns the server's limits. Those that no option sets are the client's.
fn server_limits(options: &ArgMatches<'_>) -> Option<Limits>
    ensures some { IfSome result (AreServerLimits options.now) }
    ensures none { (limits : LimitsData) → AreServerLimits options.now limits → IsSome result }
{
    let max_body = either(options, "server-max-body", "max-body")?;
    let max_text = either(options, "server-max-text", "max-text")?;
    let max_docs = either(options, "server-max-docs", "max-docs")?;
    let max_changes = either(options, "server-max-changes", "max-changes")?;
    let Ok(limits) = Limits::new(max_body, max_text, max_docs, max_changes) else {
        return None;
    };
    Some(with_leniency(options, limits))
}

/// Returns these limits, lenient if that is asked for, which is for both ends.
fn with_leniency(options: &ArgMatches<'_>, limits: Limits) -> Limits
    requires { limits.lenient ≡ false }
    ensures limits { result ≡ record limits { lenient = result.lenient } }
    ensures lenient { IsFlag options.now (codes "lenient") result.lenient }
{
    if options.get_flag("lenient") {
        return limits.lenient();
    }
    limits
}

/// Returns the number of the first option, or else that of the second.
fn either(options: &ArgMatches<'_>, first: &str, second: &str) -> Option<usize>
    ensures some { IfSome result (HasEither options.now first.now second.now) }
    ensures none { (n : ℕ) → HasEither options.now first.now second.now n → IsSome result }
{
    number_of(options, first).or(number_of(options, second))
}
