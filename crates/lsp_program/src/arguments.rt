//! The options and files of a command line, as tables, and how `clap` gets them.

ghost use Rattle.std.specs.Prelude.{◌≡◌, IfOk, false, map};
ghost use Rattle.clap.specs.Words.{rule_of};
ghost use Rattle.lsp_program.specs.Arguments.{AddsRules, defaults_of, option_rule, rule_by};
ghost use Rattle.lsp_program.specs.Arguments.{rule_of_value};

use clap::builder::ValueParser;
use clap::{Arg, ArgAction, Command};
use lsp_frame::Limits;
use std::alloc::{AllocError, Global};

/// An option or a file: its name, what it takes, and its meaning.
pub type Argument = (&'static str, Value, &'static str);

/// What an option takes, or which file it is.
#[derive(Clone, Copy, Debug)]
pub enum Value {
    /// Nothing: the option is a flag.
    Flag,
    /// Any text. Help has this word for it.
    Text(&'static str),
    /// A number, with a default or none.
    Number(Range, Option<&'static str>),
    /// The name of an encoding, with a default or none.
    Encoding(Option<&'static str>),
    /// The name of what a server asks changes for; by default `incremental`.
    ChangeForm,
    /// A file that has to be named.
    File,
    /// The file of a log; by default `-`, which is standard input.
    Log,
    /// Files of logs, with the same default.
    Logs,
}

/// The least and the greatest number that an option takes.
#[derive(Clone, Copy, Debug)]
pub struct Range {
    pub least: u64,
    pub greatest: u64,
}

/// The lengths that may be the greatest of a message.
pub const BODY: Range = Range {
    least: Limits::LEAST_BODY as u64,
    greatest: Limits::GREATEST_BODY as u64,
};

/// The lengths that may be the greatest of a document.
pub const TEXT: Range = Range {
    least: 0,
    greatest: Limits::GREATEST_TEXT as u64,
};

/// The numbers that may be the greatest of open documents.
pub const DOCS: Range = Range {
    least: 1,
    greatest: Limits::GREATEST_DOCS as u64,
};

/// The numbers that may be the greatest of changes in a message.
pub const CHANGES: Range = Range {
    least: 1,
    greatest: Limits::GREATEST_CHANGES as u64,
};

/// The names that options take.
#[derive(Clone, Copy, Debug)]
pub struct OptionNames<'a> {
    pub encodings: &'a [&'a str],
    pub change_forms: &'a [&'a str],
}

/// Adds options and files to a command.
pub fn with_arguments<'a>(
    alloc: Global,
    command: Command<'a>,
    names: OptionNames<'a>,
    arguments: &[Argument],
) -> Result<Command<'a>, AllocError>
    ensures { IfOk result
        (AddsRules command.entry (map (rule_by names.entry) arguments.now)) }
{
    let mut grown = command;
    for argument in arguments {
        let (name, value, help) = *argument;
        let arg = without_help(alloc, names, name, value).help(help);
        grown = grown.arg(arg)?;
    }
    Ok(grown)
}

/// Returns an option or a file, without its meaning.
fn without_help<'a>(alloc: Global, names: OptionNames<'a>, name: &'a str, value: Value) -> Arg<'a>
    ensures rule { rule_of result ≡ rule_of_value names.entry name.entry.now value }
    ensures global { result.global ≡ false }
{
    let plain = Arg::new(alloc, name);
    match value {
        Value::Flag => plain.long(name).action(ArgAction::SetTrue),
        Value::Text(word) => plain.long(name).value_name(word),
        Value::Number(range, default) => {
            let numbers = ValueParser::unsigned(range.least, range.greatest);
            option(alloc, name, numbers, default).value_name("N")
        }
        Value::Encoding(default) => {
            option(alloc, name, ValueParser::Names(names.encodings), default)
        }
        Value::ChangeForm => {
            let forms = ValueParser::Names(names.change_forms);
            option(alloc, name, forms, Some("incremental"))
        }
        Value::File => plain.required(true),
        Value::Log => plain.default_value("-"),
        Value::Logs => plain
            .default_value("-")
            .num_args(..)
            .action(ArgAction::Append),
    }
}

/// Returns an option with one value.
fn option<'a>(
    alloc: Global,
    name: &'a str,
    parser: ValueParser<'a>,
    default: Option<&'a str>,
) -> Arg<'a>
    ensures rule { rule_of result
        ≡ option_rule name.entry.now parser.entry (defaults_of default.entry) }
    ensures global { result.global ≡ false }
{
    let option = Arg::new(alloc, name)
        .long(name)
        .value_name("NAME")
        .value_parser(parser)
        .hide_possible_values(true);
    match default {
        Some(default) => option.default_value(default),
        None => option,
    }
}
