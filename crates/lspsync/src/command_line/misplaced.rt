//! The text on an option that only other commands have.

ghost use Rattle.std.specs.Prelude.{◌≡◌, IfOk};
ghost use Rattle.clap.specs.Values.{kind_of};

use clap::error::ErrorKind;
use clap::{Command, Error};
use std::alloc::{AllocError, Global};

/// Returns an error that names the commands which have the option that this one lacks, if the words
/// have such an option; else the error that is there.
pub fn placed<'a>(
    alloc: Global,
    program: &mut Command<'a>,
    words: &[&str],
    error: Error,
) -> Result<Error, AllocError>
    ensures { IfOk result (λ new. kind_of new ≡ kind_of error) }
{
    if error.kind() != ErrorKind::UnknownArgument {
        return Ok(error);
    }
    match misplaced(alloc, program, words)? {
        Some(message) => program.error(ErrorKind::UnknownArgument, message.as_str()),
        None => Ok(error),
    }
}

/// Returns which commands have the first option of these words that the command which they name
/// lacks.
fn misplaced(
    alloc: Global,
    program: &Command<'_>,
    words: &[&str],
) -> Result<Option<String>, AllocError> {
    let command = words.get(1).and_then(|name| program.find_subcommand(name));
    for word in words {
        if *word == "--" {
            return Ok(None);
        }
        let Some(named) = word.strip_prefix("--") else {
            continue;
        };
        let option = named.split_once('=').map_or(named, |parts| parts.0);
        if !command.is_some_and(|command| has_option(command, option)) {
            return owners(alloc, program, option);
        }
    }
    Ok(None)
}

/// Returns whether a command has an option of this name.
fn has_option(command: &Command<'_>, option: &str) -> bool {
    command
        .get_arguments()
        .iter()
        .any(|argument| argument.get_long() == Some(option))
}

/// Returns a sentence that names the commands which have this option, if there are some.
fn owners(
    alloc: Global,
    program: &Command<'_>,
    option: &str,
) -> Result<Option<String>, AllocError> {
    let mut sentence = format!(in alloc; "'--{option}' is an option of")?;
    let mut separator = " ";
    for command in program.get_subcommands() {
        if has_option(command, option) {
            sentence.push_str(separator)?;
            sentence.push_str(command.get_name())?;
            separator = ", ";
        }
    }
    if separator == " " {
        return Ok(None);
    }
    Ok(Some(sentence))
}
