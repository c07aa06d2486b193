//! The program as `clap` sees it: its commands and their options.

ghost use Rattle.std.specs.Prelude.{◌≡◌, IfOk};
ghost use Rattle.clap.specs.Words.{app_of, with_subcommand};
ghost use Rattle.lspsync.specs.CommandLine.{IsProgram};
ghost use Rattle.lspsync.specs.inside.Options.{IsCommand, shape_by};

use crate::command_line::help::{self, Page};
use clap::Command;
use lsp_program::{OptionNames, VERSION, change_forms, encodings, with_arguments};
use std::alloc::{AllocError, Global};

pub(crate) fn program<'a>(alloc: Global) -> Result<Command<'a>, AllocError>
    ensures { IfOk result (λ program. IsProgram (app_of program)) }
{
    let names = OptionNames {
        encodings: encodings(),
        change_forms: change_forms(),
    };
    let pages = help::pages();
    let mut program = Command::new(alloc, "lspsync")
        .about(help::ABOUT)
        .after_help(help::NOTES)
        .version(VERSION)
        .subcommand_required(true);
    for page in pages {
        program = with_command(alloc, program, *page, names)?;
    }
    Ok(program)
}

fn with_command<'a>(
    alloc: Global,
    program: Command<'a>,
    page: Page,
    names: OptionNames<'a>,
) -> Result<Command<'a>, AllocError>
    ensures { IfOk result (λ new. app_of new
        ≡ with_subcommand (app_of program.entry) (shape_by names.entry page)) }
{
    program.subcommand(command(alloc, page, names)?)
}

/// Makes a command with its options.
fn command<'a>(alloc: Global, page: Page, names: OptionNames<'a>) -> Result<Command<'a>, AllocError>
    ensures { IfOk result (IsCommand page names.entry) }
{
    let command = Command::new(alloc, page.name)
        .about(page.about)
        .after_help(page.example);
    let command = with_arguments(alloc, command, names, page.arguments)?;
    with_arguments(alloc, command, names, help::limits())
}
