//! The program as `clap` sees it: its options.

ghost use Rattle.std.specs.Prelude.{IfOk};
ghost use Rattle.clap.specs.Words.{app_of};
ghost use Rattle.lsp_simulate.specs.CommandLine.{IsProgram};

use crate::command_line::help;
use clap::Command;
use lsp_program::{OptionNames, VERSION, change_forms, encodings, with_arguments};
use std::alloc::{AllocError, Global};

/// Returns the program with its options.
pub fn program<'a>(alloc: Global) -> Result<Command<'a>, AllocError>
    ensures { IfOk result (λ program. IsProgram (app_of program)) }
{
    let names = OptionNames {
        encodings: encodings(),
        change_forms: change_forms(),
    };
    let program = Command::new(alloc, "lsp_simulate")
        .about(help::ABOUT)
        .after_help(help::NOTES)
        .version(VERSION);
    with_arguments(alloc, program, names, help::options())
}
