//! What `clap` found of options that both programs have.

ghost use Rattle.std.specs.Prelude.{IfSome, IsSome, ℕ};
ghost use Rattle.lsp_frame.specs.Limits.{LimitsData};
ghost use Rattle.lsp_program.specs.Found.{AreLimits, HasNumber};

use clap::ArgMatches;
use lsp_frame::Limits;

/// Returns the limits that `--max-body`, `--max-text`, `--max-docs`, `--max-changes` and `--lenient`
/// set.
pub fn limits_of(options: &ArgMatches<'_>) -> Option<Limits>
    ensures some { IfSome result (AreLimits options.now) }
    ensures none { (limits : LimitsData) → AreLimits options.now limits → IsSome result }
{
    let max_body = number_of(options, "max-body")?;
    let max_text = number_of(options, "max-text")?;
    let max_docs = number_of(options, "max-docs")?;
    let max_changes = number_of(options, "max-changes")?;
    let Ok(limits) = Limits::new(max_body, max_text, max_docs, max_changes) else {
        return None;
    };
    if options.get_flag("lenient") {
        return Some(limits.lenient());
    }
    Some(limits)
}

/// Returns the number of an option.
pub fn number_of(options: &ArgMatches<'_>, id: &str) -> Option<usize>
    ensures some { IfSome result (HasNumber options.now id.now) }
    ensures none { (n : ℕ) → HasNumber options.now id.now n → IsSome result }
{
    options.get_one::<usize>(id)
}
