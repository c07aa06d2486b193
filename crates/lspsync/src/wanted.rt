//! The document that a call names.

ghost use Rattle.std.specs.Prelude.{◌≡◌, IfSome, None, option_map, string_bytes};
ghost use Rattle.lspsync.specs.Wanted.{IsWanted};

use crate::command_line::Call;
use lsp_replay::Settings;
use std::alloc::Global;

/// The document that a call names, and how its log is read.
#[derive(Drop)]
pub struct Wanted {
    pub settings: Settings,
    pub ending: String,
    /// The text that it is compared with.
    pub saved: Option<String>,
}

/// Returns the document that a call names, if it names one. Without memory it returns none.
pub fn wanted_by(alloc: Global, call: &Call) -> Option<Wanted>
    ensures { IfSome result (IsWanted call.now) }
{
    match call {
        Call::ReplayPart(settings, part) => match &part.uri {
            Some(uri) => wanted_as(alloc, *settings, uri),
            None => None,
        },
        Call::Compare(settings, against) => {
            let wanted = wanted_as(alloc, *settings, &against.ending)?;
            let saved = String::from_str(alloc, &against.text).ok()?;
            Some(Wanted {
                saved: Some(saved),
                ..wanted
            })
        }
        _ => None,
    }
}

fn wanted_as(alloc: Global, settings: Settings, ending: &str) -> Option<Wanted>
    ensures { IfSome result (λ w. (w.settings ≡ settings) × (string_bytes w.ending ≡ ending.now)
        × (option_map string_bytes w.saved ≡ None)) }
{
    let ending = String::from_str(alloc, ending).ok()?;
    Some(Wanted {
        settings,
        ending,
        saved: None,
    })
}
