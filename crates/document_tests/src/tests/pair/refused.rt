//! A run that runs out of memory once, and is continued.

use super::{Open, Script, ends_have, event, new_pair};
use lsp_pair::{Event, Pair, run_pair};
use lsp_samples::again;
use lsp_server::{ChangeForm, Phase};
use std::alloc::{AllocError, Global};
use std::test::Fail;

static SESSION: &[Script] = &[
    Script::Start,
    Script::Edit(2, 1, 2, "X"),
    Script::ToServer,
    Script::ToClient,
    Script::Open("abc"),
    Script::Edit(2, 1, 2, "X"),
    Script::ToServer,
    Script::ToServer,
    Script::ToServer,
];

static END: &[Script] = &[
    Script::Close,
    Script::Shutdown,
    Script::ToServer,
    Script::ToServer,
    Script::ToClient,
    Script::Exit,
    Script::ToServer,
    Script::ToServer,
];

fn events(alloc: Global, scripts: &[Script]) -> Result<Vec<Event>, AllocError> {
    let mut list = Vec::new(alloc);
    for script in scripts {
        list.push(event(alloc, *script)?)?;
    }
    Ok(list)
}

/// Whether a run comes to its end. What it left where memory ran out is run again.
fn is_run(pair: &mut Pair, events: &[Event], refused: &mut u32) -> bool {
    let first = run_pair(pair, events);
    if !first.out_of_memory {
        return true;
    }
    *refused = refused.saturating_add(1);
    let (_, rest) = events.split_at(first.stepped);
    !run_pair(pair, rest).out_of_memory
}

/// Returns whether the events are listed and run to their end.
fn runs(
    pair: &mut Pair,
    alloc: Global,
    scripts: &[Script],
    refused: &mut u32,
) -> Result<bool, AllocError> {
    let events = again!(refused, AllocError, events(alloc, scripts))?;
    Ok(is_run(pair, &events, refused))
}

const EDITED: Open = Some((2, "aXc"));

/// Returns whether both ends have the edited document after the session, and nothing waits; and
/// whether both have ended after its end.
fn is_session(alloc: Global, sync: ChangeForm, refused: &mut u32) -> Result<bool, Fail> {
    let mut pair = new_pair(alloc, sync)?;
    let ran = runs(&mut pair, alloc, SESSION, refused)?;
    let is_edited = ends_have(&pair, EDITED, EDITED) && pair.waiting() == (0, 0);
    Ok(ran && is_edited && runs(&mut pair, alloc, END, refused)? && is_ended(&pair))
}

fn is_ended(pair: &Pair) -> bool {
    ends_have(pair, None, None)
        && pair.server().phase() == Phase::Ended
        && pair.client().phase() == lsp_client::Phase::Done
}

#[test]
fn refused_session(rt: HostRuntime) -> Result<(), Fail> {
    let mut refused = 0;
    for sync in [ChangeForm::Incremental, ChangeForm::Full] {
        assert!(rt; is_session(rt.alloc(), sync, &mut refused)?);
    }
    println!(rt; "refused {refused}")?;
    Ok(())
}
