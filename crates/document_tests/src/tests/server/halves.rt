//! A change in its two halves: it is planned, and the plan is committed. Calls that run out of
//! memory are made again.

use super::{new_server, pass};
use crate::tests::{Open, URI, is_left};
use lsp_samples::again;
use lsp_samples::bodies::{INITIALIZE, OPEN};
use lsp_samples::edits::{ALL, Edit, batch};
use lsp_server::{Answer, ChangeParams, PlannedChange, Server, ServerFault};
use std::alloc::{AllocError, Global};
use std::test::Fail;

/// A batch on `abc`, and the text after it.
static ROWS: [(&[Edit], &str); 4] = [
    (&[(0, 1, 0, 2, "X")], "aXc"),
    (&[(0, 0, 0, 1, "Z"), (0, 3, 0, 3, "Y")], "ZbcY"),
    (&[(0, 1, 0, 1, "X"), (0, 1, 0, 2, "")], "abc"),
    (&[(ALL, 0, 0, 0, "aXc")], "aXc"),
];

fn params_of(alloc: Global, edits: &[Edit]) -> Result<ChangeParams, AllocError> {
    let changes = batch(alloc, edits)?;
    Ok(ChangeParams {
        uri: String::from_str(alloc, URI)?,
        version: 2,
        changes,
    })
}

/// Returns a server with the open document.
fn opened(alloc: Global) -> Result<Server, ServerFault> {
    let mut server = new_server(alloc);
    pass(&mut server, &[INITIALIZE, OPEN])?;
    Ok(server)
}

/// Plans a change, and commits the plan. Returns the answer.
fn perform(server: &mut Server, params: &ChangeParams) -> Result<Answer, ServerFault> {
    match server.plan_change(params) {
        Ok(PlannedChange::Accepted(plan)) => Ok(server.commit_change(plan)?),
        Ok(PlannedChange::Answered(answer)) => Ok(answer),
        Err(fault) => Err(fault),
    }
}

/// Returns whether a change leaves a text. Where memory runs out the document is unchanged, and
/// both halves are made again.
fn is_performed(
    server: &mut Server,
    params: &ChangeParams,
    after: Open,
    refused: &mut usize,
) -> Result<bool, ServerFault> {
    let mut answer = perform(server, params);
    if matches!(answer, Err(ServerFault::NoMemory)) {
        *refused = refused.saturating_add(1);
        if !is_left(server.store(), Some((1, "abc"))) {
            return Ok(false);
        }
        answer = perform(server, params);
    }
    Ok(answer == Ok(Answer::Changed) && is_left(server.store(), after))
}

fn is_changed(
    alloc: Global,
    row: &(&[Edit], &'static str),
    refused: &mut usize,
) -> Result<bool, Fail> {
    let params = again!(refused, AllocError, params_of(alloc, row.0))?;
    let mut server = again!(refused, ServerFault::NoMemory, opened(alloc))?;
    Ok(is_performed(&mut server, &params, Some((2, row.1)), refused)?)
}

#[test]
fn refused_halves_of_a_change(rt: HostRuntime) -> Result<(), Fail> {
    let mut refused = 0;
    for (number, row) in ROWS.iter().enumerate() {
        assert!(rt; is_changed(rt.alloc(), row, &mut refused)?, "{number}");
    }
    println!(rt; "refused {refused}")?;
    Ok(())
}
