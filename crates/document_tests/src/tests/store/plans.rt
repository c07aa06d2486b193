//! A batch that is planned: its message, its body and its text are read from the plan, other
//! batches are joined to it, and it is applied.

ghost use Rattle.std.specs.Prelude.{IfOk};
ghost use Rattle.lsp_store.specs.Plan.{IsPlanOn};
ghost use Rattle.lsp_store.specs.Squash.{HasReached};

use super::{URI, store_again};
use crate::tests::is_left;
use lsp_edit::Change;
use lsp_samples::again;
use lsp_samples::bodies::{CANONICAL, CHANGE};
use lsp_samples::edits::{ALL, Edit, batch_again};
use lsp_store::{Batches, Plan, Store, StoreFault};
use lsp_text::Encoding;
use std::alloc::{AllocError, Global};
use std::test::Fail;

/// A text, a batch, its canonical body, and the text after it.
type Row = (&'static str, &'static [Edit], &'static str, &'static str);

const NOTHING: &str =
    r#"{"jsonrpc":"2.0","method":"textDocument/didChange","params":{"contentChanges":[],"textDocument":{"uri":"file:///a","version":2}}}"#;

const TWO: &str =
    r#"{"jsonrpc":"2.0","method":"textDocument/didChange","params":{"contentChanges":[{"range":{"end":{"character":3,"line":0},"start":{"character":3,"line":0}},"text":"Y"},{"range":{"end":{"character":1,"line":0},"start":{"character":0,"line":0}},"text":"Z"}],"textDocument":{"uri":"file:///a","version":2}}}"#;

static ROWS: [Row; 4] = [
    ("abc", &[(0, 1, 0, 2, "X")], CHANGE, "aXc"),
    ("abc", &[(0, 0, 0, 1, "Z"), (0, 3, 0, 3, "Y")], TWO, "ZbcY"),
    (
        "abc",
        &[(0, 1, 0, 1, "X"), (0, 1, 0, 2, "")],
        NOTHING,
        "abc",
    ),
    ("abc", &[(ALL, 0, 0, 0, "aXc")], CANONICAL, "aXc"),
];

/// Returns whether a plan has the message of its row.
fn has_message(
    store: &Store,
    plan: &Plan<'_>,
    row: &Row,
    refused: &mut usize,
) -> Result<bool, StoreFault>
    requires { IsPlanOn store.now plan.now }
{
    let frame = again!(refused, StoreFault::NoMemory, store.planned_message(plan))?;
    Ok(frame.as_slice().ends_with(row.2.as_bytes()))
}

/// Returns whether a plan's body is appended to bytes. Out of memory leaves them as they were.
fn has_body(
    alloc: Global,
    store: &Store,
    plan: &Plan<'_>,
    row: &Row,
    refused: &mut usize,
) -> Result<bool, StoreFault>
    requires { IsPlanOn store.now plan.now }
{
    let mut bytes = Vec::new(alloc);
    if matches!(
        store.push_planned_body(&mut bytes, plan),
        Err(StoreFault::NoMemory)
    ) {
        *refused = refused.saturating_add(1);
        if !bytes.is_empty() {
            return Ok(false);
        }
        store.push_planned_body(&mut bytes, plan)?;
    }
    Ok(bytes.as_slice() == row.2.as_bytes())
}

/// Returns whether a plan leaves the text of its row.
fn has_text(
    store: &Store,
    plan: &Plan<'_>,
    row: &Row,
    refused: &mut usize,
) -> Result<bool, AllocError>
    requires { IsPlanOn store.now plan.now }
{
    let text = again!(refused, AllocError, store.planned_text(plan))?;
    Ok(text.as_str() == row.3)
}

/// Plans a batch. Out of memory is counted, and the call made again.
fn plan_again<'a>(
    store: &Store,
    changes: &'a [Change],
    refused: &mut usize,
) -> Result<Plan<'a>, StoreFault>
    ensures { IfOk result (IsPlanOn store.now) }
{
    again!(
        refused,
        StoreFault::NoMemory,
        store.plan(URI, 2, Encoding::Utf16, changes)
    )
}

/// Returns whether message, body and text of a plan are those of its row.
fn is_read(
    alloc: Global,
    store: &Store,
    changes: &[Change],
    row: &Row,
    refused: &mut usize,
) -> Result<bool, StoreFault> {
    let plan = plan_again(store, changes, refused)?;
    Ok(
        has_message(store, &plan, row, refused)?
            && has_body(alloc, store, &plan, row, refused)?
            && has_text(store, &plan, row, refused)?,
    )
}

/// Plans a batch and applies the plan. Where memory runs out the store is as it was, and both calls
/// are made again.
fn is_applied(
    store: &mut Store,
    changes: &[Change],
    row: &Row,
    refused: &mut usize,
) -> Result<bool, StoreFault> {
    let plan = plan_again(store, changes, refused)?;
    if store.apply(plan).is_err() {
        *refused = refused.saturating_add(1);
        if !is_left(store, Some((1, row.0))) {
            return Ok(false);
        }
        let plan = plan_again(store, changes, refused)?;
        store.apply(plan)?;
    }
    Ok(is_left(store, Some((2, row.3))))
}

fn is_planned(alloc: Global, row: &Row, refused: &mut usize) -> Result<bool, StoreFault> {
    let mut store = store_again(alloc, row.0, refused)?;
    let changes = batch_again(alloc, row.1, refused)?;
    Ok(
        is_read(alloc, &store, &changes, row, refused)?
            && is_applied(&mut store, &changes, row, refused)?,
    )
}

#[test]
fn refused_reading_and_applying_of_a_plan(rt: HostRuntime) -> Result<(), Fail> {
    let mut refused = 0;
    for (index, row) in ROWS.iter().enumerate() {
        assert!(rt; is_planned(rt.alloc(), row, &mut refused)?, "{index}");
    }
    println!(rt; "refused {refused}")?;
    Ok(())
}

/// Starts batches at the document of a plan. Out of memory is counted, and the call made again.
fn start_again(
    alloc: Global,
    store: &Store,
    plan: &Plan<'_>,
    refused: &mut usize,
) -> Result<Batches, AllocError>
    requires { IsPlanOn store.now plan.now }
    ensures { IfOk result (λ batches. (on : IsPlanOn store.now plan.now) →
        HasReached batches on.entry) }
{
    let document = store.planned_document(plan);
    let limits = store.limits();
    if let Ok(batches) = Batches::start(alloc, limits, &document, Encoding::Utf16) {
        return Ok(batches);
    }
    *refused = refused.saturating_add(1);
    let batches = Batches::start(alloc, limits, &document, Encoding::Utf16)?;
    Ok(batches)
}

/// Returns whether batches have a message with this end.
fn end_with(batches: &Batches, end: &str, refused: &mut usize) -> Result<bool, StoreFault> {
    let frame = again!(refused, StoreFault::NoMemory, batches.message())?;
    Ok(frame.ends_with(end.as_bytes()))
}

/// The end of the body of no batch, under the version before the plan.
const NO_BATCH: &str =
    "{\"contentChanges\":[],\"textDocument\":{\"uri\":\"file:///a\",\"version\":1}}}";

/// Adds a plan's batch to batches. Out of memory leaves them as they were; it is counted, and the
/// call made again.
fn is_added(
    batches: &mut Batches,
    store: &Store,
    plan: &Plan<'_>,
    refused: &mut usize,
) -> Result<bool, StoreFault>
    requires on { IsPlanOn store.now plan.now }
    requires reached { (on : IsPlanOn store.now plan.now) → HasReached batches.old on.entry }
{
    if batches.add_plan(store, plan).is_ok() {
        return Ok(true);
    }
    *refused = refused.saturating_add(1);
    let unchanged = end_with(batches, NO_BATCH, refused)?;
    batches.add_plan(store, plan)?;
    Ok(unchanged)
}

/// Returns whether a plan that is added to batches has its message there.
fn is_joined(
    alloc: Global,
    store: &Store,
    plan: &Plan<'_>,
    body: &str,
    refused: &mut usize,
) -> Result<bool, StoreFault>
    requires { IsPlanOn store.now plan.now }
{
    let mut batches = start_again(alloc, store, plan, refused)?;
    Ok(is_added(&mut batches, store, plan, refused)? && end_with(&batches, body, refused)?)
}

fn is_joined_again(alloc: Global, row: &Row, refused: &mut usize) -> Result<bool, StoreFault> {
    let store = store_again(alloc, row.0, refused)?;
    let changes = batch_again(alloc, row.1, refused)?;
    let plan = plan_again(&store, &changes, refused)?;
    is_joined(alloc, &store, &plan, row.2, refused)
}

#[test]
fn refused_batches_of_a_plan(rt: HostRuntime) -> Result<(), Fail> {
    let mut refused = 0;
    for (index, row) in ROWS.iter().enumerate() {
        assert!(rt; is_joined_again(rt.alloc(), row, &mut refused)?, "{index}");
    }
    println!(rt; "refused {refused}")?;
    Ok(())
}
