//! How accepted changes are joined to the open series.

ghost use Rattle.std.specs.Prelude.{◌≡◌, IfOk, None};
ghost use Rattle.lsp_message.specs.Seen.{change_view};
ghost use Rattle.lsp_server.specs.Planned.{IsPlanOfChange};
ghost use Rattle.log_rewrite.specs.inside.Joining.{MayBeOpenIn, IsOpenIn, IsChangeWriting, IsBegun, IsJoined};
ghost use Rattle.log_session.specs.inside.Taken.{server_after};

use log_session::{Session, Witness, unless_refused};
use lsp_message::ChangeParams;
use lsp_server::Server;
use lsp_store::{Batches, Plan};
use lsp_text::Encoding;
use std::alloc::{AllocError, Global};

/// How an accepted change is written with squash, and which batches are open after it.
#[derive(Drop)]
pub enum Writing {
    /// Its canonical body is over the limit.
    TooLong,
    /// It is of the open series' document: its canonical frame, and the batches with it.
    Continues(Vec<u8>, Batches),
    /// It is of another document: its canonical frame, the series that it ends, and the batches
    /// that it begins.
    Begins(Vec<u8>, Option<Batches>, Batches),
}

/// Joins the next record to the open series, if it is an accepted change.
#[derive(Drop)]
pub struct Joiner {
    /// The batches of the series that is open before the record, if there is one.
    pub batches: Option<Batches>,
    /// How the record is written, if it is an accepted change: then it has the batches.
    pub writing: Option<Writing>,
}

impl Joiner {
    /// Starts before a record.
    pub fn new(batches: Option<Batches>) -> Joiner
        ensures { result ≡ record { batches = batches; writing = None } }
    {
        Joiner {
            batches,
            writing: None,
        }
    }
}

impl Witness for Joiner {
    ghost Fits = { λ joiner server. MayBeOpenIn server joiner.batches };

    ghost HasSeen = { λ old new server p. IsJoined server old.batches p new.writing };

    fn see(
        &mut self,
        session: &Session,
        params: &ChangeParams,
        plan: &Plan<'_>,
    ) -> Result<(), AllocError> {
        let series = self.batches.take();
        let writing = join(session.alloc(), session.server(), params, plan, series)?;
        self.writing = Some(writing);
        Ok(())
    }
}

/// Joins an accepted change to the batches of the open series if they are of its document. Else
/// batches of its own begin.
fn join(
    alloc: Global,
    server: &Server,
    params: &ChangeParams,
    plan: &Plan<'_>,
    series: Option<Batches>,
) -> Result<Writing, AllocError>
    requires planned { IsPlanOfChange server.now (change_view params.now) plan.now }
    requires may_be_open { MayBeOpenIn server.now series }
    ensures { IfOk result (IsChangeWriting server.now series (change_view params.now)) }
{
    let store = server.store();
    let Some(frame) = unless_refused(store.planned_message(plan))? else {
        return Ok(Writing::TooLong);
    };
    let Some(mut batches) = series else {
        let begun = begin(alloc, server, params, plan)?;
        return Ok(Writing::Begins(frame, None, begun));
    };
    if batches.uri() == params.uri.as_str() {
        batches.add_plan(store, plan)?;
        return Ok(Writing::Continues(frame, batches));
    }
    let begun = begin(alloc, server, params, plan)?;
    Ok(Writing::Begins(frame, Some(batches), begun))
}

/// Starts batches with an accepted change.
fn begin(
    alloc: Global,
    server: &Server,
    _params: &ChangeParams,
    plan: &Plan<'_>,
) -> Result<Batches, AllocError>
    requires planned { IsPlanOfChange server.now (change_view _params.now) plan.now }
    ensures { IfOk result (λ batches. IsBegun server.now (change_view _params.now) batches
        × IsOpenIn (server_after server.now (change_view _params.now)) batches) }
{
    let encoding = server.encoding().unwrap_or(Encoding::Utf16);
    let store = server.store();
    let document = store.planned_document(plan);
    let limits = store.limits();
    let mut batches = Batches::start(alloc, limits, &document, encoding)?;
    batches.add_plan(store, plan)?;
    Ok(batches)
}
