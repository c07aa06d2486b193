//! What is made of an accepted change from its plan, before it is applied.

ghost use Rattle.std.specs.Prelude.{⊤, OnOk};
ghost use Rattle.lsp_message.specs.Params.{ChangeData};
ghost use Rattle.lsp_message.specs.Seen.{change_view};
ghost use Rattle.lsp_server.specs.Planned.{IsPlanOfChange};
ghost use Rattle.lsp_server.specs.Step.{ServerData};

use crate::session::Session;
use lsp_message::ChangeParams;
use lsp_store::Plan;
use std::alloc::AllocError;

/// What reads something from the plan of an accepted change. Any other record leaves it as it is.
pub trait Witness {
    // What it wants to hold of itself and of the server.
    ghost Fits: { Self → ServerData → Type 0 };

    // What it has read of a change on a server, if it was the first before and is the second now.
    ghost HasSeen: { Self → Self → ServerData → ChangeData → Type 0 };

    /// Reads the plan of an accepted change, with the session as it is before the change.
    fn see(
        &mut self,
        session: &Session,
        params: &ChangeParams,
        plan: &Plan<'_>,
    ) -> Result<(), AllocError>
        requires planned { IsPlanOfChange session.now.server (change_view params.now) plan.now }
        requires fits { Fits self.old session.now.server }
        ensures { OnOk result
            (HasSeen self.old self.new session.now.server (change_view params.now)) };
}

/// Reads nothing.
#[derive(Clone, Copy)]
pub struct Nothing;

impl Witness for Nothing {
    ghost Fits = { λ _ _. ⊤ };

    ghost HasSeen = { λ _ _ _ _. ⊤ };

    fn see(
        &mut self,
        _session: &Session,
        _params: &ChangeParams,
        _plan: &Plan<'_>,
    ) -> Result<(), AllocError> {
        Ok(())
    }
}
