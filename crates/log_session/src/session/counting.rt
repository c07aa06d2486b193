//! What counts as refused, and how it is counted.

ghost use Rattle.std.specs.Prelude.{◌≡◌};
ghost use Rattle.lsp_server.specs.Seen.{answer_view};
ghost use Rattle.lsp_stream.specs.Ports.{one_more};
ghost use Rattle.log_session.specs.Session.{has_changed, is_refused, refuses};
ghost use Rattle.log_session.specs.inside.Verdicts.{verdict_view};

use crate::session::Verdict;
use lsp_message::ErrorCode;
use lsp_server::Answer;

/// Returns one more, up to the greatest value.
pub fn one_more(count: u64) -> u64
    ensures { result ≡ one_more count }
{
    count.saturating_add(1)
}

/// Returns whether an answer counts as refused.
pub fn is_refused(answer: &Answer) -> bool
    ensures { result ≡ is_refused (answer_view answer.now) }
{
    match answer {
        Answer::Reply { code, .. } => !matches!(code, None | Some(ErrorCode::MethodNotFound)),
        Answer::Refused(_) => true,
        Answer::Exit(status) => *status != 0,
        Answer::Changed | Answer::Dropped | Answer::Ignored => false,
    }
}

/// Returns whether a record counts as refused.
pub fn refuses(verdict: &Verdict) -> bool
    ensures { result ≡ refuses (verdict_view verdict.now) }
{
    match verdict {
        Verdict::Answered(answer) => is_refused(answer),
        Verdict::Recorded | Verdict::Bad => false,
    }
}

/// Returns whether a record changed documents.
pub fn has_changed(verdict: &Verdict) -> bool
    ensures { result ≡ has_changed (verdict_view verdict.now) }
{
    matches!(verdict, Verdict::Answered(Answer::Changed))
}
