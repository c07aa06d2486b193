//! Laws of the table of steps, which no call states.

ghost use Rattle.lsp_server.specs.laws.Steps.{RequestLaw, NotificationLaw, ResponseLaw, ForwardLaw, ConfigLaw, DocumentsLaw, RefusalLaw, OfferedLaw};

/// Does nothing: its contract states what holds of every step.
///
/// - `request`: each request before `exit` has one reply, with its id.
/// - `notification`, `response`: a notification and a response have no reply.
/// - `forward`, `config`: a session never returns to an earlier phase, and its configuration stays.
/// - `documents`: only what is answered as a change changes the documents.
/// - `refusal`: what is refused, dropped or ignored changes nothing.
/// - `offered`: an encoding that is negotiated was offered.
pub fn step_laws()
    ensures request { RequestLaw }
    ensures notification { NotificationLaw }
    ensures response { ResponseLaw }
    ensures forward { ForwardLaw }
    ensures config { ConfigLaw }
    ensures documents { DocumentsLaw }
    ensures refusal { RefusalLaw }
    ensures offered { OfferedLaw }
{}
