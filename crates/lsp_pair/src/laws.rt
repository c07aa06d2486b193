//! Laws of a pair, which no call states.

ghost use Rattle.lsp_pair.specs.laws.Commanded.{CommandedLaw};
ghost use Rattle.lsp_pair.specs.laws.Steps.{AgreeLaw, StepLaw};

/// Does nothing: its contract states what holds of each pair, and of each step of one.
///
/// - `step`: the server refuses and drops no message of this client, which never fails.
/// - `agree`: from Ready on both ends use the encoding that was chosen.
/// - `commanded`: the client's documents are the table of the document commands that it sent, the
///   server's that of those that were delivered.
pub fn pair_laws()
    ensures step { StepLaw }
    ensures agree { AgreeLaw }
    ensures commanded { CommandedLaw }
{}
