//! The functions on clients alone.

ghost use Rattle.std.specs.Prelude.{◌≡◌, ◌≢◌, Some};
ghost use Rattle.laspidru.specs.declared.object.Object.TheVariants.{End as EndOf};
ghost use Rattle.laspidru.specs.Clients.{client_asked};
ghost use Rattle.laspidru.specs.Codes.{IsAnswerOrNoMemory, unless};
ghost use Rattle.laspidru.specs.Objects.{in_use};

mod call;
mod editing;
mod lifecycle;

use crate::answers::limits_in;
use crate::codes::{OK, or_return};
use crate::end::End;
use crate::handle::Handle;
use crate::object::Object;
use crate::party::Party;
use crate::reports::ClientSettings;
use crate::stream::Stream;
pub use call::Call;
use lsp_client::Client;
use lsp_message::Offers;
use std::alloc::Global;

/// Makes a client in an empty handle, at the start of a session. Codes, in this order: IN_USE,
/// BAD_MAX_BODY, BAD_MAX_TEXT, BAD_MAX_DOCS, BAD_MAX_CHANGES; OUT_OF_MEMORY.
#[unsafe(no_mangle)]
pub extern "C" fn laspidru_client_new(
    alloc: Global,
    handle: &mut Handle,
    settings: &ClientSettings,
) -> u32
    ensures answer { let asked = unless (in_use handle.old.value) (client_asked settings.now) in
        IsAnswerOrNoMemory asked result
        (λ held. (result ≡ OK) × (handle.new.value ≡ Some (EndOf held))) }
    ensures unchanged { result ≢ OK → handle.new.value ≡ handle.old.value }
{
    or_return!(handle.check_empty(alloc));
    let limits = or_return!(limits_in!(settings));
    let offers = Offers::new(settings.utf8, settings.utf32);
    let held = End {
        party: Party::Client(Client::new(alloc, limits, offers)),
        frame: Vec::new(alloc),
        stream: Stream::new(alloc, limits),
    };
    handle.fill(alloc, Object::End(held))
}
