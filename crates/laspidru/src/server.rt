//! The function that makes a server.

ghost use Rattle.std.specs.Prelude.{◌≡◌, ◌≢◌, Some};
ghost use Rattle.laspidru.specs.declared.object.Object.TheVariants.{End as EndOf};
ghost use Rattle.laspidru.specs.Codes.{IsAnswerOrNoMemory, unless};
ghost use Rattle.laspidru.specs.Objects.{in_use};
ghost use Rattle.laspidru.specs.Servers.{config_asked, server_end};

use crate::answers::{Settings, config_of};
use crate::codes::{OK, or_return};
use crate::end::End;
use crate::handle::Handle;
use crate::object::Object;
use crate::party::Party;
use crate::stream::Stream;
use lsp_server::Server;
use std::alloc::Global;

/// Makes a server in an empty handle, at the start of a session. Codes, in this order: IN_USE,
/// BAD_ENCODING, BAD_MAX_BODY, BAD_MAX_TEXT, BAD_MAX_DOCS, BAD_MAX_CHANGES; OUT_OF_MEMORY.
#[unsafe(no_mangle)]
pub extern "C" fn laspidru_server_new(
    alloc: Global,
    handle: &mut Handle,
    settings: &Settings,
) -> u32
    ensures answer { let asked = unless (in_use handle.old.value) (config_asked settings.now) in
        IsAnswerOrNoMemory asked result (λ config.
        (result ≡ OK) × (handle.new.value ≡ Some (EndOf (server_end config)))) }
    ensures unchanged { result ≢ OK → handle.new.value ≡ handle.old.value }
{
    or_return!(handle.check_empty(alloc));
    let config = or_return!(config_of(settings));
    let limits = config.limits;
    let held = End {
        party: Party::Server(Server::new(alloc, config)),
        frame: Vec::new(alloc),
        stream: Stream::new(alloc, limits),
    };
    handle.fill(alloc, Object::End(held))
}
