//! The calls of a client's lifecycle: those of [`lsp_client::Client`].

ghost use Rattle.std.specs.Prelude.{◌≡◌, ◌≢◌};
ghost use Rattle.lsp_client.specs.Step.{exits, shuts_down, starts};
ghost use Rattle.laspidru.specs.Clients.{IsCallOn, as_client};
ghost use Rattle.laspidru.specs.Objects.{in_handle};

use crate::client::call::{Call, make_call};
use crate::codes::OK;
use crate::handle::Handle;
use std::alloc::Global;

/// Begins the session: the frame of `initialize` is to be sent (LSP 3.17, Initialize Request). The
/// client keeps the frame until its next accepted call or delivery, and `len` is how many bytes it
/// has. Codes, in this order: EMPTY, OTHER_KIND, WRONG_PHASE; OUT_OF_MEMORY. Costs
/// `Client::start`.
#[unsafe(no_mangle)]
pub extern "C" fn laspidru_client_start(alloc: Global, handle: &mut Handle, len: &mut usize) -> u32
    ensures answer { IsCallOn (in_handle as_client handle.old.value) starts result
        handle.new.value len.new }
    ensures unchanged { result ≢ OK
        → (handle.new.value ≡ handle.old.value) × (len.new ≡ len.old) }
{
    make_call(alloc, handle, Call::Start, len)
}

/// Asks the server to shut down: the frame of `shutdown` is to be sent (LSP 3.17, Shutdown
/// Request). Codes, in this order: EMPTY, OTHER_KIND, WRONG_PHASE; OUT_OF_MEMORY. Costs
/// `Client::shutdown`.
#[unsafe(no_mangle)]
pub extern "C" fn laspidru_client_shutdown(
    alloc: Global,
    handle: &mut Handle,
    len: &mut usize,
) -> u32
    ensures answer { IsCallOn (in_handle as_client handle.old.value) shuts_down result
        handle.new.value len.new }
    ensures unchanged { result ≢ OK
        → (handle.new.value ≡ handle.old.value) × (len.new ≡ len.old) }
{
    make_call(alloc, handle, Call::Shutdown, len)
}

/// Ends the session: the frame of `exit` is to be sent (LSP 3.17, Exit Notification). Codes, in
/// this order: EMPTY, OTHER_KIND, WRONG_PHASE; OUT_OF_MEMORY. Costs `Client::exit`.
#[unsafe(no_mangle)]
pub extern "C" fn laspidru_client_exit(alloc: Global, handle: &mut Handle, len: &mut usize) -> u32
    ensures answer { IsCallOn (in_handle as_client handle.old.value) exits result
        handle.new.value len.new }
    ensures unchanged { result ≢ OK
        → (handle.new.value ≡ handle.old.value) × (len.new ≡ len.old) }
{
    make_call(alloc, handle, Call::Exit, len)
}
