//! Maps, documents and the sessions about them: worked rows, printed faults, and calls that run out
//! of memory.

mod client;
mod faults;
mod map;
mod pair;
mod server;
mod store;

use lsp_store::Store;

const URI: &str = "file:///a";

/// The version and the text of the document of [`URI`]; none where it isn't open.
type Open = Option<(i32, &'static str)>;

/// Returns whether the document of [`URI`] is so, and no other is open.
fn is_left(store: &Store, wanted: Open) -> bool {
    match (store.get(URI), wanted) {
        (None, None) => store.is_empty(),
        (Some(document), Some((version, text))) => {
            store.len() == 1 && document.version() == version && document.text().is_text(text)
        }
        _ => false,
    }
}
