//! Documents that are opened and then closed, in order of opening and from the last on.

use crate::text::module_uri;
use crate::timing::time;
use lsp_frame::Limits;
use lsp_store::Store;
use std::alloc::{AllocError, Global};
use std::io;
use std::rt::Runtime;

/// Opens and closes half of so many documents, and then all of them.
pub fn run<R: Runtime + AllocGlobal>(rt: &R, count: u32) -> io::Result<()> {
    time_orders(rt, count / 2)?;
    time_orders(rt, count)
}

fn time_orders<R: Runtime + AllocGlobal>(rt: &R, count: u32) -> io::Result<()> {
    let (alloc, size) = (rt.alloc(), count as usize);
    let uris = uris(alloc, count)?;
    let what = "open all and close the first, documents";
    time(rt, what, size, 1, |_| closed(alloc, &uris, false))?;
    let what = "open all and close the last, documents";
    time(rt, what, size, 1, |_| closed(alloc, &uris, true))
}

/// Returns the URIs of so many documents.
fn uris(alloc: Global, count: u32) -> Result<Vec<String>, AllocError> {
    let mut uris = Vec::new(alloc);
    for number in 0..count {
        uris.push(module_uri(alloc, number)?)?;
    }
    Ok(uris)
}

/// Opens these documents, and closes them in order of opening or from the last on. Returns how many
/// there are.
fn closed(alloc: Global, uris: &[String], from_last: bool) -> Option<usize> {
    let mut store = opened(alloc, uris)?;
    for step in 0..uris.len() {
        let at = if from_last {
            uris.len() - 1 - step
        } else {
            step
        };
        store.close(&uris[at]).ok()?;
    }
    Some(uris.len())
}

/// Returns a store in which each of these documents is open.
fn opened(alloc: Global, uris: &[String]) -> Option<Store> {
    let limits = Limits::new(Limits::LEAST_BODY, 1_000, Limits::GREATEST_DOCS, 1).ok()?;
    let mut store = Store::new(alloc, limits);
    for uri in uris {
        open(&mut store, alloc, uri)?;
    }
    Some(store)
}

fn open(store: &mut Store, alloc: Global, uri: &String) -> Option<()> {
    let uri = uri.clone().ok()?;
    store
        .open(uri, String::new(alloc), 1, String::new(alloc))
        .ok()
}
