//! Several messages in a row, and what a server keeps of them.

use crate::fault::{INVALID, word_of};
use anyhow::{Context, Result, bail};
use lsp_frame::Limits;
use lsp_message::{ParamsFault, params_change, params_close, params_open};
use lsp_store::{Document, Store, StoreFault};
use lsp_text::Encoding;
use serde_json::{Value, json};
use std::alloc::Global;

/// Returns the answer to each message, and the documents that are open after the last.
pub fn session_expected(alloc: Global, encoding: Encoding, messages: Value) -> Result<Value> {
    let Value::Array(messages) = messages else {
        bail!("messages are a list");
    };
    let mut store = Store::new(alloc, Limits::default());
    let mut answers = Vec::new(alloc);
    for message in messages {
        let word = step(alloc, &mut store, encoding, message)?;
        answers.push(Value::String(String::from_str(alloc, word)?))?;
    }
    let answers = Value::Array(answers);
    let documents = documents_value(alloc, &store)?;
    Ok(json!(in alloc; {"answers": answers, "documents": documents})?)
}

/// What the store says of a message, or why its params aren't those of one.
type Taken = Result<Result<(), StoreFault>, ParamsFault>;

/// Takes a message, and returns the word for what came of it.
fn step(
    alloc: Global,
    store: &mut Store,
    encoding: Encoding,
    message: Value,
) -> Result<&'static str> {
    let Value::Object(mut message) = message else {
        bail!("a message is an object");
    };
    let params = message.remove("params");
    let method = message.get("method").context("a message has a method")?;
    let taken = match method.as_str() {
        Some("textDocument/didOpen") => open(alloc, store, params),
        Some("textDocument/didChange") => change(alloc, store, encoding, params),
        Some("textDocument/didClose") => close(alloc, store, params),
        _ => bail!("a message is about a document"),
    };
    match taken {
        Ok(Ok(())) => Ok("changed"),
        Ok(Err(fault)) => word_of(fault),
        Err(ParamsFault::InvalidParams) => Ok(INVALID),
        Err(ParamsFault::NoMemory) => bail!("out of memory"),
    }
}

fn open(alloc: Global, store: &mut Store, params: Option<Value>) -> Taken {
    let params = params_open(alloc, params)?;
    Ok(store.open(params.uri, params.language, params.version, params.text))
}

fn change(alloc: Global, store: &mut Store, encoding: Encoding, params: Option<Value>) -> Taken {
    let params = params_change(alloc, params)?;
    Ok(store.change(&params.uri, params.version, encoding, &params.changes))
}

fn close(alloc: Global, store: &mut Store, params: Option<Value>) -> Taken {
    let params = params_close(alloc, params)?;
    Ok(store.close(&params.uri))
}

fn documents_value(alloc: Global, store: &Store) -> Result<Value> {
    let mut values = Vec::new(alloc);
    for document in store {
        values.push(document_value(alloc, document)?)?;
    }
    Ok(Value::Array(values))
}

fn document_value(alloc: Global, document: Document<'_>) -> Result<Value> {
    let uri = String::from_str(alloc, document.uri())?;
    let text = document.text().to_string(alloc)?;
    let version = document.version();
    Ok(json!(in alloc; {"uri": uri, "version": version, "text": text})?)
}
