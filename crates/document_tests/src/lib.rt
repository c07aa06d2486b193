//! The tests of `ordered_map`, `lsp_store`, `lsp_server`, `lsp_client` and `lsp_pair`: what no
//! clause of theirs says.
#![tactic(auto)]

#[cfg(test)]
mod tests;
