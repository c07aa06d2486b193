//! The tests of `lsp_stream`, `lsp_log` and `lsp_replay`: what no clause of theirs says.
#![tactic(auto)]

#[cfg(test)]
mod tests;
