//! The tests of `lsp_frame` and `lsp_message`: what no clause of theirs says.
#![tactic(auto)]

#[cfg(test)]
mod tests;
