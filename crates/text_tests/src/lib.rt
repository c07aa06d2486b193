//! The tests of `lsp_text`, `lsp_buffer` and `lsp_edit`: what no clause of theirs says.
#![tactic(auto)]

#[cfg(test)]
mod tests;
