//! Laws that no call states. Clauses name constants, and C sees numbers: so the codes' numbers are
//! a law.

ghost use Rattle.laspidru.specs.laws.Numbers.{CountFrom, codes, kinds};

/// Does nothing: its contract states the numbers that C sees. Each code and each kind of an answer
/// has the number that `include/laspidru.h` gives it, so no two codes are equal, and no two kinds.
pub fn number_laws()
    ensures codes { CountFrom 0 codes }
    ensures kinds { CountFrom 0 kinds }
{}
