//! The version of both programs, and the names that their options take.

ghost use Rattle.std.specs.Prelude.{◌≡◌, ◌∷◌, [], codes, map};

/// The version of both programs.
pub const VERSION: &str = "0.1.0";

static ENCODINGS: [&str; 3] = ["utf-8", "utf-16", "utf-32"];

static CHANGE_FORMS: [&str; 2] = ["full", "incremental"];

/// Returns the names of the encodings of positions (LSP 3.17, PositionEncodingKind).
pub fn encodings() -> &'static [&'static str]
    ensures { map (λ name. name.now) result.now
        ≡ codes "utf-8" ∷ codes "utf-16" ∷ codes "utf-32" ∷ [] }
{
    ENCODINGS.as_slice()
}

/// Returns the names of what a server asks changes for: whole texts, or ranges.
pub fn change_forms() -> &'static [&'static str]
    ensures { map (λ name. name.now) result.now ≡ codes "full" ∷ codes "incremental" ∷ [] }
{
    CHANGE_FORMS.as_slice()
}
