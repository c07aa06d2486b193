//! The grammar of a header's line, byte by byte.

ghost use Rattle.std.specs.Prelude.{◌≡◌, ◌≢◌, ◌+◌, ◌<◌, ℕ, Bool, true, false, List, [], ◌∷◌, ◌++◌, length, take, slice_index, IsTrue, ◌↔◌, ◌⊎◌, IfSome, IfNone, IfOk, IfErr};
ghost use Rattle.lsp_frame.specs.Header.{IsNameByte, IsValueByte};
ghost use Rattle.lsp_frame.specs.declared.framer.shape.Shape.TheVariants as shape;
ghost use Rattle.lsp_frame.specs.inside.Stage.{IsPartOfLine, is_over, CanContinue};
ghost use Rattle.lsp_frame.specs.inside.Progress.{StopsHeader};

/// Which part of a header's line has come in.
#[derive(Clone, Copy, Debug, PartialEq, Eq)]
pub(crate) enum Shape {
    /// No byte.
    Start,
    /// Some bytes of its name.
    Name,
    /// Its name, the colon, and a part of its value.
    Value,
    /// All of it but the line feed.
    Return,
    /// All of it.
    Whole,
    /// The carriage return of the empty line that ends the header.
    LastReturn,
    /// That empty line, with its line feed.
    End,
}

fn is_name_byte(b: u8) -> bool
    ensures { IsTrue result ↔ IsNameByte b }
{
    b >= 33 && b <= 126 && b != b':'
}

fn is_value_byte(b: u8) -> bool
    ensures { IsTrue result ↔ IsValueByte b }
{
    b >= 32 && b <= 126 || b == b'\t'
}

impl Shape {
    /// Returns whether the header is whole.
    pub(crate) fn is_end(self) -> bool
        ensures { IsTrue result ↔ (self ≡ shape.End) }
    {
        matches!(self, Shape::End)
    }

    /// Returns the shape with one more byte, if some header has that byte there.
    fn after(self, b: u8) -> Option<Shape>
        ensures next { IfSome result (λ next. (part : List ℕ) → IsPartOfLine self part →
            IsPartOfLine next (part ++ b ∷ [])) }
        ensures none { IfNone result (is_over self ≡ false → (part : List ℕ) →
            IsPartOfLine self part → StopsHeader (part ++ b ∷ [])) }
        ensures over { IfSome result (λ next. is_over next ≡ true → b ≡ 10) }
    {
        match self {
            Shape::Start if is_name_byte(b) => Some(Shape::Name),
            Shape::Start if b == b'\r' => Some(Shape::LastReturn),
            Shape::Name if is_name_byte(b) => Some(Shape::Name),
            Shape::Name if b == b':' => Some(Shape::Value),
            Shape::Value if is_value_byte(b) => Some(Shape::Value),
            Shape::Value if b == b'\r' => Some(Shape::Return),
            Shape::Return if b == b'\n' => Some(Shape::Whole),
            Shape::LastReturn if b == b'\n' => Some(Shape::End),
            _ => None,
        }
    }

    /// Returns the shape with the bytes of a piece of a line. `Err` is the index of the first byte
    /// with which no header can continue.
    pub(crate) fn check(self, piece: &[u8]) -> Result<Shape, usize>
        requires open { is_over self ≡ false }
        requires one_line { (k : ℕ) → k + 1 < length piece.now → slice_index piece.now k ≢ 10 }
        ensures ok { IfOk result (λ shape. (part : List ℕ) → IsPartOfLine self part →
            IsPartOfLine shape (part ++ piece.now)) }
        ensures there { IfErr result (λ i. i < length piece.now) }
        ensures before { IfErr result (λ i. (part : List ℕ) → IsPartOfLine self part →
            CanContinue (part ++ take i piece.now)) }
        ensures stops { IfErr result (λ i. (part : List ℕ) → IsPartOfLine self part →
            StopsHeader (part ++ take (i + 1) piece.now)) }
    {
        let mut shape = self;
        for (i, b) in piece.iter().enumerate() {
            match shape.after(*b) {
                Some(next) => shape = next,
                None => return Err(i),
            }
        }
        Ok(shape)
    }
}
