//! The search for the line of a byte offset.
ghost use Rattle.std.specs.Prelude.{◌≡◌, ◌+◌, ◌≤◌, ◌<◌, ◌^◌, ℕ, List, min, length, slice_index};
ghost use Rattle.lsp_text.specs.Starts.{AreStarts, IsLineOf};

/// Starts of lines, with a count of the looks at them: how many starts were read.
pub trait Starts {
    /// The starts.
    ghost starts: { Self → List ℕ };

    /// How many looks there were. The count saturates at `usize::MAX`.
    ghost looks: { Self → ℕ };

    /// Returns how many starts there are.
    fn len(&self) -> usize
        ensures { result ≡ length (starts self.now) };

    /// Returns the start with this index, and counts a look.
    fn at(&mut self, index: usize) -> usize
        requires { index < length (starts self.old) }
        ensures start { result ≡ slice_index (starts self.old) index }
        ensures counted { looks self.new ≡ min (looks self.old + 1) usize.MAX }
        ensures unchanged { starts self.new ≡ starts self.old };

    /// There is at least one start, the first is 0, and they ascend.
    ghost are_starts: { (s : Self) → AreStarts (starts s) };
}

/// Returns the line of a byte offset: the last line whose start is at most the offset. It is a
/// binary search: it takes at most as many looks as the number of starts has binary digits.
pub fn line_of<S: Starts>(starts: &mut S, place: usize) -> usize
    ensures line { IsLineOf (S.starts starts.old) place result }
    ensures looks { (digits : ℕ) → length (S.starts starts.old) < 2 ^ digits
        → S.looks starts.new ≤ S.looks starts.old + digits }
    ensures unchanged { S.starts starts.new ≡ S.starts starts.old }
{
    let mut low = 0;
    let mut high = starts.len();
    while high - low > 1 {
        let middle = low + (high - low) / 2;
        if starts.at(middle) <= place {
            low = middle;
        } else {
            high = middle;
        }
    }
    low
}

/// The line starts of a text, with a count of the looks at them.
#[derive(Debug, Drop)]
pub struct Looks<'a> {
    starts: &'a [u32],
    looks_made: usize,
    ghost are_starts: { AreStarts starts.now },
}

impl<'a> Looks<'a> {
    /// Makes it with no look counted.
    pub(crate) fn new(starts: &'a [u32]) -> Self
        requires { AreStarts starts.now }
        ensures starts { result.starts.now ≡ starts.now }
        ensures looks_made { result.looks_made ≡ 0 }
    {
        Looks {
            starts,
            looks_made: 0,
        }
    }

    /// Returns how many looks there were. The count saturates at `usize::MAX`.
    pub fn looks_made(&self) -> usize
        ensures { result ≡ ⟦<Looks<'a> as Starts>⟧.looks self.now }
    {
        self.looks_made
    }
}

impl Starts for Looks<'_> {
    ghost starts = { λ looks. looks.starts.now };

    ghost looks = { λ looks. looks.looks_made };

    fn len(&self) -> usize {
        self.starts.len()
    }

    fn at(&mut self, index: usize) -> usize {
        self.looks_made = self.looks_made.saturating_add(1);
        self.starts[index] as usize
    }

    ghost are_starts = { λ looks. looks.are_starts };
}
