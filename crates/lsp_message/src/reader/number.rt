//! Numbers: which are in range, and which are whole.
//!
//! Up to 19 digits are added up; other numbers are tested as `serde_json` tests them, by
//! `fast_float`.

ghost use Rattle.std.specs.Prelude.{◌≡◌, ◌∷◌, ◌==◌, option_map, slice_index, MatchOption, IfSome, Some, true, false};
ghost use Rattle.serde_json.specs.Data.{unsigned};
ghost use Rattle.serde_json.specs.Read.{number_of, number_from, float_of};
ghost use Rattle.lsp_message.specs.Params.{version_in, coordinate_in};
ghost use Rattle.lsp_message.specs.Values.{whole_in};
ghost use Rattle.lsp_message.specs.inside.Scalars.{kept_number, number_data};

use fast_float::Numeral;

/// A number below this has room for one more digit in 64 bits.
const ROOM: u64 = 1_000_000_000_000_000_000;

/// A number, as far as the protocol needs it.
#[derive(Clone, Copy, Drop)]
pub(crate) enum Number {
    /// A whole number in the range of `u64`, without a sign.
    Natural(u64),
    /// A whole number below 0, in the range of `i64`.
    Negative(i64),
    /// Any other number that isn't too large for `f64`.
    Float,
}

impl Number {
    /// Reads the number of a token; `None` where it is too large for `f64`.
    #[inline(always)]
    pub(crate) fn parse(text: &str) -> Option<Number>
        ensures { option_map number_data result ≡ option_map kept_number (number_of text.now) }
    {
        match short_natural(text.as_bytes()) {
            Some(n) => Some(Number::Natural(n)),
            None => Number::parse_any(text),
        }
    }

    #[inline(never)]
    fn parse_any(text: &str) -> Option<Number>
        ensures { option_map number_data result ≡ option_map kept_number (number_of text.now) }
    {
        let bytes = text.as_bytes();
        match after_minus(bytes) {
            Some(digits) => Number::below_zero(&Numeral::scan(digits)),
            None => Number::from_zero(&Numeral::scan(bytes)),
        }
    }

    #[inline(always)]
    fn from_zero(numeral: &Numeral<'_>) -> Option<Number>
        ensures { option_map number_data result
            ≡ option_map kept_number (number_from false numeral.now) }
    {
        match numeral.to_u64() {
            Some(n) => Some(Number::Natural(n)),
            None => Number::nearest(false, numeral),
        }
    }

    #[inline(always)]
    fn below_zero(numeral: &Numeral<'_>) -> Option<Number>
        ensures { option_map number_data result
            ≡ option_map kept_number (number_from true numeral.now) }
    {
        match numeral.to_i64(true) {
            Some(n) if n < 0 => Some(Number::Negative(n)),
            _ => Number::nearest(true, numeral),
        }
    }

    #[inline(never)]
    fn nearest(negative: bool, numeral: &Numeral<'_>) -> Option<Number>
        ensures { option_map number_data result
            ≡ option_map kept_number (float_of negative numeral.now) }
    {
        if numeral.to_float::<f64>(negative).is_finite() {
            Some(Number::Float)
        } else {
            None
        }
    }

    /// Returns a whole number in the range of `i64`.
    pub(crate) fn whole(self) -> Option<i64>
        ensures { result ≡ whole_in (Some (number_data self)) }
    {
        match self {
            Number::Natural(n) => i64::try_from(n).ok(),
            Number::Negative(n) => Some(n),
            Number::Float => None,
        }
    }

    /// Returns a version.
    pub(crate) fn version(self) -> Option<i32>
        ensures { result ≡ version_in (Some (number_data self)) }
    {
        i32::try_from(self.whole()?).ok()
    }

    /// Returns a line or a character.
    #[inline(always)]
    pub(crate) fn coordinate(self) -> Option<u32>
        ensures { result ≡ coordinate_in (Some (number_data self)) }
    {
        match self {
            Number::Natural(n) => u32::try_from(n).ok(),
            Number::Negative(_) => None,
            Number::Float => None,
        }
    }
}

/// Reads up to 19 digits as a number; `None` for any other text.
#[inline(always)]
pub(crate) fn short_natural(bytes: &[u8]) -> Option<u64>
    ensures { IfSome result (λ n. number_of bytes.now ≡ Some (unsigned n)) }
{
    let mut value = 0u64;
    for byte in bytes {
        if value >= ROOM {
            return None;
        }
        let digit = char::from(*byte).to_digit(10)?;
        value = value * 10 + u64::from(digit);
    }
    if bytes.is_empty() { None } else { Some(value) }
}

/// Returns the bytes after a minus sign; `None` where there is none.
#[inline(always)]
fn after_minus(bytes: &[u8]) -> Option<&[u8]>
    ensures { MatchOption result ((slice_index bytes.now 0 == 45) ≡ false)
        (λ rest. bytes.now ≡ 45 ∷ rest.now) }
{
    match bytes.split_first() {
        Some((b'-', rest)) => Some(rest),
        _ => None,
    }
}
