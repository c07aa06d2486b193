//! Laws that follow from the definitions alone, for proofs over positions.

ghost use Rattle.std.specs.Prelude.{ℕ, List};
ghost use Rattle.lsp_text.specs.laws.Encodings.{DefaultLaw, NameLaw, UnitLaw};
ghost use Rattle.lsp_text.specs.laws.Examples.{HoldsOnExamples};
ghost use Rattle.lsp_text.specs.laws.Lines.{LinesPart, StartsLaw, SplitsLaw, PastEndLaw};
ghost use Rattle.lsp_text.specs.laws.Places.{RisingLaw, EndsLaw, BoundaryLaw, IndexLaw};
ghost use Rattle.lsp_text.specs.laws.Places.{BytesBeforeLaw, BytesBetweenLaw, BytesAfterLaw, FurtherLaw};
ghost use Rattle.lsp_text.specs.laws.Positions.{DenotesLaw, WholeLaw, NearLaw, AloneLaw, ExactLaw, OrderLaw, PastLineLaw, PastTextLaw};
ghost use Rattle.lsp_text.specs.laws.Positions.{FoundLaw};

/// Promises what is true of positions in every text (LSP 3.17, Position). The call itself does
/// nothing.
///
/// - An exact position denotes its index, and belongs to no other. It depends only on the
///   characters before it.
/// - What a position denotes is an index of the text that splits no CRLF.
/// - A position that isn't past an end is the exact position of what it denotes: nothing is
///   rounded.
/// - A position past a line's content denotes the end of that content, one past the last line the
///   end of the text.
/// - `Ord` compares lines, then characters.
/// - `examples`: what the definitions say of some small texts.
///
/// The laws are for any units, if each character has at least one.
pub fn position_laws()
    ensures denotes { DenotesLaw }
    ensures whole { WholeLaw }
    ensures near { NearLaw }
    ensures alone { AloneLaw }
    ensures exact { ExactLaw }
    ensures past_line { PastLineLaw }
    ensures past_text { PastTextLaw }
    ensures order { OrderLaw }
    ensures examples { HoldsOnExamples }
{}

/// Promises what is true of the lines of every text (LSP 3.17, Text Documents). The call itself
/// does nothing.
///
/// - The lines together are the text, and a CRLF is one line end.
/// - The kept starts are the byte offsets of the lines' first indexes.
/// - The line that `line_of` finds among them is the line of the index at that offset.
/// - Whether an index splits a CRLF depends only on the characters around it. None from the end of
///   the text on does.
pub fn line_laws()
    ensures parts { (text : List ℕ) → LinesPart text }
    ensures starts { StartsLaw }
    ensures found { FoundLaw }
    ensures splits { SplitsLaw }
    ensures past_end { PastEndLaw }
{}

/// Promises what is true of the byte offsets of a text's indexes. The call itself does nothing.
///
/// - They rise strictly, from 0 to the number of bytes.
/// - They are the boundaries of characters, and each is the offset of exactly one index.
/// - The bytes before, between and after such offsets are those of the characters before, between
///   and after the indexes.
pub fn place_laws()
    ensures rising { RisingLaw }
    ensures ends { EndsLaw }
    ensures boundary { BoundaryLaw }
    ensures index { IndexLaw }
    ensures before { BytesBeforeLaw }
    ensures between { BytesBetweenLaw }
    ensures after { BytesAfterLaw }
    ensures further { FurtherLaw }
{}

/// Promises that each encoding is found by its name and by no other, that a character has 1 to 4
/// units, and that the default is UTF-16. The call itself does nothing.
pub fn encoding_laws()
    ensures name { NameLaw }
    ensures units { UnitLaw }
    ensures default { DefaultLaw }
{}
