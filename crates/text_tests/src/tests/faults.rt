//! The text of each fault, and of an encoding.

use lsp_edit::{BatchFault, EditFault, Side, TextEditFault};
use lsp_samples::shown::wrong_text;
use lsp_text::{Encoding, InsideCharacter, UnknownEncoding};
use std::test::Fail;

static ENCODINGS: [(Encoding, &str); 2] = [(Encoding::Utf8, "utf-8"), (Encoding::Utf32, "utf-32")];

static POSITION: [(InsideCharacter, &str); 1] = [(
    InsideCharacter,
    "the position lies inside a character",
)];

static NAME: [(UnknownEncoding, &str); 1] = [(UnknownEncoding, "no encoding has this name")];

static CHANGE: [(EditFault, &str); 3] = [
    (
        EditFault::InsideCharacter {
            change: 0,
            side: Side::Start,
        },
        "change at index 0: the start of its range lies inside a character",
    ),
    (
        EditFault::ReversedRange { change: 1 },
        "change at index 1: the range is reversed",
    ),
    (EditFault::NoMemory, "out of memory"),
];

static BATCH: [(BatchFault, &str); 3] = [
    (
        BatchFault::Edit(EditFault::ReversedRange { change: 2 }),
        "change at index 2: the range is reversed",
    ),
    (BatchFault::TooLong, "the text is too long"),
    (BatchFault::NoMemory, "out of memory"),
];

static TEXT_EDITS: [(TextEditFault, &str); 4] = [
    (
        TextEditFault::InsideCharacter {
            edit: 3,
            side: Side::Stop,
        },
        "edit at index 3: the end of its range lies inside a character",
    ),
    (
        TextEditFault::ReversedRange { edit: 1 },
        "edit at index 1: the range is reversed",
    ),
    (
        TextEditFault::Overlap {
            first: 4,
            second: 2,
        },
        "edits at the indexes 4 and 2 overlap",
    ),
    (TextEditFault::NoMemory, "out of memory"),
];

#[test]
fn each_fault_has_its_text(rt: HostRuntime) -> Result<(), Fail> {
    let alloc = rt.alloc();
    assert_eq!(rt; wrong_text(alloc, &ENCODINGS)?, None);
    assert_eq!(rt; wrong_text(alloc, &POSITION)?, None);
    assert_eq!(rt; wrong_text(alloc, &NAME)?, None);
    assert_eq!(rt; wrong_text(alloc, &CHANGE)?, None);
    assert_eq!(rt; wrong_text(alloc, &BATCH)?, None);
    assert_eq!(rt; wrong_text(alloc, &TEXT_EDITS)?, None);
    Ok(())
}
