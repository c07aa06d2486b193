//! The text of each fault.

use lsp_client::{ClientFault, Phase, Reason};
use lsp_edit::{EditFault, Side};
use lsp_pair::PairFault;
use lsp_samples::shown::wrong_text;
use lsp_server::ServerFault;
use lsp_store::StoreFault;
use std::test::Fail;

static STORE: [(StoreFault, &str); 9] = [
    (StoreFault::AlreadyOpen, "the document is open already"),
    (StoreFault::TooManyDocuments, "too many documents are open"),
    (StoreFault::TextTooLong, "the text is too long"),
    (StoreFault::NotOpen, "the document is not open"),
    (
        StoreFault::StaleVersion { held: -5 },
        "the version is not greater than -5",
    ),
    (
        StoreFault::TooManyChanges,
        "too many changes, or too long ones",
    ),
    (
        StoreFault::Edit(EditFault::InsideCharacter {
            change: 2,
            side: Side::Stop,
        }),
        "change at index 2: the end of its range lies inside a character",
    ),
    (
        StoreFault::BodyTooLong { len: 4_214 },
        "the body has 4214 bytes, more than the limit",
    ),
    (StoreFault::NoMemory, "out of memory"),
];

static SERVER: [(ServerFault, &str); 2] = [
    (ServerFault::AlreadyEnded, "the session has ended"),
    (ServerFault::NoMemory, "out of memory"),
];

static CLIENT: [(ClientFault, &str); 4] = [
    (
        ClientFault::WrongPhase {
            phase: Phase::Ready,
        },
        "the call isn't allowed in phase Ready",
    ),
    (
        ClientFault::WrongPhase {
            phase: Phase::Failed(Reason::NoSync),
        },
        "the call isn't allowed in phase Failed: \
         the server doesn't want to be notified of documents or of changes",
    ),
    (
        ClientFault::Store(StoreFault::StaleVersion { held: -7 }),
        "the version is not greater than -7",
    ),
    (ClientFault::NoMemory, "out of memory"),
];

static PAIR: [(PairFault, &str); 2] = [
    (
        PairFault::NotUtf16,
        "the server's encoding is fixed, and is not utf-16",
    ),
    (
        PairFault::LimitsTooSmall,
        "one of the server's limits is below the client's, or only the client is lenient",
    ),
];

#[test]
fn each_fault_has_its_text(rt: HostRuntime) -> Result<(), Fail> {
    let alloc = rt.alloc();
    assert_eq!(rt; wrong_text(alloc, &STORE)?, None);
    assert_eq!(rt; wrong_text(alloc, &SERVER)?, None);
    assert_eq!(rt; wrong_text(alloc, &CLIENT)?, None);
    assert_eq!(rt; wrong_text(alloc, &PAIR)?, None);
    Ok(())
}
