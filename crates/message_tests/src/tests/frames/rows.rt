//! Streams and what they are read as.

/// Streams of one frame, whose body is `[]`.
pub static FRAMES: [&[u8]; 17] = [
    b"Content-Length: 2\r\n\r\n[]",
    b"Content-Length: 02\r\n\r\n[]",
    b"Content-Length: 0000000000000000000000002\r\n\r\n[]",
    b"CONTENT-LENGTH:2\r\n\r\n[]",
    b"content-length: 2\r\n\r\n[]",
    b"Content-Length:\t 2\t \r\n\r\n[]",
    b"Content-Length: 2 \r\n\r\n[]",
    b"Content-Length: 2\r\nContent-Lengths: 3\r\n\r\n[]",
    b"a:\r\n!~: x\r\nContent-Length: 2\r\n\r\n[]",
    b"!~:\t ~:\r\nContent-Length: 2\r\n\r\n[]",
    b"Content-Type:\r\nContent-Length: 2\r\n\r\n[]",
    b"Content-Length: 2\r\nContent-Type: application/vscode-jsonrpc; charset=utf-8\r\n\r\n[]",
    b"Content-Type: x; charset\r\nContent-Length: 2\r\n\r\n[]",
    b"Content-Type: x;y;  ChArSeT  = \tUtF-8 ;z=\r\nContent-Length: 2\r\n\r\n[]",
    b"Content-Type: charset=latin1\r\nContent-Length: 2\r\n\r\n[]",
    b"Content-Type: x;charset=\"utf8\";charset=utf-8\r\nContent-Length: 2\r\n\r\n[]",
    b"Content-Type: x;charsets=latin1;acharset=latin1\r\nContent-Length: 2\r\n\r\n[]",
];

/// A stream that begins with no frame, the code of its fault, and the offset.
type Faulty = (&'static [u8], &'static str, u64);

pub static FAULTS: [Faulty; 20] = [
    (b"Content-Length : 2", "F1", 14),
    (b"Content-Length: 2\n", "F1", 17),
    (b"Content-Length: 2\r[]", "F1", 18),
    (b"Content-Length: 2\r\n\r\r\n", "F1", 20),
    (b"Content-Length: 2\r\n\tx", "F1", 19),
    (b":", "F1", 0),
    (b"a\x20:", "F1", 1),
    (b"a\x7f:", "F1", 1),
    (b"a\x80:", "F1", 1),
    (b"a:\x1f", "F1", 2),
    (b"a:\xff", "F1", 2),
    (b"\r\n", "F3", 1),
    (b"Content-Type: x;charset=latin1\r\n\r\n", "F3", 33),
    (b"Content-Length: x\r\nContent-Length: 2\r\n\r\n", "F4", 39),
    (b"content-TYPE:\r\nContent-Type:\r\n\r\n", "F4", 31),
    (b"Content-Length: \r\n\r\n", "F5", 19),
    (b"Content-Length: +2\r\n\r\n", "F5", 21),
    (b"Content-Length: 04097\r\n\r\n", "F6", 24),
    (b"Content-Length: 18446744073709551616\r\n\r\n", "F6", 39),
    (
        b"Content-Type: x;charset=utf-8;charset=\"\r\nContent-Length: 2\r\n\r\n",
        "F7",
        61,
    ),
];

/// What comes before a letter, the letter, how often it is repeated, what comes after it, the code
/// of the fault, and its offset.
pub type Long = (
    &'static str,
    &'static str,
    usize,
    &'static str,
    &'static str,
    u64,
);

pub static LONG_FAULTS: [Long; 3] = [
    ("Content-Length: ", "0", 8_173, "\r\n\r\n", "F2", 8_191),
    ("Content-Length: 2\r\n", "a", 8_172, " ", "F1", 8_191),
    ("Content-Length: ", "9", 8_000, "\r\n\r\n", "F6", 8_019),
];
