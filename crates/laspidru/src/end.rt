//! An end of a session in a handle.

use crate::party::Party;
use crate::stream::Stream;
use std::marker::Model;

/// A server or a client, the frame that it sends last (no bytes if it sends none), and its stream.
#[derive(Drop)]
pub struct End {
    pub(crate) party: Party,
    pub(crate) frame: Vec<u8>,
    pub(crate) stream: Stream,
}

impl Model for End {
    ghost use Rattle.laspidru.specs.Streams.{EndData};

    ghost Value = { EndData };

    ghost view = { λ it. record { party = it.party; frame = it.frame.items; stream = it.stream } };
}
