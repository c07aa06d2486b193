//! A client and a server that talk: the program of the head comment of `lsp_client`.

use super::{Ask, URI, answer_to};
use lsp_client::{Client, Delivered, Phase};
use lsp_frame::Framer;
use lsp_message::Offers;
use lsp_server::{Answer, Config, EncodingChoice, Server};
use lsp_text::Encoding;
use std::alloc::Global;
use std::test::Fail;

/// Both ends of a session, in one program.
#[derive(Drop)]
struct Ends {
    client: Client,
    server: Server,
}

fn new_ends(alloc: Global) -> Ends {
    let config = Config {
        choice: EncodingChoice::Negotiated {
            prefer: Encoding::Utf8,
        },
        ..Config::default()
    };
    Ends {
        client: Client::new(alloc, config.limits, Offers::new(true, false)),
        server: Server::new(alloc, config),
    }
}

/// Passes the body of a frame to the server, and returns the frame of its reply.
fn serve(alloc: Global, server: &mut Server, frame: &[u8]) -> Result<Option<Vec<u8>>, Fail> {
    let mut framer = Framer::new(alloc, server.store().limits());
    let _taken = framer.feed(frame)?;
    let Some(body) = framer.body() else {
        return Ok(None);
    };
    match server.handle(body)? {
        Answer::Reply { frame, .. } => Ok(Some(frame)),
        _ => Ok(None),
    }
}

/// Passes the body of a frame to the client, and returns the frame that it sends.
fn hear(alloc: Global, client: &mut Client, frame: &[u8]) -> Result<Option<Vec<u8>>, Fail> {
    let mut framer = Framer::new(alloc, client.store().limits());
    let _taken = framer.feed(frame)?;
    let Some(body) = framer.body() else {
        return Ok(None);
    };
    match client.deliver(body)? {
        Delivered::Send(frame) => Ok(Some(frame)),
        _ => Ok(None),
    }
}

impl Ends {
    /// Passes a frame to the server, its reply to the client, and so on until nothing is sent.
    fn exchange(&mut self, alloc: Global, frame: Vec<u8>) -> Result<(), Fail> {
        let mut to_server = Some(frame);
        for _ in 0..2 {
            let Some(frame) = to_server else {
                return Ok(());
            };
            let Some(reply) = serve(alloc, &mut self.server, &frame)? else {
                return Ok(());
            };
            to_server = hear(alloc, &mut self.client, &reply)?;
        }
        Ok(())
    }

    /// Makes a call, and passes on the frames that follow from it.
    fn call(&mut self, alloc: Global, asked: Ask) -> Result<(), Fail> {
        match answer_to(alloc, &mut self.client, asked)?? {
            Delivered::Send(frame) => self.exchange(alloc, frame),
            _ => Ok(()),
        }
    }

    fn server_text(&self) -> &str {
        match self.server.store().get(URI) {
            Some(document) => document.text().as_str().unwrap_or("in blocks"),
            None => "",
        }
    }
}

/// What the editor does, and the server's text after it.
static TALK: [(Ask, &str); 6] = [
    (Ask::Start, ""),
    (Ask::Open("😀c"), "😀c"),
    (Ask::Edit(2, 4, 4, "b"), "😀bc"),
    (Ask::Close, ""),
    (Ask::Shutdown, ""),
    (Ask::Exit, ""),
];

#[test]
fn a_client_and_a_server_talk(rt: HostRuntime) -> Result<(), Fail> {
    let mut ends = new_ends(rt.alloc());
    for (asked, text) in &TALK {
        ends.call(rt.alloc(), *asked)?;
        assert_eq!(rt; ends.server_text(), *text, "{asked:?}");
    }
    assert_eq!(rt; ends.client.encoding(), Some(Encoding::Utf8));
    assert_eq!(rt; ends.client.phase(), Phase::Done);
    Ok(())
}
