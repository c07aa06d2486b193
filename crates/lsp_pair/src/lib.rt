//! Both ends of a session of the Language Server Protocol 3.17, and the frames on the way between
//! them.
//!
//! A [`Pair`] is a client, a server, and a queue of frames to each. It takes one [`Event`] at a
//! time: a call of the client, or the delivery of the first frame of a queue. Its contract is the
//! promise of this project (clause `history` of [`Pair::step`] and [`run_pair`]). After every list
//! of calls and deliveries the server has the texts and versions that the client had when it sent
//! the last delivered message.
//!
//! ```text
//! let mut pair = Pair::new(alloc, limits, offers, config)?;
//! pair.step(&Event::Start)?;             // Happened::Sent
//! pair.step(&Event::ToServer)?;          // Happened::Server(Did::Reply(None))
//! pair.step(&Event::ToClient)?;          // Happened::Client(Heard::Send)
//! pair.waiting();                        // (1, 0): `initialized` waits for the server
//! ```
//!
//! - `pair`: the two ends, and one step of them.
//! - `run`: many steps.
//! - `event`: what may happen, and what happened.
//! - `setting`: which configurations of the two ends fit together.
//! - `delivery`: an end handles the first frame of its queue.
//! - `laws`: what holds of each pair, whatever its events were.
#![tactic(auto)]

mod delivery;
mod event;
mod laws;
mod pair;
mod run;
mod setting;

pub use event::{Did, Event, Happened, Heard};
pub use laws::pair_laws;
pub use lsp_client::{Client, ClientFault, Reason};
pub use lsp_edit::Change;
pub use lsp_frame::{BadLimits, Limits};
pub use lsp_message::{ErrorCode, Offers};
pub use lsp_server::{ChangeForm, Config, EncodingChoice, Refusal, Server};
pub use lsp_text::Encoding;
pub use pair::Pair;
pub use run::{Ran, run_pair};
pub use setting::PairFault;
