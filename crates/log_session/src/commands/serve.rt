//! `serve`.

ghost use Rattle.std.specs.Prelude.{◌≡◌, true};
ghost use Rattle.lsp_stream.specs.Ports.{ports};
ghost use Rattle.log_session.specs.Run.{IsEngineRun};
ghost use Rattle.log_session.specs.Serve.{serve_engine};

use crate::engine::{InputRules, run_on};
use crate::outcome::Outcome;
use crate::pipeline::Pipeline;
use crate::printer::serve::Serve;
use crate::session::Session;
use lsp_server::Config;
use lsp_stream::{Duplex, EngineFault, Sink, Source};
use std::alloc::Global;

/// Runs a server's end of a session (LSP 3.17, Lifecycle Messages). Writes each reply as soon as
/// the client's message is complete, and flushes it before more is read ([`serve_on`] has that as a
/// clause). Ends at `exit`, with its status, and reads nothing after it. If the input ends without
/// one, the status is 1.
///
/// # Errors
/// Each fault of [`EngineFault`], but [`EngineFault::BodyTooLong`] and [`EngineFault::BadLog`]. A
/// message that the server refuses is no fault.
///
/// # Costs
/// At most `max_turns` reads, writes and flushes. The time is linear in the input, plus what the
/// messages cost. Memory is for the open documents, one message and one piece of 65,536 bytes.
pub fn serve<R: Source, W: Sink>(
    alloc: Global,
    reader: &mut R,
    writer: &mut W,
    config: Config,
    max_turns: u64,
) -> Result<Outcome, EngineFault>
    ensures run { IsEngineRun (serve_engine config) max_turns
        (ports (R.seen reader.old) (W.seen writer.old))
        (ports (R.seen reader.new) (W.seen writer.new)) result }
{
    let mut ends = Duplex::new(reader, writer);
    serve_on(alloc, &mut ends, config, max_turns)
}

/// Runs [`serve`] over both ends of a connection. Each read comes after all that was written is
/// flushed, so [`Duplex::read_early`] stays as it was. All that the writer took before must be
/// flushed.
pub fn serve_on<R: Source, W: Sink>(
    alloc: Global,
    ends: &mut Duplex<'_, R, W>,
    config: Config,
    max_turns: u64,
) -> Result<Outcome, EngineFault>
    ensures run { IsEngineRun (serve_engine config) max_turns
        (ports (R.seen ends.old.reader.now) (W.seen ends.old.writer.now))
        (ports (R.seen ends.new.reader.now) (W.seen ends.new.writer.now)) result }
    // No read came before all that was written was flushed.
    ensures in_time { (W.seen ends.old.writer.now).flushed ≡ true →
        ends.new.read_early ≡ ends.old.read_early }
    ensures same_reader { ends.new.reader.ghost_name ≡ ends.old.reader.ghost_name }
    ensures same_writer { ends.new.writer.ghost_name ≡ ends.old.writer.ghost_name }
{
    let rules = InputRules {
        limits: config.limits,
        versions: false,
        refuses_two: false,
    };
    let serve = Serve {
        session: Session::new(alloc, config),
    };
    let mut pipeline = Pipeline::new(alloc, serve, None);
    run_on(alloc, ends, &mut pipeline, rules, true, max_turns)
}
