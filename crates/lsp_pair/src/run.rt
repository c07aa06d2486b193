//! Many steps of a pair.

ghost use Rattle.std.specs.Prelude.{◌↔◌, ◌≤◌, ◌<◌, ◌++◌, List, IsSomeAnd, IsTrue, length, map, slice_get, take};
ghost use Rattle.lsp_pair.specs.Events.{Setting, EventData};
ghost use Rattle.lsp_pair.specs.Pair.{IsFitting, IsRun, StepMayAllocate};
ghost use Rattle.lsp_pair.specs.laws.At.{IsAt};
ghost use Rattle.lsp_pair.specs.inside.History.{IsHistory};
ghost use Rattle.lsp_pair.specs.Documents.{History, HaveDocuments, IsLater};
ghost use Rattle.lsp_pair.specs.Seen.{event_view};

use crate::event::Event;
use crate::pair::Pair;

/// The progress of a run.
#[derive(Clone, Copy, Debug, PartialEq, Eq)]
pub struct Ran {
    /// The number of events whose step succeeded.
    pub stepped: usize,
    /// Whether the next step ran out of memory.
    pub out_of_memory: bool,
}

/// Runs the steps of events in order ([`Pair::step`]), until one runs out of memory.
///
/// The pair is then as after the steps before it, and a caller can run the rest of the events.
/// Costs what the steps cost.
pub fn run_pair(pair: &mut Pair, events: &[Event]) -> Ran
    ensures within { result.stepped ≤ length events.now }
    ensures all { (IsTrue result.out_of_memory) ↔ (result.stepped < length events.now) }
    // The step at which it stopped may take memory.
    ensures memory { IsTrue result.out_of_memory
        → IsSomeAnd (slice_get (map event_view events.now) result.stepped)
        (StepMayAllocate pair.new) }
    // The run consists of the steps of the first `stepped` events, and no other.
    ensures steps { IsRun pair.old (take result.stepped (map event_view events.now)) pair.new }
    // A pair at the world of a list of events is afterwards at the world of the list with these
    // added.
    ensures at { (setting : Setting) (before : List EventData) → IsFitting setting
        → IsAt setting pair.old before
        → IsAt setting pair.new (before ++ take result.stepped (map event_view events.now)) }
    // The server has the documents that the client had when it sent the last message that the
    // server has handled.
    ensures history { (h : History) → IsHistory h pair.old → (later : History)
        × IsLater h pair.old (take result.stepped (map event_view events.now)) later pair.new
        × IsHistory later pair.new × HaveDocuments later pair.new }
{
    let mut stepped = 0;
    for event in events {
        let Ok(_) = pair.step(event) else {
            return Ran {
                stepped,
                out_of_memory: true,
            };
        };
        stepped += 1;
    }
    Ran {
        stepped,
        out_of_memory: false,
    }
}
