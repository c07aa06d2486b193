//! How the versions of a document grow, and which version breaks its habit.

ghost use Rattle.std.specs.Prelude.{◌≡◌, ◌&&◌, int_lt};
ghost use Rattle.log_report.specs.Growths.{grown_by, has_batches, has_step, is_odd, is_usual};
ghost use Rattle.log_report.specs.Growths.{lead_after, no_pace, pace_after, step_after, usual_step};

use crate::counts::count_if;
use log_session::one_more;

/// What so many of the changes of a document did may be a habit.
const USUAL_COUNT: u64 = 4;

/// Of so many changes one may break it; of a step, which each other change votes against, one of twice
/// as many.
const USUAL_RATE: u64 = 8;

/// A version, a lower one that was sent before it, by how much it is above that, and how many changes
/// came with it.
#[derive(Clone, Copy)]
pub struct Grown {
    pub sent: i32,
    pub before: i32,
    pub by: u64,
    pub changes: usize,
}

impl Grown {
    /// Returns whether a version was left out.
    pub fn leaves_out(&self, version: i32) -> bool
        ensures { result ≡ (int_lt self.now.before version && int_lt version self.now.sent) }
    {
        self.before < version && version < self.sent
    }
}

/// Returns a version and the one that was sent before, if that is lower.
pub fn grown_by(sent: i32, before: i32, changes: usize) -> Option<Grown>
    ensures { result ≡ grown_by sent before changes }
{
    if sent <= before {
        return None;
    }
    Some(Grown {
        sent,
        before,
        by: (i64::from(sent) - i64::from(before)).unsigned_abs(),
        changes,
    })
}

/// How the versions of a document grew.
#[derive(Clone, Copy)]
pub struct Pace {
    /// After how many changes.
    pub changes: u64,
    /// What most of these grew by, if most grew by the same,
    pub step: u64,
    /// and by how many votes it leads: each that did is for it, and each other one against it.
    pub lead: u64,
    /// How many grew by the number of their changes.
    pub batches: u64,
}

impl Pace {
    /// Starts before the first change.
    pub fn nothing() -> Self
        ensures { result ≡ no_pace }
    {
        Pace {
            changes: 0,
            step: 0,
            lead: 0,
            batches: 0,
        }
    }

    /// Returns how they grew after one more change.
    pub fn after(self, grown: Grown) -> Self
        ensures { result ≡ pace_after self grown }
    {
        let is_batch = grown.by == grown.changes as u64;
        Pace {
            changes: one_more(self.changes),
            step: self.step_after(grown.by),
            lead: self.lead_after(grown.by),
            batches: count_if(is_batch, self.batches),
        }
    }

    fn step_after(self, by: u64) -> u64
        ensures { result ≡ step_after self by }
    {
        if self.lead == 0 { by } else { self.step }
    }

    fn lead_after(self, by: u64) -> u64
        ensures { result ≡ lead_after self by }
    {
        if self.lead == 0 || by == self.step {
            one_more(self.lead)
        } else {
            self.lead - 1
        }
    }

    /// Returns whether they grow by the same.
    fn has_step(self) -> bool
        ensures { result ≡ has_step self }
    {
        is_usual(self.changes, self.lead)
    }

    /// Returns whether they grow by the number of changes.
    fn has_batches(self) -> bool
        ensures { result ≡ has_batches self }
    {
        is_usual(self.changes, self.batches)
    }

    /// Returns what they grow by, if it is the same.
    pub fn usual_step(self) -> Option<u64>
        ensures { result ≡ usual_step self }
    {
        if self.has_step() {
            Some(self.step)
        } else {
            None
        }
    }

    /// Returns whether there is a habit, and a version breaks each that there is.
    pub fn is_odd(self, grown: Grown) -> bool
        ensures { result ≡ is_odd self grown }
    {
        let has_step = self.has_step();
        let has_batches = self.has_batches();
        (has_step || has_batches)
            && !(has_step && grown.by == self.step)
            && !(has_batches && grown.by == grown.changes as u64)
    }
}

/// Returns whether it is a habit that so many of some changes did the same.
fn is_usual(changes: u64, count: u64) -> bool
    ensures { result ≡ is_usual changes count }
{
    count >= USUAL_COUNT && changes - changes / USUAL_RATE <= count
}
