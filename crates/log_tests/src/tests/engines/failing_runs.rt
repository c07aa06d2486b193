//! Runs of an engine whose reader or writer is slow, is interrupted or fails.

use super::*;

/// A run of an engine, and its progress.
pub struct Case {
    pub command: Command,
    pub input: Bytes,
    pub output: Bytes,
    pub end: End,
    /// How many bytes were read and written when a record was handled, for each that has output.
    pub records: &'static [(usize, usize)],
    /// Which of the writer's calls flush, if each write takes one byte.
    pub flushes: &'static [usize],
}

impl Case {
    /// Returns how many bytes are written once so many were read.
    fn written_at(&self, read: usize) -> usize {
        let mut written = 0;
        for (bytes, output) in self.records {
            if *bytes <= read {
                written = *output;
            }
        }
        written
    }
}

/// The result of a run, and how much it writes.
#[derive(Clone, Copy)]
struct Wanted {
    answer: Answer,
    written: usize,
}

/// A case with its bytes.
#[derive(Drop)]
pub struct Runs<'a> {
    alloc: Global,
    case: &'a Case,
    input: Vec<u8>,
    output: Vec<u8>,
}

impl<'a> Runs<'a> {
    pub fn new(alloc: Global, case: &'a Case) -> Result<Runs<'a>, AllocError> {
        Ok(Runs {
            alloc,
            case,
            input: case.input.get(alloc)?,
            output: case.output.get(alloc)?,
        })
    }

    fn meets(&self, calls: Calls, wanted: Wanted) -> Result<bool, Fail> {
        let run = run_with(
            self.alloc,
            self.case.command,
            &self.input,
            settings()?,
            calls,
        )?;
        Ok(
            run.answer == wanted.answer
                && Some(run.output.as_slice()) == self.output.get(..wanted.written),
        )
    }

    /// Returns what is wanted of the run to its end.
    fn whole(&self) -> Wanted {
        Wanted {
            answer: self.case.end.answer(),
            written: self.output.len(),
        }
    }

    /// Returns how many reads of one byte it makes: one for each byte, and one that comes to the
    /// end. `serve` has no such read, since it ends at the exit, and `replay` up to a record reads
    /// no further than that.
    fn reads(&self) -> usize {
        match self.case.command {
            Command::Serve => self.input.len(),
            Command::Text(Some(_)) => self.read_at_last(),
            _ => self.input.len().saturating_add(1),
        }
    }

    /// Returns how many bytes were read when the last record that has output was handled.
    fn read_at_last(&self) -> usize {
        match self.case.records.last() {
            Some((read, _)) => *read,
            None => 0,
        }
    }

    /// Returns how many calls of the writer it makes that write one byte or flush.
    fn writes(&self) -> usize {
        self.output.len().saturating_add(self.case.flushes.len())
    }

    /// Returns whether the run is as wanted if the reader returns single bytes, and is interrupted
    /// before each.
    pub fn reads_slowly(&self) -> Result<bool, Fail> {
        let twice = interrupted(self.alloc, self.reads())?;
        let calls = Calls {
            reads: &twice,
            ..SINGLE
        };
        self.meets(calls, self.whole())
    }

    /// Returns whether the run is as wanted if the read of this number fails.
    fn fails_at_read(&self, script: &[CallEnd], number: usize) -> Result<bool, Fail> {
        let calls = Calls {
            reads: script,
            ..SMOOTH
        };
        let failed = Wanted {
            answer: Err(EngineFault::Read),
            written: self.case.written_at(number),
        };
        self.meets(calls, failed)
    }

    pub fn each_read_fails(&self) -> Result<bool, Fail> {
        let mut script = script(self.alloc, self.reads())?;
        for number in 0..self.reads() {
            set(&mut script, number, CallEnd::Fail);
            if !self.fails_at_read(&script, number)? {
                return Ok(false);
            }
            set(&mut script, number, CallEnd::Take(1));
        }
        Ok(true)
    }

    /// Returns whether the run is as wanted if the writer takes single bytes, and is interrupted
    /// before each.
    pub fn writes_slowly(&self) -> Result<bool, Fail> {
        let twice = interrupted(self.alloc, self.writes())?;
        let calls = Calls {
            writes: &twice,
            ..SMOOTH
        };
        self.meets(calls, self.whole())
    }

    /// Returns how many of the writer's first calls flush.
    fn flushed_before(&self, number: usize) -> usize {
        let mut flushed = 0usize;
        for flush in self.case.flushes {
            if *flush < number {
                flushed = flushed.saturating_add(1);
            }
        }
        flushed
    }

    /// Returns whether the run is as wanted if the writer's call of this number fails, or takes
    /// nothing.
    fn fails_at_write(&self, script: &[CallEnd], number: usize) -> Result<bool, Fail> {
        let calls = Calls {
            writes: script,
            ..SMOOTH
        };
        let written = number.saturating_sub(self.flushed_before(number));
        let failed = Wanted {
            answer: Err(EngineFault::Write),
            written,
        };
        self.meets(calls, failed)
    }

    pub fn each_write_fails(&self, ending: CallEnd) -> Result<bool, Fail> {
        let mut script = script(self.alloc, self.writes())?;
        for number in 0..self.writes() {
            // A flush has nothing to take.
            if ending == CallEnd::Fail || !self.case.flushes.contains(&number) {
                set(&mut script, number, ending);
                if !self.fails_at_write(&script, number)? {
                    return Ok(false);
                }
                set(&mut script, number, CallEnd::Take(1));
            }
        }
        Ok(true)
    }
}

/// Returns a script in which each call is interrupted, and then moves one byte.
fn interrupted(alloc: Global, calls: usize) -> Result<Vec<CallEnd>, AllocError> {
    let mut script = Vec::new(alloc);
    for _ in 0..calls {
        script.push(CallEnd::Interrupt)?;
        script.push(CallEnd::Take(1))?;
    }
    Ok(script)
}

/// From now on the call of this number ends like this.
fn set(script: &mut [CallEnd], number: usize, ending: CallEnd) {
    if let Some(call) = script.get_mut(number) {
        *call = ending;
    }
}

/// Returns a script in which each call moves one byte.
fn script(alloc: Global, calls: usize) -> Result<Vec<CallEnd>, AllocError> {
    let mut script = Vec::new(alloc);
    for _ in 0..calls {
        script.push(CallEnd::Take(1))?;
    }
    Ok(script)
}
