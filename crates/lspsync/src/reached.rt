//! The part of a log before its fault, and the files of a folder up to there.

ghost use Rattle.std.specs.Prelude.{◌≡◌, IfSome, OnOk, true};
ghost use Rattle.lsp_log.specs.Splitting.{IsReady};
ghost use Rattle.lspsync.specs.Reached.{IsReplayed, IsReplayedRun};

use crate::command_line::Call;
use crate::fault_text::cause_of;
use crate::files::Folder;
use lsp_log::{Splitter, read_opening};
use lsp_program::MAX_TURNS;
use lsp_replay::{EngineFault, Part, Settings, Told, replay_part};
use lsp_stream::{Turns, read_piece};
use std::alloc::Global;
use std::io::{self, Read, Take};

/// The most bytes that one read asks for.
const PIECE: usize = 65_536;

/// The part of a log before a fault: its whole records up to the one at which the fault is.
#[derive(Clone, Copy, Debug, PartialEq, Eq)]
pub struct Front {
    pub records: u64,
    /// How many bytes it has.
    pub len: u64,
}

/// The files of a folder, of each only so many bytes.
#[derive(Drop)]
pub struct Fronts<'a, F> {
    pub folder: &'a F,
    pub len: u64,
}

impl<F: Folder> Folder for Fronts<'_, F> {
    ghost use Rattle.lspsync.specs.Openings.{front_known};

    ghost bytes = { λ it name. front_known it.len (F.bytes it.folder.now name) };

    type File = Take<F::File>;

    fn open(&self, name: &str) -> io::Result<Take<F::File>> {
        match self.folder.open(name) {
            Ok(file) => Ok(file.take(self.len)),
            Err(error) => Err(error),
        }
    }

    fn is_lasting(&self, name: &str) -> bool {
        self.folder.is_lasting(name)
    }
}

/// Returns how a call reads its log. `serve` reads none.
pub fn settings_of(call: &Call) -> Option<Settings> {
    match call {
        Call::Serve(_) => None,
        Call::Check { settings, .. }
        | Call::Explain { settings, .. }
        | Call::Trace { settings, .. }
        | Call::Replay(settings)
        | Call::ReplayPart(settings, _)
        | Call::Compare(settings, _)
        | Call::Normalise { settings, .. }
        | Call::Convert(settings) => Some(*settings),
    }
}

/// Returns the part of a log before a fault of the log, if `replay --at` shows the texts after its
/// last record: the log is read twice more. Returns none if it can't be, as a pipe, and without
/// memory.
pub fn front_before<F: Folder>(
    alloc: Global,
    name: &str,
    settings: &Settings,
    fault: EngineFault,
    folder: &F,
) -> Option<Front>
    ensures { IfSome result (λ front.
        IsReplayed settings.now (F.bytes folder.now name.now) front.records) }
{
    if !folder.is_lasting(name) || cause_of(fault).is_none() {
        return None;
    }
    let front = front_of(alloc, folder.open(name).ok()?, settings, fault)?;
    let Ok(file) = folder.open(name) else {
        return None;
    };
    if !is_replayed(alloc, file, settings, front.records) {
        return None;
    }
    Some(front)
}

/// Returns the part of a log before this fault.
fn front_of<T: Read + Drop>(
    alloc: Global,
    log: T,
    settings: &Settings,
    fault: EngineFault,
) -> Option<Front> {
    let mut input = Told::new(log);
    let mut turns = Turns::new(MAX_TURNS);
    let mut buf = [0u8; PIECE];
    let opening = read_opening(&mut input, &mut buf, true, &mut turns).ok()?;
    let mut from = opening.version.line().len();
    let mut to = opening.len;
    let mut cut = Cut {
        splitter: Splitter::new(alloc, settings.limits, opening.version),
        fault,
        front: Front {
            records: 0,
            len: from as u64,
        },
        read: from as u64,
    };
    'pieces: loop {
        if let Err(found) = cut.take(&buf[from..to]) {
            return cut.front_if(found);
        }
        from = 0;
        to = read_piece(&mut input, &mut buf, &mut turns).ok()?;
        if to == 0 {
            return cut.front_if(EngineFault::Truncated { place: cut.read });
        }
    }
}

/// A log that is split up to its fault.
#[derive(Drop)]
struct Cut {
    splitter: Splitter,
    fault: EngineFault,
    front: Front,
    /// How many bytes were read.
    read: u64,
}

impl Cut {
    /// Takes the next bytes. Fails at the fault.
    fn take(&mut self, piece: &[u8]) -> Result<(), EngineFault>
        requires { IsReady self.old.splitter }
        ensures { OnOk result (IsReady self.new.splitter) }
    {
        let mut at = 0;
        'bytes: while at < piece.len() {
            let taken = self.splitter.feed(&piece[at..])?;
            at += taken;
            self.read = self.read.saturating_add(taken as u64);
            let Some(_) = self.splitter.record() else {
                continue;
            };
            self.splitter.next();
            self.end_record()?;
        }
        Ok(())
    }

    /// Takes that a record has ended. Fails if the fault is at the next one.
    fn end_record(&mut self) -> Result<(), EngineFault>
        ensures { self.new.splitter ≡ self.old.splitter }
    {
        self.front = Front {
            records: self.front.records.saturating_add(1),
            len: self.read,
        };
        match self.fault {
            EngineFault::BadLog { place } | EngineFault::BodyTooLong { place }
                if place == self.read => Err(self.fault),
            _ => Ok(()),
        }
    }

    /// Returns the part before the fault, if it was found.
    fn front_if(&self, found: EngineFault) -> Option<Front> {
        if found == self.fault {
            Some(self.front)
        } else {
            None
        }
    }
}

/// Returns whether the texts after this record of a log can be shown.
fn is_replayed<T: Read + Drop>(alloc: Global, log: T, settings: &Settings, number: u64) -> bool
    ensures { result ≡ true → IsReplayedRun settings.now (T.remaining log) number }
{
    let mut input = Told::new(log);
    let mut texts = Told::new(Vec::new(alloc));
    let part = Part {
        at: Some(number),
        uri: None,
    };
    match replay_part(alloc, &mut input, &mut texts, *settings, part, MAX_TURNS) {
        Ok(outcome) => outcome.missing.is_none(),
        Err(_) => false,
    }
}
