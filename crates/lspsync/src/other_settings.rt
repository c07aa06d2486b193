//! By which other settings a log gives the text that it is compared with.

ghost use Rattle.std.specs.Prelude.{◌≡◌, IfSome, string_bytes, true};
ghost use Rattle.lspsync.specs.OtherSettings.{AreEqualWith, IsEqualRun, IsOther, IsSettingNamed};
ghost use Rattle.lspsync.specs.OtherSettings.{equal_in, equal_text, with_other};

use crate::files::Folder;
use crate::wanted::Wanted;
use lsp_program::MAX_TURNS;
use lsp_replay::{Comparison, Outcome, Settings, Told, compare};
use lsp_text::Encoding;
use std::alloc::Global;
use std::io::Read;

/// The status of `compare` if the texts differ.
const DIFFERS: u8 = 1;

/// One setting that may be another than in a call.
#[derive(Clone, Copy, Debug, PartialEq, Eq)]
pub enum OtherSetting {
    /// What positions count.
    Encoding(Encoding),
    /// Limits that are lenient.
    Lenient,
}

/// Those that are tried, in this order.
static TRIED: [OtherSetting; 4] = [
    OtherSetting::Encoding(Encoding::Utf8),
    OtherSetting::Encoding(Encoding::Utf16),
    OtherSetting::Encoding(Encoding::Utf32),
    OtherSetting::Lenient,
];

impl OtherSetting {
    /// Returns whether these settings have another value.
    fn is_other(self, settings: &Settings) -> bool
        ensures { result ≡ true → IsOther self settings.now }
    {
        match self {
            OtherSetting::Encoding(encoding) => encoding != settings.encoding,
            OtherSetting::Lenient => !settings.limits.is_lenient(),
        }
    }

    /// Returns these settings with this value.
    fn with_other(self, settings: Settings) -> Settings
        ensures { result ≡ with_other self settings }
    {
        match self {
            OtherSetting::Encoding(encoding) => Settings {
                encoding,
                ..settings
            },
            OtherSetting::Lenient => Settings {
                limits: settings.limits.lenient(),
                ..settings
            },
        }
    }
}

/// Returns another setting with which the texts that were compared are equal: the log is read once
/// more with each. Returns none if it can't be, as a pipe, and without memory.
pub fn setting_for<F: Folder>(
    alloc: Global,
    name: &str,
    wanted: &Option<Wanted>,
    outcome: Outcome,
    folder: &F,
) -> Option<OtherSetting>
    ensures { IfSome result (IsSettingNamed wanted.now (F.bytes folder.now name.now) outcome) }
{
    let wanted = wanted.as_ref()?;
    let saved = wanted.saved.as_deref()?;
    if outcome.status != DIFFERS || outcome.missing.is_some() || !folder.is_lasting(name) {
        return None;
    }
    for setting in &TRIED {
        let setting = *setting;
        if setting.is_other(&wanted.settings)
            && are_equal_with(alloc, name, wanted, saved, setting, folder)
        {
            return Some(setting);
        }
    }
    None
}

/// Returns whether a file's log gives the saved text if it is read with this setting.
fn are_equal_with<F: Folder>(
    alloc: Global,
    name: &str,
    wanted: &Wanted,
    saved: &str,
    setting: OtherSetting,
    folder: &F,
) -> bool
    ensures { result ≡ true → AreEqualWith wanted.now saved.now (F.bytes folder.now name.now)
        setting }
{
    let Ok(file) = folder.open(name) else {
        return false;
    };
    let settings = setting.with_other(wanted.settings);
    is_equal(alloc, file, settings, &wanted.ending, saved)
}

/// Returns whether a log that is read so gives the saved text.
fn is_equal<T: Read + Drop>(
    alloc: Global,
    log: T,
    settings: Settings,
    ending: &str,
    saved: &str,
) -> bool
    ensures { result ≡ true → IsEqualRun settings ending.now saved.now (T.remaining log) }
{
    let (Ok(ending), Ok(saved)) = (
        String::from_str(alloc, ending),
        String::from_str(alloc, saved),
    ) else {
        return false;
    };
    let (mut input, mut output) = (Told::new(log), Told::new(Vec::new(alloc)));
    let comparison = Comparison::new(ending, saved);
    match compare(
        alloc,
        &mut input,
        &mut output,
        settings,
        comparison,
        MAX_TURNS,
    ) {
        Ok(outcome) => outcome.status == 0,
        Err(_) => false,
    }
}

/// Returns what is said of a setting with which the texts are equal.
pub fn equal_text(setting: OtherSetting) -> &'static str
    ensures { result.now ≡ equal_text setting }
{
    match setting {
        OtherSetting::Encoding(encoding) => equal_in(encoding),
        OtherSetting::Lenient => "with `--lenient` the texts are equal",
    }
}

/// Returns the same of an encoding.
fn equal_in(encoding: Encoding) -> &'static str
    ensures { result.now ≡ equal_in encoding }
{
    match encoding {
        Encoding::Utf8 => "with `--encoding utf-8` the texts are equal",
        Encoding::Utf16 => "with `--encoding utf-16` the texts are equal",
        Encoding::Utf32 => "with `--encoding utf-32` the texts are equal",
    }
}
