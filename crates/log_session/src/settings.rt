//! How a log is read.

ghost use Rattle.std.specs.Prelude.{◌≡◌, true};
ghost use Rattle.lsp_frame.specs.Limits.{AreInRange};
ghost use Rattle.log_session.specs.Settings.{log_config};
ghost use Rattle.log_session.specs.Session.{opened};

use crate::engine::InputRules;
use crate::session::Session;
use lsp_frame::Limits;
use lsp_server::{ChangeForm, Config, EncodingChoice};
use lsp_text::Encoding;
use std::alloc::Global;

/// How a log is read.
#[derive(Clone, Copy, Debug, PartialEq, Eq)]
pub struct Settings {
    pub limits: Limits,
    /// The encoding of positions in a log of version 1; one of version 2 says its own.
    pub encoding: Encoding,
    /// Whether [`normalise`] writes changes of one document that follow each other as one message.
    /// The other commands ignore it.
    pub squash: bool,
}

impl Default for Settings {
    ghost use Rattle.log_session.specs.Settings.{default_settings};

    ghost is_default = { λ settings. settings ≡ default_settings };

    /// Returns the default limits, UTF-16, and each change as a message of its own.
    fn default() -> Settings {
        Settings {
            limits: Limits::default(),
            encoding: Encoding::Utf16,
            squash: false,
        }
    }
}

impl Settings {
    /// Starts a session over the server of a log command.
    pub fn session(&self, alloc: Global) -> Session
        ensures value { result ≡ opened (log_config self.now) }
        ensures in_range { AreInRange self.now.limits }
    {
        // States that the limits are in their ranges.
        let _ = self.limits.max_body();
        let config = Config {
            limits: self.limits,
            choice: EncodingChoice::Fixed(self.encoding),
            sync: ChangeForm::Incremental,
        };
        Session::new(alloc, config)
    }

    /// Returns how the log is read. With `refuses_two` version 2 is refused.
    pub fn rules(&self, refuses_two: bool) -> InputRules
        ensures { result
            ≡ record { limits = self.now.limits; versions = true; refuses_two = refuses_two } }
    {
        InputRules {
            limits: self.limits,
            versions: true,
            refuses_two,
        }
    }
}
