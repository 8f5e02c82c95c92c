//! Logs of which each entry was decided again.
ghost use Rattle.std.specs.Prelude.{◌≡◌};
ghost use Rattle.sdb_oplog.specs.Decide.{IsMade};

use sdb_oplog::{DecidedLog, Log};
use std::marker::Model;

/// A made log: each entry is what its submission stores on the entries before it.
#[derive(Drop)]
pub(crate) struct MadeLog {
    log: Log,
}

impl Model for MadeLog {
    ghost use Rattle.std.specs.Prelude.{List};
    ghost use Rattle.sdb_oplog.specs.Coding.{log_code};
    ghost use Rattle.sdb_oplog.specs.Decide.{IsMade};
    ghost use Rattle.sdb_oplog.specs.Plain.{PlainEntry};

    ghost Value = { List PlainEntry };

    ghost coded = { log_code };

    ghost view = { λ m. m.log };

    ghost invariant = { λ m. IsMade m.log };
}

impl MadeLog {
    /// Keeps the log of a complete document.
    pub fn new(decided: DecidedLog) -> MadeLog
        ensures { result ≡ decided }
    {
        MadeLog {
            log: decided.into_log(),
        }
    }

    pub fn log(&self) -> &Log
        ensures log { result.now ≡ self.now }
        ensures is_made { IsMade self.now }
    {
        &self.log
    }
}
