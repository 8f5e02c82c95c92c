//! A file of lines that survive a crash, over the `sqlite` of the toolchain.
//!
//! [`open_or_create`] opens the file, [`UnreadFile::restore`] passes its lines to a [`LineSink`] in
//! the order of storing, [`mark_file`] marks it as open, and [`LineFile::store_group`] stores a group
//! of lines in one transaction.
#![tactic(auto)]

mod contents;
mod crash;
mod damage;
mod error;
mod files;
mod line_file;
mod line_table;
mod mark;
mod online;
mod opening;
mod place;
mod recovery;
mod restoring;
mod storing;

pub use contents::{open_contents, open_copy, open_online_copy};
pub use crash::crash_and_reopen;
pub use damage::{Damage, find_damage};
pub use error::LineFileError;
pub use files::{FileContents, check_files, named_cause, read_files};
pub use line_file::{LineFile, UnreadFile};
pub use mark::mark_file;
pub use online::read_online_files;
pub use opening::{adopt, close, open_or_create};
pub use place::FilePlace;
pub use recovery::{open_sound_copy, sound_contents};
pub use restoring::LineSink;
