//! Damage of the files of a store, found before they are opened for writing.
ghost use Rattle.std.specs.Prelude.{◌≡◌, ◌↔◌, ◌+◌, ◌≤◌, ℕ, List, length, take, None, IsTrue, IfSome, IfNone};
ghost use Rattle.sqlite_wal.specs.Format.{be32, stored_sum, IsSigned, IsFrame};
ghost use Rattle.sqlite_wal.specs.Recovery.{header};
ghost use Rattle.sqlite_wal.specs.PageSize.{bytes_of, IsPageSize};
ghost use Rattle.sdb_linefile.specs.Damage.{IsDamaged, HasSoundHeader, IsBeingEmptied, HasLostFrame, page_size_of};

use sqlite_wal::{PageSize, checksum_of};
use thiserror::Error;

/// The length of a header, the first part of a log.
pub(crate) const HEADER_LEN: usize = 32;

/// The length of a log that has no frame.
const EMPTY_LEN: usize = 41;

/// The length of the part of a frame before its page.
pub(crate) const FRAME_HEADER_LEN: usize = 24;

/// The version of the format.
pub(crate) const VERSION: u32 = 3_007_000;

/// The page number of a frame that counts the bytes of its group.
pub(crate) const COUNT_PAGE: u32 = 0xff00_0000;

/// What is wrong with the files of a store. An open would lose stored lines without an error.
#[derive(Clone, Copy, Debug, PartialEq, Eq, Error)]
pub enum Damage {
    /// The log isn't empty, and the database file is missing or empty.
    #[error("the file is missing or empty, but its log isn't empty")]
    MissingFile,
    /// The log is missing, and the server that wrote to the file didn't close it. So the log had what
    /// isn't in the file.
    #[error("the log is missing, and the file wasn't closed")]
    MissingLog,
    /// The header of the log is damaged.
    #[error("the header of the log is damaged")]
    Header,
    /// A frame of the log is damaged, and a group after it isn't.
    #[error("the log is damaged before its last group")]
    Frame,
}

/// Returns what is wrong with a log and a database file of this length, which is 0 if there is none.
///
/// A power cut damages only the last group of a log, or the header of a log that is being emptied.
/// Neither is damage here. [`Damage::MissingLog`] is found in the file, by
/// [`check_files`](crate::check_files).
///
/// ```
/// assert_eq!(find_damage(0, &[]), None);
/// ```
pub fn find_damage(file_len: u64, log: &[u8]) -> Option<Damage>
    ensures some { IfSome result (λ damage. IsDamaged damage file_len log.now) }
    ensures none { result ≡ None → (damage : Damage) → ¬ IsDamaged damage file_len log.now }
{
    if log.len() <= EMPTY_LEN {
        return None;
    }
    if file_len == 0 {
        return Some(Damage::MissingFile);
    }
    match sound_page_size(log) {
        Some(size) if has_lost_frame(log, FRAME_HEADER_LEN + size.bytes()) => Some(Damage::Frame),
        Some(_) => None,
        None if is_being_emptied(log) => None,
        None => Some(Damage::Header),
    }
}

// Returns the page size of a log with a sound header.
pub(crate) fn sound_page_size(log: &[u8]) -> Option<PageSize>
    requires { 32 ≤ length log.now }
    ensures some { IfSome result (λ size. HasSoundHeader log.now × (bytes_of size ≡ page_size_of log.now)) }
    ensures none { result ≡ None → ¬ HasSoundHeader log.now }
{
    let head = &log[..HEADER_LEN];
    if is_signed(head) && read_number(head, 4) == VERSION {
        PageSize::new(read_number(head, 8) as usize)
    } else {
        None
    }
}

// Returns whether the first bytes of a log are a header with its checksum.
fn is_signed(head: &[u8]) -> bool
    requires { 32 ≤ length head.now }
    ensures { IsTrue result ↔ IsSigned head.now }
{
    if head[0] != 0x37 || head[1] != 0x7f || head[2] != 0x06 || head[3] / 2 != 0x41 {
        return false;
    }
    checksum_of(head[3] == 0x83, (0, 0), &head[..24]) == read_sum(head, 24)
}

fn is_being_emptied(log: &[u8]) -> bool
    requires { 32 ≤ length log.now }
    ensures { IsTrue result ↔ IsBeingEmptied log.now }
{
    log[0] == 0
        && log[1] == 0x7f
        && log[2] == 0x06
        && log[3] / 2 == 0x41
        && read_number(log, 4) == VERSION
}

// Returns whether an unsound frame stands before one that begins a group.
fn has_lost_frame(log: &[u8], frame_len: usize) -> bool
    requires long { 32 ≤ length log.now }
    requires size { frame_len ≡ 24 + page_size_of log.now }
    ensures { IsTrue result ↔ HasLostFrame (page_size_of log.now) log.now }
{
    let head = &log[..HEADER_LEN];
    let mut sum = read_sum(head, 24);
    let mut at = HEADER_LEN;
    let mut is_lost = false;
    while log.len() - at >= frame_len {
        let frame = &log[at..at + frame_len];
        if !is_sound_frame(head, sum, frame) {
            is_lost = true;
        } else if is_lost && read_number(frame, 0) == COUNT_PAGE {
            return true;
        }
        sum = read_sum(frame, 16);
        at += frame_len;
    }
    false
}

// Returns whether a frame passes the test of SQLite after a frame with this checksum.
pub(crate) fn is_sound_frame(head: &[u8], before: (u32, u32), frame: &[u8]) -> bool
    requires { (32 ≤ length head.now) × (24 ≤ length frame.now) }
    ensures { IsTrue result ↔ IsFrame head.now before frame.now }
{
    if frame[8..16] != head[16..24] || read_number(frame, 0) == 0 {
        return false;
    }
    let is_big = head[3] == 0x83;
    let sum = checksum_of(is_big, before, &frame[..8]);
    checksum_of(is_big, sum, &frame[24..]) == read_sum(frame, 16)
}

pub(crate) fn read_sum(bytes: &[u8], at: usize) -> (u32, u32)
    requires { at + 8 ≤ length bytes.now }
    ensures { result ≡ stored_sum bytes.now at }
{
    (read_number(bytes, at), read_number(bytes, at + 4))
}

// Returns four bytes as a number, the highest first.
pub(crate) fn read_number(bytes: &[u8], at: usize) -> u32
    requires { at + 4 ≤ length bytes.now }
    ensures { result ≡ be32 bytes.now at }
{
    let high = bytes[at] as u32 * 0x100_0000 + bytes[at + 1] as u32 * 0x1_0000;
    let low = bytes[at + 2] as u32 * 0x100;
    high + low + bytes[at + 3] as u32
}
