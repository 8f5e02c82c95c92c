//! Opening what is left of damaged files.
ghost use Rattle.std.specs.Prelude.{◌≡◌, ◌<◌, ◌+◌, ◌≤◌, length, IfOk};

use crate::contents::open_contents;
use crate::damage::{
    COUNT_PAGE, FRAME_HEADER_LEN, HEADER_LEN, VERSION, is_sound_frame, read_number, read_sum,
    sound_page_size,
};
use crate::error::LineFileError;
use crate::files::{FileContents, read_damaged_files};
use crate::line_file::UnreadFile;
use sqlite::FileStore;
use sqlite_disk::Memory;
use sqlite_wal::{PageSize, checksum_of};
use std::alloc::{AllocError, Global};

/// The page size of a new store.
const NEW_PAGE_SIZE: usize = 4096;

/// The first bytes of a log whose checksums read the lowest byte first.
const MAGIC: [u8; 4] = [0x37, 0x7f, 0x06, 0x82];

/// The salt of a new log.
const SALT: [u8; 8] = [1; 8];

/// Opens a copy of what is left of the files at a path, in memory. Nothing is created or written.
///
/// The pages are those of the file, each replaced by the last sound frame of the log that has it. If
/// they are no database, frames after the first unsound one are left out.
///
/// # Errors
///
/// - [`LineFileError::Busy`] if another process has the file open.
/// - As [`open_contents`].
pub fn open_sound_copy(
    rt: &HostRuntime,
    path: &str,
) -> Result<UnreadFile<FileStore<Memory>>, LineFileError> {
    let contents = read_damaged_files(rt, path)?;
    let all = sound_contents(rt.alloc(), &contents, true)?;
    if let Ok(copy) = open_contents(rt.alloc(), all) {
        return Ok(copy);
    }
    let first = sound_contents(rt.alloc(), &contents, false)?;
    open_contents(rt.alloc(), first)
}

/// Returns the contents with a new log of those frames that are sound, or only of those before the
/// first unsound one. A missing file becomes a page of zeros, which the frames replace.
pub fn sound_contents(
    alloc: Global,
    contents: &FileContents,
    takes_all: bool,
) -> Result<FileContents, AllocError>
    ensures { IfOk result (λ c. 0 < length contents.now.file.items → c.file.items ≡ contents.now.file.items) }
{
    let FileContents { file, log } = contents;
    let size = page_size(file.as_slice(), log.as_slice());
    let log = sound_log(alloc, log.as_slice(), size, takes_all)?;
    let mut copy = Vec::new(alloc);
    if file.is_empty() && !log.is_empty() {
        copy.resize(size, 0)?;
    } else {
        copy.extend_from_slice(file.as_slice())?;
    }
    Ok(FileContents { file: copy, log })
}

// Returns the page size that the header of the log names, or else that of the file, or else that of a
// new store.
fn page_size(file: &[u8], log: &[u8]) -> usize
    ensures { result ≤ 65536 }
{
    match named_size(file, log) {
        Some(size) => size.bytes(),
        None => NEW_PAGE_SIZE,
    }
}

fn named_size(file: &[u8], log: &[u8]) -> Option<PageSize> {
    if log.len() >= HEADER_LEN {
        let size = sound_page_size(log);
        if size.is_some() {
            return size;
        }
    }
    if file.len() < 18 {
        return None;
    }
    let named = file[16] as usize * 256 + file[17] as usize;
    PageSize::new(if named == 1 { 65536 } else { named })
}

// Returns a log of the sound frames, or of those before the first unsound one.
fn sound_log(
    alloc: Global,
    log: &[u8],
    page_size: usize,
    takes_all: bool,
) -> Result<Vec<u8>, AllocError>
    requires { page_size ≤ 65536 }
{
    let frame_len = FRAME_HEADER_LEN + page_size;
    let mut sound = Vec::new(alloc);
    if log.len() < HEADER_LEN + frame_len {
        return Ok(sound);
    }
    let head = old_header(log, frame_len);
    let mut before = first_sum(&head, log, frame_len);
    let mut sum = push_header(&mut sound, page_size)?;
    let mut at = HEADER_LEN;
    while log.len() - at >= frame_len {
        let frame = &log[at..at + frame_len];
        let is_sound = is_sound_frame(&head, before, frame);
        if !is_sound && !takes_all {
            return Ok(sound);
        }
        if is_sound && read_number(frame, 0) != COUNT_PAGE {
            sum = push_frame(&mut sound, sum, frame)?;
        }
        before = read_sum(frame, 16);
        at += frame_len;
    }
    Ok(sound)
}

// Returns the header of the log if it is sound, or else one with the salt of its frames.
fn old_header(log: &[u8], frame_len: usize) -> [u8; 32]
    requires long { 32 ≤ length log.now }
    requires size { 24 ≤ frame_len }
{
    let mut head = [0; 32];
    if sound_page_size(log).is_some() {
        head.copy_from_slice(&log[..HEADER_LEN]);
        return head;
    }
    let mut at = HEADER_LEN;
    while log.len() - at >= frame_len {
        head[16..24].copy_from_slice(&log[at + 8..at + 16]);
        let sum = read_sum(log, at + 16);
        at += frame_len;
        if log.len() - at >= frame_len && is_sound_frame(&head, sum, &log[at..at + frame_len]) {
            return head;
        }
    }
    head
}

// Returns the checksum before the first frame: the one that the header states, or that of its bytes.
fn first_sum(head: &[u8; 32], log: &[u8], frame_len: usize) -> (u32, u32)
    requires long { 32 ≤ length log.now }
    requires size { 24 ≤ frame_len }
    requires within { 32 + frame_len ≤ length log.now }
{
    let stated = read_sum(log, 24);
    if is_sound_frame(head, stated, &log[HEADER_LEN..HEADER_LEN + frame_len]) {
        return stated;
    }
    header_sum(log)
}

fn header_sum(log: &[u8]) -> (u32, u32)
    requires { 32 ≤ length log.now }
{
    checksum_of(false, (0, 0), &log[..24])
}

// Appends the header of a new log, and returns its checksum.
fn push_header(log: &mut Vec<u8>, page_size: usize) -> Result<(u32, u32), AllocError>
    requires { page_size ≤ 65536 }
{
    let start = log.len();
    log.extend_from_slice(&MAGIC)?;
    log.extend_from_slice(&VERSION.to_be_bytes())?;
    log.extend_from_slice(&(page_size as u32).to_be_bytes())?;
    log.extend_from_slice(&[0; 4])?;
    log.extend_from_slice(&SALT)?;
    let sum = checksum_of(false, (0, 0), &log.as_slice()[start..]);
    push_sum(log, sum)?;
    Ok(sum)
}

// Appends a frame with the page of another one, and returns its checksum.
fn push_frame(log: &mut Vec<u8>, before: (u32, u32), frame: &[u8]) -> Result<(u32, u32), AllocError>
    requires { 24 ≤ length frame.now }
{
    let front = checksum_of(false, before, &frame[..8]);
    let sum = checksum_of(false, front, &frame[FRAME_HEADER_LEN..]);
    log.extend_from_slice(&frame[..8])?;
    log.extend_from_slice(&SALT)?;
    push_sum(log, sum)?;
    log.extend_from_slice(&frame[FRAME_HEADER_LEN..])?;
    Ok(sum)
}

fn push_sum(log: &mut Vec<u8>, sum: (u32, u32)) -> Result<(), AllocError> {
    log.extend_from_slice(&sum.0.to_be_bytes())?;
    log.extend_from_slice(&sum.1.to_be_bytes())?;
    Ok(())
}
