//! The memory of the process.

// The file in which Linux tells numbers of pages: all of the process's, then the resident ones.
const PAGES_PATH: &[u8] = b"/proc/self/statm";

// Size in bytes of a page.
const PAGE_SIZE: u64 = 4_096;

// More bytes than the file has.
const TEXT_SIZE: usize = 256;

/// Returns the resident memory of the process in bytes, or `None` if the system doesn't tell it.
pub fn resident_memory() -> Option<u64> {
    let file = os::open_read(PAGES_PATH);
    if file < 0 {
        return None;
    }
    let mut text = [0; TEXT_SIZE];
    let count = libc::read(file, &mut text);
    libc::close(file);
    let text = text.get(..usize::try_from(count).ok()?)?;
    resident_bytes(str::from_utf8(text).ok()?)
}

// Returns the second number of the text, in bytes.
fn resident_bytes(text: &str) -> Option<u64> {
    let pages: u64 = text.split(' ').nth(1)?.parse().ok()?;
    pages.checked_mul(PAGE_SIZE)
}
