//! Groups of documents, by hash of their ids.

/// The number of words of 64 bits that have one bit for each group.
pub const WORD_COUNT: usize = 64;

/// The number of groups.
pub const GROUP_COUNT: usize = WORD_COUNT * 64;

/// A group of document ids. A loop with a subscriber of one document is woken for all documents of
/// its group.
#[derive(Clone, Copy, Drop)]
pub struct DocumentGroup {
    number: usize,
}

impl DocumentGroup {
    /// Returns the group of a document id.
    pub fn of(id: &str) -> DocumentGroup {
        let mut number: u64 = 0;
        for byte in id.as_bytes() {
            number = number.wrapping_mul(31).wrapping_add(u64::from(*byte));
        }
        DocumentGroup {
            number: (number % 4_096) as usize,
        }
    }

    /// Returns the group's number, below [`GROUP_COUNT`].
    pub fn number(self) -> usize {
        self.number
    }

    /// Returns the index of the word that has the group's bit.
    pub fn word(self) -> usize {
        self.number / 64
    }

    /// Returns the group's bit.
    pub fn bit(self) -> u64 {
        1 << (self.number % 64)
    }
}
