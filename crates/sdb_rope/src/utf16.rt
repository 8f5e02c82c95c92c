//! Texts measured in UTF-16 code units.
ghost use Rattle.std.specs.Prelude.{◌≡◌, ◌+◌, ◌*◌, ◌≤◌, ℕ, List, length, drop, IfSome, option_map};
ghost use Rattle.std.specs.Char.Escape.{encode_utf16};
ghost use Rattle.std.specs.List.{flat_map};
ghost use Rattle.std.specs.Str.{encode_utf8_all};
ghost use Rattle.std.specs.String.Boundary.{IsSplitPoint};
ghost use Rattle.sdb_rope.specs.Utf16.{utf16_width, units, cut_at, IsUtf16Position};

// Number of bytes measured at once. Their code units fit a `u16`, so the loop can be vectorized.
const SCAN_LEN: usize = 4096;

/// Returns the number of UTF-16 code units of a text: 1 for each character, 2 for one above U+FFFF.
pub fn units(text: &str) -> u64
    ensures value { result ≡ units text.now }
    ensures encoded { (cs : List ℕ) → encode_utf8_all cs ≡ text.now → result ≡ length (flat_map encode_utf16 cs) }
{
    let bytes = text.as_bytes();
    let mut start = 0;
    let mut count = 0;
    while bytes.len() - start >= SCAN_LEN {
        let chunk = units_in(&bytes[start..start + SCAN_LEN]);
        count += chunk;
        start += SCAN_LEN;
    }
    count + units_in(&bytes[start..])
}

/// Returns the byte position of an offset in UTF-16 code units, which is a character boundary.
/// Returns `None` if the offset is inside a surrogate pair or after the end.
pub fn cut_at(text: &str, offset: u64) -> Option<usize>
    ensures position { result ≡ cut_at text.now offset }
    ensures encoded { (cs : List ℕ) → encode_utf8_all cs ≡ text.now → IsUtf16Position cs offset result }
    ensures boundary { IfSome result (λ at. IsSplitPoint text.now at) }
{
    let bytes = text.as_bytes();
    let (start, left) = skip(bytes, offset);
    Some(start + walk_chars(&bytes[start..], left)?)
}

// Returns the code units of the characters that begin in these bytes.
fn units_in(chunk: &[u8]) -> u64
    requires { length chunk.now ≤ 4096 }
    ensures value { result ≡ units chunk.now }
    ensures bound { result ≤ 2 * length chunk.now }
{
    let mut count = 0;
    for byte in chunk {
        count += utf16_width(*byte);
    }
    u64::from(count)
}

// Skips whole blocks of `SCAN_LEN` bytes before the offset. Returns the bytes skipped and the
// remaining offset.
fn skip(bytes: &[u8], offset: u64) -> (usize, u64)
    ensures in_range { result.0 ≤ length bytes.now }
    ensures equal { cut_at bytes.now offset
        ≡ option_map (λ i. result.0 + i) (cut_at (drop result.0 bytes.now) result.1) }
{
    let mut start = 0;
    let mut left = offset;
    while bytes.len() - start >= SCAN_LEN {
        let chunk = units_in(&bytes[start..start + SCAN_LEN]);
        if chunk > left {
            break;
        }
        left -= chunk;
        start += SCAN_LEN;
    }
    (start, left)
}

// Finds the position byte by byte.
fn walk_chars(bytes: &[u8], offset: u64) -> Option<usize>
    ensures position { result ≡ cut_at bytes.now offset }
    ensures in_range { IfSome result (λ at. at ≤ length bytes.now) }
{
    let mut left = offset;
    for (at, byte) in bytes.iter().enumerate() {
        let width = u64::from(utf16_width(*byte));
        if width > left {
            return if left == 0 { Some(at) } else { None };
        }
        left -= width;
    }
    if left == 0 { Some(bytes.len()) } else { None }
}

// Returns the code units of the character that begins with this byte, 0 for a continuation byte.
fn utf16_width(byte: u8) -> u16
    ensures value { result ≡ utf16_width byte }
    ensures bound { result ≤ 2 }
{
    u16::from((byte < 128) | (byte >= 192)) + u16::from(byte >= 240)
}
