//! The line of a block of numbers in a journal, without its line feed.
ghost use Rattle.std.specs.Prelude.{◌≡◌, IfOk, string_bytes};
ghost use Rattle.sdb_dump.specs.JournalText.{number_line, number_of_data, read_number};

use sdb_json::{JsonData, Scratch, parse_json};
use sdb_wire::count_field;
use std::alloc::{AllocError, Global};

/// Returns the line of a block of numbers: sessions may be given numbers up to `number`.
///
/// # Errors
///
/// [`AllocError`] if an allocation fails.
///
/// ```
/// let line = number_line(alloc, 1024)?;
/// assert_eq!(rt; line.as_slice(), b"{\"given\":1024}".as_slice());
/// ```
pub fn number_line(alloc: Global, number: u64) -> Result<Vec<u8>, AllocError>
    ensures { IfOk result (λ line. line.items ≡ number_line number) }
{
    Ok(number_text(alloc, number)?.into_bytes())
}

fn number_text(alloc: Global, number: u64) -> Result<String, AllocError>
    ensures { IfOk result (λ text. string_bytes text ≡ number_line number) }
{
    format!(in alloc; "{{\"given\":{number}}}")
}

/// Returns the number of a line of a block of numbers, or `None` for another line.
pub fn read_number(alloc: Global, line: &[u8]) -> Result<Option<u64>, AllocError>
    ensures { IfOk result (λ number. number ≡ read_number line.now) }
{
    let Ok(text) = str::from_utf8(line) else {
        return Ok(None);
    };
    let mut scratch = Scratch::new(alloc);
    match parse_json(alloc, text, &mut scratch)? {
        Some(value) => number_of_data(alloc, line, &value),
        None => Ok(None),
    }
}

fn number_of_data<D: JsonData>(
    alloc: Global,
    line: &[u8],
    value: &D,
) -> Result<Option<u64>, AllocError>
    ensures { IfOk result (λ number. number ≡ number_of_data line.now (D.json value.now)) }
{
    let Some(number) = count_field(value, "given") else {
        return Ok(None);
    };
    if number_text(alloc, number)?.as_bytes() == line {
        Ok(Some(number))
    } else {
        Ok(None)
    }
}
