//! Integers in JSON.
ghost use Rattle.std.specs.Prelude.{◌≡◌, option_and_then};
ghost use Rattle.sdb_value.specs.FromJson.{count_of, whole_of};
ghost use Rattle.serde_json.specs.Find.{as_number};

use crate::value::Whole;
use sdb_json::JsonData;

/// The greatest number of the profile: a double holds integers up to this size exactly (RFC 8259,
/// section 6).
pub const MAX: u64 = 9007199254740991;

/// Returns the integer of a JSON value, or `None` if it is no number, has a fraction or an exponent,
/// or is outside the range from -9007199254740991 to 9007199254740991.
pub fn whole_of<D: JsonData>(value: &D) -> Option<Whole>
    ensures { result ≡ option_and_then whole_of (as_number (D.json value.now)) }
{
    let n = value.as_i64()?;
    if n < -(MAX as i64) || n > MAX as i64 {
        return None;
    }
    Whole::new(n)
}

/// Returns the integer of a JSON value, or `None` if it is no integer from 0 to 9007199254740991.
pub fn count_of<D: JsonData>(value: &D) -> Option<u64>
    ensures { result ≡ count_of (D.json value.now) }
{
    let n = value.as_u64()?;
    if n > MAX {
        return None;
    }
    Some(n)
}
