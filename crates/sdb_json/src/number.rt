//! Number tokens: the integers that they write, and whether a float can hold them.
ghost use Rattle.std.specs.Prelude.{◌≡◌, ◌<◌, ◌==◌, IsTrue, is_some, length, slice_index, true, unwrap_or};
ghost use Rattle.fast_float.specs.Text.{minus};
ghost use Rattle.serde_json.specs.Find.{as_i64, as_u64};
ghost use Rattle.serde_json.specs.Read.{number_from, number_of};
ghost use Rattle.sdb_json.specs.TreeData.{token_number, zero_float};

use fast_float::Numeral;

/// Returns the integer of a token, if it is from 0 to 2^64 - 1 and has no sign.
pub(crate) fn token_u64(token: &str) -> Option<u64>
    ensures { result ≡ as_u64 (token_number token.now) }
{
    match scan(token) {
        (false, numeral) => numeral.to_u64(),
        (true, _) => None,
    }
}

/// Returns the integer of a token, if it is from -2^63 to 2^63 - 1. The token `-0` is a float.
pub(crate) fn token_i64(token: &str) -> Option<i64>
    ensures { result ≡ as_i64 (token_number token.now) }
{
    match scan(token) {
        (false, numeral) => numeral.to_i64(false),
        (true, numeral) => negative_integer(&numeral),
    }
}

/// Returns whether the token is an integer of 64 bits or in the range of floats.
pub(crate) fn is_in_range(token: &str) -> bool
    ensures { result ≡ is_some (number_of token.now) }
{
    let (negative, numeral) = scan(token);
    let is_integer = if negative {
        negative_integer(&numeral).is_some()
    } else {
        numeral.to_u64().is_some()
    };
    is_integer || numeral.to_float::<f64>(negative).is_finite()
}

// Returns the negative integer of these digits, if it is from -2^63 to -1.
fn negative_integer(numeral: &Numeral<'_>) -> Option<i64>
    ensures { result ≡ as_i64 (unwrap_or (number_from true numeral.now) zero_float) }
{
    match numeral.to_i64(true) {
        Some(n) if n < 0 => Some(n),
        _ => None,
    }
}

// Returns whether the token has a minus sign, and the numeral after the sign.
fn scan(token: &str) -> (bool, Numeral<'_>)
    ensures { number_from result.0 result.1 ≡ number_of token.now }
{
    let bytes = token.as_bytes();
    if is_negative(bytes) {
        (true, Numeral::scan(&bytes[1..]))
    } else {
        (false, Numeral::scan(bytes))
    }
}

fn is_negative(token: &[u8]) -> bool
    ensures sign { result ≡ (slice_index token.now 0 == minus) }
    ensures bound { IsTrue result → 0 < length token.now }
{
    !token.is_empty() && token[0] == b'-'
}
