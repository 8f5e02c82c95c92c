//! The shapes of components in JSON.
ghost use Rattle.std.specs.Prelude.{◌≡◌};
ghost use Rattle.sdb_component.specs.FromJson.{has_unsupported_field, kind_of_fields, act_kind_of};

use crate::fields::has_field;
use sdb_json::JsonData;

/// A shape, determined by the members that are present. `Lr` has `ld` and `li`, `Or` has `od` and
/// `oi`.
#[derive(Clone, Copy, Drop)]
pub(crate) enum ActKind {
    Na,
    Si,
    Sd,
    Li,
    Ld,
    Lr,
    Oi,
    Od,
    Or,
}

pub(crate) fn act_kind_of<D: JsonData>(value: &D) -> Option<ActKind>
    ensures { result ≡ act_kind_of (D.json value.now) }
{
    if has_unsupported_field(value) {
        return None;
    }
    let na = has_field(value, "na");
    let si = has_field(value, "si");
    let sd = has_field(value, "sd");
    let li = has_field(value, "li");
    let ld = has_field(value, "ld");
    let oi = has_field(value, "oi");
    let od = has_field(value, "od");
    kind_of_fields(na, si, sd, li, ld, oi, od)
}

// Returns whether it is a list move or a subtype operation.
fn has_unsupported_field<D: JsonData>(value: &D) -> bool
    ensures { result ≡ has_unsupported_field (D.json value.now) }
{
    has_field(value, "lm") || has_field(value, "t") || has_field(value, "o")
}

fn kind_of_fields(
    na: bool,
    si: bool,
    sd: bool,
    li: bool,
    ld: bool,
    oi: bool,
    od: bool,
) -> Option<ActKind>
    ensures { result ≡ kind_of_fields na si sd li ld oi od }
{
    match (na, si, sd, li, ld, oi, od) {
        (true, false, false, false, false, false, false) => Some(ActKind::Na),
        (false, true, false, false, false, false, false) => Some(ActKind::Si),
        (false, false, true, false, false, false, false) => Some(ActKind::Sd),
        (false, false, false, true, false, false, false) => Some(ActKind::Li),
        (false, false, false, false, true, false, false) => Some(ActKind::Ld),
        (false, false, false, true, true, false, false) => Some(ActKind::Lr),
        (false, false, false, false, false, true, false) => Some(ActKind::Oi),
        (false, false, false, false, false, false, true) => Some(ActKind::Od),
        (false, false, false, false, false, true, true) => Some(ActKind::Or),
        _ => None,
    }
}
