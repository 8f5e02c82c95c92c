//! Classification of an act against another one at the same container.
ghost use Rattle.std.specs.Prelude.{◌≡◌, ◌+◌, ◌<◌, ◌≤◌, ℕ, List, if◌then◌else◌, IfSome, IfNone};
ghost use Rattle.sdb_component.specs.Plain.{PlainAct, si, sd, li, ld, lr, oi, od, or};
ghost use Rattle.sdb_component.specs.View.{plain_act};
ghost use Rattle.sdb_rope.specs.Utf16.{units};
ghost use Rattle.sdb_transform.specs.Classification.{IsKindOfAct, inserts_after, overwrite_kind, shift_up};
ghost use Rattle.sdb_transform.specs.Transform.{transform_act, transform_si, si_after_sd, transform_sd, sd_after_si, sd_after_sd};
ghost use Rattle.sdb_transform.specs.Transform.{transform_li, transform_ld, transform_lr, transform_oi, transform_od, transform_or};
ghost use Rattle.sdb_transform.specs.Transform.{split_delete, delete_without_overlap};
ghost use Rattle.sdb_transform.specs.declared.classify.PositionChange.TheVariants.{Dropped, Unchanged};
ghost use Rattle.sdb_transform.specs.declared.classify.TransformKind.TheVariants.{PositionOnly};
ghost use Rattle.sdb_value.specs.Value.{Value};

use crate::classify::{PositionChange, TransformKind};
use crate::classify_path::keys_equal;
use crate::rewrite::Rewrite;
use crate::side::Side;
use sdb_component::{Act, NonEmptyText};
use sdb_value::{MAX, cut_at, units};

pub(crate) fn classify_act(act: &Act, other: &Act, side: Side) -> TransformKind
    ensures { IsKindOfAct result (plain_act act.now) (plain_act other.now)
        (transform_act side (plain_act act.now) (plain_act other.now)) }
{
    match act {
        Act::Na(_) => TransformKind::PositionOnly(PositionChange::Unchanged),
        Act::Si(p, _) => classify_si(*p, other, side),
        Act::Sd(p, d) => classify_sd(*p, d, other),
        Act::Li(j, _) => classify_li(*j, other, side),
        Act::Ld(j, _) => classify_ld(*j, other),
        Act::Lr(j, _, _) => classify_lr(*j, other, side),
        Act::Oi(key, _) => classify_oi(key.as_str(), other, side),
        Act::Od(key, _) => classify_od(key.as_str(), other),
        Act::Or(key, _, _) => classify_or(key.as_str(), other, side),
    }
}

fn classify_si(p: u64, other: &Act, side: Side) -> TransformKind
    ensures { (s : List ℕ) → IsKindOfAct result (si p s) (plain_act other.now)
        (transform_si side p s (plain_act other.now)) }
{
    match other {
        Act::Si(r, text) if inserts_after(p, *r, side) => shift_up(p, units(text.as_str())),
        Act::Sd(r, text) => classify_si_after_sd(p, *r, units(text.as_str())),
        _ => TransformKind::PositionOnly(PositionChange::Unchanged),
    }
}

fn classify_si_after_sd(p: u64, r: u64, width: u64) -> TransformKind
    ensures { (s d : List ℕ) → units d ≡ width
        → IsKindOfAct result (si p s) (sd r d) (si_after_sd p s r d) }
{
    TransformKind::PositionOnly(if p <= r {
        PositionChange::Unchanged
    } else if p - r <= width {
        PositionChange::MovedTo(r)
    } else {
        PositionChange::MovedTo(p - width)
    })
}

fn classify_sd(p: u64, d: &NonEmptyText, other: &Act) -> TransformKind
    ensures { IsKindOfAct result (sd p d.now) (plain_act other.now)
        (transform_sd p d.now (plain_act other.now)) }
{
    match other {
        Act::Si(r, text) => classify_sd_after_si(p, d, *r, units(text.as_str())),
        Act::Sd(r, text) => classify_sd_after_sd(p, d, *r, units(text.as_str())),
        _ => TransformKind::PositionOnly(PositionChange::Unchanged),
    }
}

fn classify_sd_after_si(p: u64, d: &NonEmptyText, r: u64, width: u64) -> TransformKind
    ensures { (s : List ℕ) → units s ≡ width
        → IsKindOfAct result (sd p d.now) (si r s) (sd_after_si p d.now r s) }
{
    if r <= p {
        return shift_up(p, width);
    }
    if r - p >= units(d.as_str()) {
        return TransformKind::PositionOnly(PositionChange::Unchanged);
    }
    match shifted_position(p, width) {
        Some(offset) => classify_split(p, d, r - p, offset),
        None => TransformKind::Refused,
    }
}

// Classifies a deletion that is split after this number of code units.
fn classify_split(p: u64, d: &NonEmptyText, before: u64, offset: u64) -> TransformKind
    requires some { 0 < before }
    requires rest { before < units d.now }
    ensures { (o : PlainAct) → IsKindOfAct result (sd p d.now) o (split_delete p d.now before offset) }
{
    match cut_at(d.as_str(), before) {
        Some(at) => TransformKind::Rewritten(Rewrite::SplitDelete(at, offset)),
        None => TransformKind::Refused,
    }
}

fn classify_sd_after_sd(p: u64, d: &NonEmptyText, r: u64, other_width: u64) -> TransformKind
    ensures { (d2 : List ℕ) → units d2 ≡ other_width
        → IsKindOfAct result (sd p d.now) (sd r d2) (sd_after_sd p d.now r d2) }
{
    let width = units(d.as_str());
    if r <= p && other_width <= p - r {
        return TransformKind::PositionOnly(PositionChange::MovedTo(p - other_width));
    }
    if p <= r && width <= r - p {
        return TransformKind::PositionOnly(PositionChange::Unchanged);
    }
    let after = if p <= r {
        other_width.saturating_add(r - p)
    } else {
        other_width - (p - r)
    };
    classify_overlap(d, p.min(r), r.saturating_sub(p), after.min(width))
}

// Classifies a deletion that loses the code units from `before` up to `after`.
fn classify_overlap(d: &NonEmptyText, offset: u64, before: u64, after: u64) -> TransformKind
    requires { before ≤ after }
    ensures { (p : ℕ) (o : PlainAct) → IsKindOfAct result (sd p d.now) o
        (delete_without_overlap offset d.now before after) }
{
    match (cut_at(d.as_str(), before), cut_at(d.as_str(), after)) {
        (Some(start), Some(end)) => {
            TransformKind::Rewritten(Rewrite::ReducedDelete(offset, start, end))
        }
        _ => TransformKind::Refused,
    }
}

fn classify_li(j: u64, other: &Act, side: Side) -> TransformKind
    ensures { (v : Value) → IsKindOfAct result (li j v) (plain_act other.now)
        (transform_li side j v (plain_act other.now)) }
{
    match other {
        Act::Li(i, _) if inserts_after(j, *i, side) => shift_up(j, 1),
        Act::Ld(i, _) if *i < j => TransformKind::PositionOnly(PositionChange::MovedTo(j - 1)),
        _ => TransformKind::PositionOnly(PositionChange::Unchanged),
    }
}

fn classify_ld(j: u64, other: &Act) -> TransformKind
    ensures { (x : Value) → IsKindOfAct result (ld j x) (plain_act other.now)
        (transform_ld j x (plain_act other.now)) }
{
    match other {
        Act::Li(i, _) if *i <= j => shift_up(j, 1),
        Act::Ld(i, _) if *i < j => TransformKind::PositionOnly(PositionChange::MovedTo(j - 1)),
        Act::Ld(i, _) | Act::Lr(i, _, _) => dropped_if(*i == j),
        _ => TransformKind::PositionOnly(PositionChange::Unchanged),
    }
}

fn classify_lr(j: u64, other: &Act, side: Side) -> TransformKind
    ensures { (w z : Value) → IsKindOfAct result (lr j w z) (plain_act other.now)
        (transform_lr side j w z (plain_act other.now)) }
{
    match other {
        Act::Li(i, _) if *i <= j => shift_up(j, 1),
        Act::Ld(i, _) if *i < j => TransformKind::PositionOnly(PositionChange::MovedTo(j - 1)),
        Act::Ld(i, _) if *i == j => TransformKind::Rewritten(Rewrite::InsertedValue),
        Act::Lr(i, _, _) if *i == j => classify_overwrite(side),
        _ => TransformKind::PositionOnly(PositionChange::Unchanged),
    }
}

fn classify_oi(key: &str, other: &Act, side: Side) -> TransformKind
    ensures { (z : Value) → IsKindOfAct result (oi key.now z) (plain_act other.now)
        (transform_oi side key.now z (plain_act other.now)) }
{
    match other {
        Act::Oi(put, _) | Act::Or(put, _, _) if keys_equal(put.as_str(), key) => {
            classify_overwrite(side)
        }
        _ => TransformKind::PositionOnly(PositionChange::Unchanged),
    }
}

fn classify_od(key: &str, other: &Act) -> TransformKind
    ensures { (x : Value) → IsKindOfAct result (od key.now x) (plain_act other.now)
        (transform_od key.now x (plain_act other.now)) }
{
    match other {
        Act::Od(removed, _) | Act::Or(removed, _, _) => {
            dropped_if(keys_equal(removed.as_str(), key))
        }
        _ => TransformKind::PositionOnly(PositionChange::Unchanged),
    }
}

fn classify_or(key: &str, other: &Act, side: Side) -> TransformKind
    ensures { (w z : Value) → IsKindOfAct result (or key.now w z) (plain_act other.now)
        (transform_or side key.now w z (plain_act other.now)) }
{
    match other {
        Act::Od(removed, _) if keys_equal(removed.as_str(), key) => {
            TransformKind::Rewritten(Rewrite::InsertedValue)
        }
        Act::Oi(put, _) | Act::Or(put, _, _) if keys_equal(put.as_str(), key) => {
            classify_overwrite(side)
        }
        _ => TransformKind::PositionOnly(PositionChange::Unchanged),
    }
}

// Classifies two acts that set one position: the left one overwrites the other's value, the right
// one is dropped.
fn classify_overwrite(side: Side) -> TransformKind
    ensures { result ≡ overwrite_kind side }
{
    match side {
        Side::Left => TransformKind::Rewritten(Rewrite::OverwrittenValue),
        Side::Right => TransformKind::PositionOnly(PositionChange::Dropped),
    }
}

// Classifies an act or a step of a value that the other one may have removed.
pub(crate) fn dropped_if(removed: bool) -> TransformKind
    ensures { result ≡ PositionOnly (if removed then Dropped else Unchanged) }
{
    TransformKind::PositionOnly(if removed {
        PositionChange::Dropped
    } else {
        PositionChange::Unchanged
    })
}

// Returns whether an insert at this offset or index goes after the other one's.
fn inserts_after(at: u64, other: u64, side: Side) -> bool
    ensures { result ≡ inserts_after at other side }
{
    match side {
        Side::Left => other < at,
        Side::Right => other <= at,
    }
}

fn shift_up(at: u64, by: u64) -> TransformKind
    ensures { result ≡ shift_up at by }
{
    match shifted_position(at, by) {
        Some(position) => TransformKind::PositionOnly(PositionChange::MovedTo(position)),
        None => TransformKind::Refused,
    }
}

// Returns the offset or index moved up, or `None` if it exceeds the maximum.
pub(crate) fn shifted_position(at: u64, by: u64) -> Option<u64>
    ensures some { IfSome result (λ position. (position ≡ at + by) × (at + by ≤ MAX)) }
    ensures none { IfNone result (MAX < at + by) }
{
    if at > MAX || by > MAX - at {
        return None;
    }
    Some(at + by)
}
