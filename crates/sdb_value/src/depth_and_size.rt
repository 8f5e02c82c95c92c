//! Depth and size of values.
ghost use Rattle.std.specs.Prelude.{◌≡◌, min};
ghost use Rattle.sdb_value.specs.Size.{size, items_size, members_size};
ghost use Rattle.sdb_value.specs.Value.{depth, items_depth, members_depth};
ghost use Rattle.sdb_value.specs.View.{value_of, list_value, object_value};

use crate::value::{Json, List, Members};

#[cycle(depths)]
#[tactic(auto, using(crate::proofs::WeightLemmas::levels))]
pub(crate) fn depth_of(value: &Json) -> u64
    ensures { result ≡ min (depth (value_of value.now)) 18446744073709551615 }
{
    match value {
        Json::List(items) => items_depth(items).saturating_add(1),
        Json::Object(members) => members_depth(members).saturating_add(1),
        _ => 0,
    }
}

#[cycle(depths)]
fn items_depth(items: &List) -> u64
    ensures { result ≡ min (items_depth (list_value items.now)) 18446744073709551615 }
{
    let mut deepest = 0;
    for item in items.iter() {
        deepest = depth_of(item).max(deepest);
    }
    deepest
}

#[cycle(depths)]
fn members_depth(members: &Members) -> u64
    ensures { result ≡ min (members_depth (object_value members.now)) 18446744073709551615 }
{
    let mut deepest = 0;
    for (_key, member) in members.iter() {
        deepest = depth_of(member).max(deepest);
    }
    deepest
}

#[cycle(sizes)]
#[tactic(auto, using(crate::proofs::WeightLemmas::levels))]
pub(crate) fn size_of(value: &Json, limit: u64) -> u64
    ensures { result ≡ min limit (size (value_of value.now)) }
{
    if limit == 0 {
        return 0;
    }
    match value {
        Json::Text(text) => text.bytes_up_to(limit - 1) + 1,
        Json::List(items) => items_size(items, limit - 1) + 1,
        Json::Object(members) => members_size(members, limit - 1) + 1,
        _ => 1,
    }
}

#[cycle(sizes)]
fn items_size(items: &List, limit: u64) -> u64
    ensures { result ≡ min limit (items_size (list_value items.now)) }
{
    let mut left = limit;
    for item in items.iter() {
        if left == 0 {
            return limit;
        }
        left -= size_of(item, left);
    }
    limit - left
}

#[cycle(sizes)]
fn members_size(members: &Members, limit: u64) -> u64
    ensures { result ≡ min limit (members_size (object_value members.now)) }
{
    let mut left = limit;
    for (key, member) in members.iter() {
        if left == 0 {
            return limit;
        }
        left -= (key.len() as u64).min(left);
        left -= size_of(member, left);
    }
    limit - left
}
