//! Sizes of components, up to a limit.
ghost use Rattle.std.specs.Prelude.{◌≡◌, ◌+◌, ◌≤◌, min, length};
ghost use Rattle.sdb_value.specs.Size.{size};
ghost use Rattle.sdb_value.specs.View.{plain_path, plain_step, value_of};
ghost use Rattle.sdb_component.specs.Size.{act_size, path_size, step_size};
ghost use Rattle.sdb_component.specs.View.{plain_act};

use crate::component::Act;
use sdb_value::{Json, Step};

pub(crate) fn size_of_path(path: &[Step], limit: u64) -> u64
    ensures { result ≡ min limit (path_size (plain_path path.now)) }
{
    let mut left = limit;
    for step in path {
        left -= size_of_step(step, left);
    }
    limit - left
}

fn size_of_step(step: &Step, limit: u64) -> u64
    ensures { result ≡ min limit (step_size (plain_step step.now)) }
{
    match step {
        Step::Key(key) => (key.len() as u64).saturating_add(1).min(limit),
        Step::Index(_) => limit.min(1),
    }
}

pub(crate) fn size_of_act(act: &Act, limit: u64) -> u64
    ensures { result ≡ min limit (act_size (plain_act act.now)) }
{
    match act {
        Act::Na(_) => 0,
        Act::Si(_, text) | Act::Sd(_, text) => (text.as_str().len() as u64).min(limit),
        Act::Li(_, value) | Act::Ld(_, value) => value.size(limit),
        Act::Lr(_, old, new) => size_of_values(old, new, limit),
        Act::Oi(key, value) | Act::Od(key, value) => {
            let of_key = (key.len() as u64).min(limit);
            of_key + value.size(limit - of_key)
        }
        Act::Or(key, old, new) => {
            let of_key = (key.len() as u64).min(limit);
            of_key + size_of_values(old, new, limit - of_key)
        }
    }
}

fn size_of_values(first: &Json, second: &Json, limit: u64) -> u64
    ensures { result ≡ min limit (size (value_of first.now) + size (value_of second.now)) }
{
    let of_first = first.size(limit);
    of_first + second.size(limit - of_first)
}
