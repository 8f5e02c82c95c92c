//! Facts that the types of a submission guarantee. The functions only traverse it; their contracts
//! state the facts.
ghost use Rattle.std.specs.Prelude.{◌≡◌, true};
ghost use Rattle.std.specs.Str.{IsUtf8};
ghost use Rattle.sdb_value.specs.View.{plain_path, plain_step, value_of};
ghost use Rattle.sdb_value.specs.WellFormed.{IsInRange, IsWellFormed};
ghost use Rattle.sdb_component.specs.View.{plain_act};
ghost use Rattle.sdb_oplog.specs.Keys.{plain_key};
ghost use Rattle.sdb_dump.specs.Utf8Facts.{AreTextComponents, AreTextSteps, IsTextAct, IsTextContent, IsTextKey, IsTextStep, IsTextSubmission};

use sdb_component::{Act, Component};
use sdb_oplog::{Content, Key, Kind, Submission};
use sdb_value::laws::well_formed;
use sdb_value::{Step, Whole};

/// States that the texts of a submission are UTF-8 and its values are well formed.
pub(crate) fn submission_texts(submission: &Submission)
    ensures { IsTextSubmission submission.now }
{
    is_text(submission.src());
    content_texts(submission.content());
    is_text(submission.via());
}

/// States that the texts of a key are UTF-8.
pub(crate) fn key_texts(key: &Key)
    ensures { IsTextKey (plain_key key.now) }
{
    is_text(key.collection.as_str());
    is_text(key.id.as_str());
}

fn content_texts(content: &Content)
    ensures { IsTextContent content.now }
{
    match content.kind() {
        Kind::Create(value) => well_formed(value),
        Kind::Delete => {}
        Kind::Edit(op) => component_texts(op.components()),
    }
}

fn component_texts(components: &[Component])
    ensures { AreTextComponents components.now }
{
    for component in components {
        step_texts(component.path());
        act_texts(component.act());
    }
}

fn step_texts(path: &[Step])
    ensures { AreTextSteps (plain_path path.now) }
{
    for step in path {
        step_text(step);
    }
}

fn step_text(step: &Step)
    ensures { IsTextStep (plain_step step.now) }
{
    match step {
        Step::Key(key) => is_text(key.as_str()),
        Step::Index(_) => {}
    }
}

fn act_texts(act: &Act)
    ensures { IsTextAct (plain_act act.now) }
{
    match act {
        Act::Na(amount) => in_range(*amount),
        Act::Si(_, text) | Act::Sd(_, text) => is_text(text.as_str()),
        Act::Li(_, value) | Act::Ld(_, value) => well_formed(value),
        Act::Lr(_, old, new) => {
            well_formed(old);
            well_formed(new);
        }
        Act::Oi(key, value) | Act::Od(key, value) => {
            is_text(key.as_str());
            well_formed(value);
        }
        Act::Or(key, old, new) => {
            is_text(key.as_str());
            well_formed(old);
            well_formed(new);
        }
    }
}

fn in_range(_number: Whole)
    ensures { IsInRange _number }
{}

fn is_text(_text: &str)
    ensures { IsUtf8 _text.now }
{}
