//! A projection and its visible components.
ghost use Rattle.std.specs.Prelude.{◌≡◌, [], ◌∷◌};
ghost use Rattle.sdb_value.specs.View.{plain_step};
ghost use Rattle.sdb_component.specs.View.{plain_act};
ghost use Rattle.sdb_component.specs.ToJson.{last_step};
ghost use Rattle.sdb_projection.specs.ProjectionModel.{is_field, is_visible_component, path_starts_at_field};
ghost use Rattle.sdb_projection.specs.View.{fields_of};

use sdb_component::{Act, Component};
use sdb_value::Step;
use std::collections::BTreeSet;

/// A collection name under which these top-level fields of another collection's documents are
/// visible.
///
/// ```
/// let mut fields = BTreeSet::new(alloc);
/// fields.insert(String::from_str(alloc, "title")?)?;
/// let (name, base) = (String::from_str(alloc, "titles")?, String::from_str(alloc, "boards")?);
/// let projection = Projection { name, base, fields };
/// ```
#[derive(Drop)]
pub struct Projection {
    pub name: String,
    pub base: String,
    pub fields: BTreeSet<String>,
}

impl Projection {
    // Returns whether the key is one of the fields.
    pub(crate) fn is_field(&self, key: &str) -> bool
        ensures { result ≡ is_field (fields_of self.now) key.now }
    {
        self.fields.contains(key)
    }

    // Returns whether the component's path, with the act's last step, begins with a field.
    pub(crate) fn is_visible_component(&self, component: &Component) -> bool
        ensures { result ≡ is_visible_component (fields_of self.now) component.now }
    {
        match component.path() {
            [] => self.is_visible_act(component.act()),
            [first, ..] => self.is_visible_step(first),
        }
    }

    fn is_visible_step(&self, step: &Step) -> bool
        ensures { result ≡ path_starts_at_field (fields_of self.now) (plain_step step.now ∷ []) }
    {
        match step {
            Step::Key(key) => self.is_field(key.as_str()),
            Step::Index(_) => false,
        }
    }

    // Returns whether the act's last step is a field.
    fn is_visible_act(&self, act: &Act) -> bool
        ensures { result ≡ path_starts_at_field (fields_of self.now) (last_step (plain_act act.now)) }
    {
        match act {
            Act::Oi(key, _) | Act::Od(key, _) | Act::Or(key, _, _) => self.is_field(key.as_str()),
            _ => false,
        }
    }
}
