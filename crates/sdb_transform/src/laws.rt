//! Laws of transforms, of concurrent components and of crossings, as contracts of functions without
//! effect.
ghost use Rattle.std.specs.Str.{IsUtf8};
ghost use Rattle.sdb_value.specs.View.{value_of};
ghost use Rattle.sdb_transform.specs.CrossLaws.{WeightNotIncreased, LeftEmpty, RightEmpty, PairRule, RightAppended, PairsWithinProduct, NoSideHeavier};
ghost use Rattle.sdb_transform.specs.Convergence.{WellMade, HasValidTexts, StaysInRange, ConvergesOrOverflows};
ghost use Rattle.sdb_transform.specs.ConvergenceLaws.{DisjointConverge, BelowConverge, ListsConverge, ObjectsConverge, TextsConverge, NumbersConverge, AllConverge, InRangeWhereWellMade, RemovedValueIsCurrent};
ghost use Rattle.sdb_transform.specs.OperationConvergence.{AreWellMade, HasValidParts, HaveValidParts, ConvergeIfCrossed, AllOperationsConverge, OrdersAgree, CrossingExists};
ghost use Rattle.sdb_transform.specs.declared.side.Side.TheVariants.{Left, Right};

use sdb_component::{Act, Component, Op};
use sdb_value::Json;
use sdb_value::laws::well_formed;

/// States that a transform doesn't increase a component's weight.
pub fn weight_not_increased()
    ensures { WeightNotIncreased }
{}

/// States the equations of crossing, without a bound on its depth.
pub fn cross_equations()
    ensures left_empty { LeftEmpty }
    ensures right_empty { RightEmpty }
    ensures pair { PairRule }
{}

/// States that an operation crosses two operations in sequence as it crosses their concatenation.
/// So the laws of two operations hold for an operation and a sequence of stored ones.
pub fn crosses_in_sequence()
    ensures { RightAppended }
{}

/// States that a crossing transforms at most as many pairs as the product of both weights, and
/// increases neither weight.
pub fn pairs_within_product()
    ensures bound { PairsWithinProduct }
    ensures weights { NoSideHeavier }
{}

/// States convergence: of two concurrent components made for the document, neither transform is E8.
/// Applying `a` and then `b` transformed against it makes the value that the other order makes. Or
/// both orders are refused, because both add to one number whose sum leaves the range.
///
/// The premises `a_in_range` and `b_in_range` require that no index or offset of the transforms
/// exceeds 9007199254740991.
pub fn meet(document: &Json, a: &Component, b: &Component)
    requires a_well_made { WellMade a.now (value_of document.now) }
    requires b_well_made { WellMade b.now (value_of document.now) }
    requires a_in_range { StaysInRange Left a.now b.now }
    requires b_in_range { StaysInRange Right b.now a.now }
    ensures { ConvergesOrOverflows (value_of document.now) a.now b.now }
{
    well_formed(document);
    has_texts(a);
    has_texts(b);
}

/// States convergence for every value and component of the definitions.
pub fn all_converge()
    ensures { AllConverge }
{}

/// States convergence at disjoint paths.
pub fn disjoint_converge()
    ensures { DisjointConverge }
{}

/// States convergence if one path is inside the other.
pub fn below_converge()
    ensures { BelowConverge }
{}

/// States convergence at one list.
pub fn lists_converge()
    ensures { ListsConverge }
{}

/// States convergence at one object.
pub fn objects_converge()
    ensures { ObjectsConverge }
{}

/// States convergence at one text or at one number.
pub fn texts_and_numbers_converge()
    ensures texts { TextsConverge }
    ensures numbers { NumbersConverge }
{}

/// States that the bound of [`meet`] excludes no pair whose transforms exist: if neither is E8, no
/// index or offset exceeds the bound.
pub fn fits_where_well_made()
    ensures { InRangeWhereWellMade }
{}

/// States that a removed value stays current. If a component removes the value at its step and the
/// other one changes something inside it, the transformed component removes the changed value.
pub fn removed_value_is_current()
    ensures { RemovedValueIsCurrent }
{}

/// States convergence of two concurrent operations of any length, if their crossing exists. Each
/// transformed operation is made for the other one's result, and both orders make one value. Or a
/// sum leaves the range in one of the orders.
pub fn crossing_converges(document: &Json, left: &Op, right: &Op)
    requires left_well_made { AreWellMade left.now (value_of document.now) }
    requires right_well_made { AreWellMade right.now (value_of document.now) }
    ensures { ConvergeIfCrossed (value_of document.now) left.now right.now }
{
    well_formed(document);
    have_parts(left.components());
    have_parts(right.components());
}

/// States convergence of operations for every value and component of the definitions, and that both
/// orders make one value if both apply.
pub fn operations_converge()
    ensures converge { AllOperationsConverge }
    ensures agree { OrdersAgree }
{}

/// States that the crossing of two concurrent operations exists, if no index or offset exceeds
/// 9007199254740991 even when all inserts of the other operation raise it.
pub fn crossing_exists()
    ensures { CrossingExists }
{}

fn has_texts(component: &Component)
    ensures { HasValidTexts component.now.act }
{
    match component.act() {
        Act::Si(_, text) => is_text(text.as_str()),
        Act::Sd(_, text) => is_text(text.as_str()),
        _ => {}
    }
}

fn have_parts(components: &[Component])
    ensures { HaveValidParts components.now }
{
    for component in components {
        has_parts(component);
    }
}

fn has_parts(component: &Component)
    ensures { HasValidParts component.now.act }
{
    match component.act() {
        Act::Si(_, text) | Act::Sd(_, text) => is_text(text.as_str()),
        Act::Li(_, value) | Act::Oi(_, value) => well_formed(value),
        Act::Lr(_, _, value) | Act::Or(_, _, value) => well_formed(value),
        _ => {}
    }
}

fn is_text(_text: &str)
    ensures { IsUtf8 _text.now }
{}
