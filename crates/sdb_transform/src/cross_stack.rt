//! The state of a crossing and one step of it.
ghost use Rattle.std.specs.Prelude.{◌≡◌, ◌<◌, nat_le, ◌∷◌, [], ◌++◌, MatchOption, IfOk, OnOk, IfErr, Some};
ghost use Rattle.sdb_component.specs.Size.{component_size};
ghost use Rattle.sdb_transform.specs.ActModel.{IsTransformFault, saturated_size};
ghost use Rattle.sdb_transform.specs.Cross.{CrossResult};
ghost use Rattle.sdb_transform.specs.Classification.{IsRewrite, rewrite_component, transformed_components};
ghost use Rattle.sdb_transform.specs.CrossStack.{from_top, work_from_top, work_item_of, IsCrossFault, StateInvariantWith, step_bound_with};
ghost use Rattle.sdb_transform.specs.Transform.{transform};
ghost use Rattle.sdb_transform.specs.CrossMachine.{RightChange, LeftChanges, right_frames};
ghost use Rattle.sdb_transform.specs.declared.side.Fault.TheVariants.{OutOfMemory};
ghost use Rattle.sdb_transform.specs.declared.side.Side.TheVariants.{Left, Right};

use crate::classify::{TransformKind, classify, reposition_component};
use crate::component_list::Transformed;
use crate::component_transform::transform_by_kind;
use crate::rewrite::{Rewrite, rewrite_component};
use crate::side::{Fault, Side};
use sdb_component::Component;
use std::alloc::Global;

// Left components to push, or a right component to transform against the left ones.
#[derive(Drop)]
pub(crate) enum Frame {
    LeftFrame(Transformed),
    RightFrame(Component),
}

// The state of a crossing. The last items of `left` and `right` come first. `right_done` has the
// right components that were transformed against all left ones.
#[derive(Drop)]
pub(crate) struct CrossState {
    pub(crate) left: Vec<Component>,
    pub(crate) right: Vec<Frame>,
    pub(crate) right_done: Vec<Component>,
    pub(crate) pairs: u128,
}

impl CrossState {
    // Processes the next frame.
    pub(crate) fn step(&mut self, alloc: Global, next: Frame) -> Result<(), Fault>
        ensures invariant_preserved { OnOk result ((goal : CrossResult)
            → StateInvariantWith (work_item_of next ∷ []) goal self.old → StateInvariantWith [] goal self.new) }
        ensures bound_decreases { OnOk result (step_bound_with [] self.new < step_bound_with (work_item_of next
            ∷ []) self.old) }
        ensures refused { IfErr result (λ f. (goal : CrossResult)
            → StateInvariantWith (work_item_of next ∷ []) goal self.old → IsTransformFault f goal) }
    {
        match next {
            Frame::LeftFrame(pieces) => push_transformed(&mut self.left, pieces),
            Frame::RightFrame(right) => self.transform_next(alloc, right),
        }
    }

    // Transforms a right component against the left ones, while it stays a single component.
    fn transform_next(&mut self, alloc: Global, mut right: Component) -> Result<(), Fault>
        ensures invariant_preserved { OnOk result ((goal : CrossResult)
            → StateInvariantWith (RightChange right ∷ []) goal self.old → StateInvariantWith [] goal self.new) }
        ensures bound_decreases { OnOk result (step_bound_with [] self.new < step_bound_with (RightChange right
            ∷ []) self.old) }
        ensures refused { IfErr result (λ f. (goal : CrossResult)
            → StateInvariantWith (RightChange right ∷ []) goal self.old → IsTransformFault f goal) }
    {
        while let Some(left) = pop_left(&mut self.left) {
            self.pairs = self.pairs.saturating_add(1);
            let (pieces, run) = transform_pair(alloc, left, right)?;
            push_left(&mut self.right, pieces)?;
            match run {
                Transformed::One(next) => right = next,
                Transformed::Many(run) => return push_right(&mut self.right, run),
            }
        }
        self.right_done.push(right)?;
        Ok(())
    }
}

fn push_transformed(waiting: &mut Vec<Component>, pieces: Transformed) -> Result<(), Fault>
    ensures ok { OnOk result (from_top waiting.new.items
        ≡ transformed_components pieces ++ from_top waiting.old.items) }
    ensures err { IfErr result (λ f. f ≡ OutOfMemory) }
{
    match pieces {
        Transformed::One(piece) => {
            waiting.push(piece)?;
            Ok(())
        }
        Transformed::Many(pieces) => push_split(waiting, pieces),
    }
}

// Pushes the components so that the first one is on top.
pub(crate) fn push_split(
    waiting: &mut Vec<Component>,
    mut pieces: Vec<Component>,
) -> Result<(), Fault>
    ensures ok { OnOk result (from_top waiting.new.items ≡ pieces.items ++ from_top waiting.old.items) }
    ensures err { IfErr result (λ f. f ≡ OutOfMemory) }
{
    pieces.reverse();
    waiting.append(&mut pieces)?;
    Ok(())
}

fn pop_left(waiting: &mut Vec<Component>) -> Option<Component>
    ensures { MatchOption result
        ((from_top waiting.old.items ≡ []) × (from_top waiting.new.items ≡ []))
        (λ c. from_top waiting.old.items ≡ c ∷ from_top waiting.new.items) }
{
    waiting.pop()
}

// Returns the components from the top, without spare capacity.
pub(crate) fn stack_order(mut waiting: Vec<Component>) -> Vec<Component>
    ensures { result.items ≡ from_top waiting.items }
{
    waiting.reverse();
    waiting.shrink_to_fit();
    waiting
}

pub(crate) fn pop_right(work: &mut Vec<Frame>) -> Option<Frame>
    ensures { MatchOption result
        (work_from_top work.old.items ≡ []) (λ p. work_from_top work.old.items ≡ work_item_of p
        ∷ work_from_top work.new.items) }
{
    work.pop()
}

fn push_left(work: &mut Vec<Frame>, pieces: Transformed) -> Result<(), Fault>
    ensures ok { OnOk result (work_from_top work.new.items ≡ LeftChanges (transformed_components pieces)
        ∷ work_from_top work.old.items) }
    ensures err { IfErr result (λ f. f ≡ OutOfMemory) }
{
    work.push(Frame::LeftFrame(pieces))?;
    Ok(())
}

pub(crate) fn push_right(work: &mut Vec<Frame>, mut run: Vec<Component>) -> Result<(), Fault>
    ensures ok { OnOk result (work_from_top work.new.items ≡ right_frames run.items ++ work_from_top work.old.items) }
    ensures err { IfErr result (λ f. f ≡ OutOfMemory) }
{
    while let Some(component) = run.pop() {
        work.push(Frame::RightFrame(component))?;
    }
    Ok(())
}

// Transforms each of two components against the other. Nothing is cloned unless both are rewritten.
fn transform_pair(
    alloc: Global,
    left: Component,
    right: Component,
) -> Result<(Transformed, Transformed), Fault>
    ensures left { IfOk result (λ p. transform Left left right ≡ Some (transformed_components p.0)) }
    ensures right { IfOk result (λ p. transform Right right left ≡ Some (transformed_components p.1)) }
    ensures err { IfErr result (λ f. IsCrossFault left right f) }
{
    let of_left = classify(&left, &right, Side::Left);
    let of_right = classify(&right, &left, Side::Right);
    match of_left {
        TransformKind::Refused => Err(Fault::NotTransformed),
        TransformKind::PositionOnly(to) => {
            let run = transform_by_kind(alloc, right, &left, of_right)?;
            Ok((reposition_component(alloc, left, to), run))
        }
        TransformKind::Rewritten(of_left) => match of_right {
            TransformKind::Refused => Err(Fault::NotTransformed),
            TransformKind::PositionOnly(to) => {
                let pieces = rewrite_component(alloc, left, &right, of_left)?;
                Ok((pieces, reposition_component(alloc, right, to)))
            }
            TransformKind::Rewritten(of_right) => {
                rewrite_pair(alloc, left, right, of_left, of_right)
            }
        },
    }
}

// Rewrites both. The smaller one is cloned.
fn rewrite_pair(
    alloc: Global,
    left: Component,
    right: Component,
    of_left: Rewrite,
    of_right: Rewrite,
) -> Result<(Transformed, Transformed), Fault>
    requires left { IsRewrite of_left left right }
    requires right { IsRewrite of_right right left }
    ensures left { IfOk result (λ p. transformed_components p.0 ≡ rewrite_component of_left left right) }
    ensures right { IfOk result (λ p. transformed_components p.1 ≡ rewrite_component of_right right left) }
    ensures err { IfErr result (λ f. f ≡ OutOfMemory) }
{
    if weight_not_larger(&left, &right) {
        let copy = left.try_clone()?;
        let pieces = rewrite_component(alloc, copy, &right, of_left)?;
        let run = rewrite_component(alloc, right, &left, of_right)?;
        Ok((pieces, run))
    } else {
        let copy = right.try_clone()?;
        let run = rewrite_component(alloc, copy, &left, of_right)?;
        let pieces = rewrite_component(alloc, left, &right, of_left)?;
        Ok((pieces, run))
    }
}

// Returns whether the left component isn't larger than the right one. Both are measured up to a
// limit that doubles, so the cost is that of the smaller one.
fn weight_not_larger(left: &Component, right: &Component) -> bool
    ensures { result ≡ nat_le (saturated_size (component_size left.now)) (saturated_size (component_size right.now)) }
{
    let mut limit = 64;
    while limit < u64::MAX {
        let of_left = left.size(limit);
        let of_right = right.size(limit);
        if of_left < limit || of_right < limit {
            return of_left <= of_right;
        }
        limit = limit.saturating_mul(2);
    }
    left.size(u64::MAX) <= right.size(u64::MAX)
}
