// The turns behind parts of targets.

ghost use Rattle.std.specs.Prelude.{◌+◌, IfOk};
ghost use Rattle.machine_assign.specs.py_world.Outcome.{Gave, Next};
ghost use Rattle.machine_assign.specs.machine_state.Places.{outcome};
ghost use Rattle.machine_assign.specs.machine_state.Frames.{on_target, machine_rest, site_now, state_of, Follows};
ghost use Rattle.machine_assign.specs.machine_state.Work.{stack_work, target_work, Falls};

use crate::augment::{augment_attribute, augment_item};
use crate::spot::{put_item, set_attribute, take_item, unset_attribute};
use machine_assign::assign::store_each;
use machine_assign::{End, Frame, Machine, NextAction, SimpleFrame, TargetFrame, TurnEnd};
use py_values::value::Value;
use seq::OutOfMemory;

/// Goes on with a value.
fn take_value(m: &mut Machine, frame: TargetFrame, v: Value) -> Result<TurnEnd, OutOfMemory>
    ensures next { IfOk result (λ t. Follows t m.new m.old.left (on_target frame (site_now m.old) (Gave v (state_of m.old)) (machine_rest m.old))) }
    ensures work { IfOk result (λ t. Falls t m.new m.old.left (target_work frame + stack_work m.old)) }
{
    match frame {
        TargetFrame::Attribute(name, w) => Ok(TurnEnd::Go(set_attribute(m, v, &name, w)?)),
        TargetFrame::Item(i, w) => {
            m.stack.push(Frame::Target(TargetFrame::At(v, w)))?;
            Ok(TurnEnd::Go(NextAction::Evaluate(i)))
        }
        TargetFrame::At(x, w) => put_item(m, x, v, w),
        TargetFrame::Each(_, _, _) => Ok(TurnEnd::Go(NextAction::Back(End::Value(v)))),
        TargetFrame::AugmentAttribute(name, op, e) => {
            Ok(TurnEnd::Go(augment_attribute(m, v, name, op, e)?))
        }
        TargetFrame::AugmentItem(i, op, e) => {
            m.stack
                .push(Frame::Target(TargetFrame::AugmentAt(v, op, e)))?;
            Ok(TurnEnd::Go(NextAction::Evaluate(i)))
        }
        TargetFrame::AugmentAt(x, op, e) => augment_item(m, x, v, op, e),
        TargetFrame::Old(place, op, e) => {
            m.stack
                .push(Frame::Simple(SimpleFrame::Augment(v, op, place)))?;
            Ok(TurnEnd::Go(NextAction::Evaluate(e)))
        }
        TargetFrame::DeleteAttribute(name) => Ok(TurnEnd::Go(unset_attribute(m, v, &name)?)),
        TargetFrame::DeleteItem(i) => {
            m.stack.push(Frame::Target(TargetFrame::DeleteAt(v)))?;
            Ok(TurnEnd::Go(NextAction::Evaluate(i)))
        }
        TargetFrame::DeleteAt(x) => take_item(m, x, v),
    }
}

/// Goes on behind a target that has its value.
fn take_next(m: &mut Machine, frame: TargetFrame) -> Result<TurnEnd, OutOfMemory>
    ensures next { IfOk result (λ t. Follows t m.new m.old.left (on_target frame (site_now m.old) (Next (state_of m.old)) (machine_rest m.old))) }
    ensures work { IfOk result (λ t. Falls t m.new m.old.left (target_work frame + stack_work m.old)) }
{
    match frame {
        TargetFrame::Each(ss, vs, at) => Ok(TurnEnd::Go(store_each(m, ss, vs, at)?)),
        _ => Ok(TurnEnd::Go(NextAction::Back(End::Next))),
    }
}

/// Goes on behind a part of a target.
#[tactic(auto, using(crate::proofs::Passing::target_returned, crate::proofs::Passing::target_broke, crate::proofs::Passing::target_continued, crate::proofs::Passing::target_raised))]
pub fn take_target(m: &mut Machine, frame: TargetFrame, end: End) -> Result<TurnEnd, OutOfMemory>
    ensures next { IfOk result (λ t. Follows t m.new m.old.left (on_target frame (site_now m.old) (outcome end (state_of m.old)) (machine_rest m.old))) }
    ensures work { IfOk result (λ t. Falls t m.new m.old.left (target_work frame + stack_work m.old)) }
{
    match end {
        End::Value(v) => take_value(m, frame, v),
        End::Next => take_next(m, frame),
        End::Returned(v) => Ok(TurnEnd::Go(NextAction::Back(End::Returned(v)))),
        End::Broke => Ok(TurnEnd::Go(NextAction::Back(End::Broke))),
        End::Continued => Ok(TurnEnd::Go(NextAction::Back(End::Continued))),
        End::Raised(e, trace) => Ok(TurnEnd::Go(NextAction::Back(End::Raised(e, trace)))),
    }
}
