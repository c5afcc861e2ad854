ghost use Rattle.std.specs.Prelude.{◌≡◌, ◌≤◌, ◌<◌, ◌+◌, max, false, IfOk, IfSome};
ghost use Rattle.py_source.specs.Limits.{most_levels};
ghost use Rattle.py_tree.specs.Trees.{tree};
ghost use Rattle.py_tree.specs.Statements.{place, taker};
ghost use Rattle.py_cursor.specs.py_expressions.Values.{places_from, one_place};
ghost use Rattle.py_cursor.specs.py_expressions.Sorts.{single as single_line, targets as targets_line};
ghost use Rattle.py_cursor.specs.Parser.{Gives};
ghost use Rattle.py_expression_parser.specs.Reads.{reads};
ghost use Rattle.py_target_parser.specs.Aims.{aim_of, aim_tall, IsPlace, start_on, step_on, aim_index_on, places_more, places_of};

use py_cursor::{Parser, Sign, Stop};
use py_expression_parser::{BEGINS_TARGET, arguments, expression, name_of, other_atom, slice};
use py_nodes::{
    Node, SingleNode, TargetNode, attribute_node, call_node, leaf_node, single_in, slice_node,
    subscript_node,
};
use py_tokens::Op;
use py_tree::{ExprKind, Single, Target};
use std::alloc::{AllocError, Global};
use std::rc::Rc;

/// What is read where a target may stand, and whether it is one, or must become a part of one.
#[derive(Drop)]
struct Aim {
    node: Node,
    is_target: bool,
}

/// Targets with commas between them, how high the highest is, and whether a comma ended them.
#[derive(Drop)]
pub struct Places {
    pub all: Vec<Single>,
    pub height: u32,
    pub ended: bool,
}

/// With which tokens a target goes on.
const GOES_ON: [Sign; 3] = [
    Sign::Op(Op::Dot),
    Sign::Op(Op::LeftBracket),
    Sign::Op(Op::LeftParen),
];

/// A name, or another atom, which is no target.
#[tactic(auto, using(crate::proofs::Aims::aim_rules))]
fn start(p: &mut Parser<'_>, levels: u32) -> Option<Aim>
    requires some { 0 < levels }
    requires few { levels ≤ most_levels }
    ensures reads { Gives (λ x. (aim_of x.is_target (tree x.node.expr.value), aim_tall x.is_target x.node.height)) result p.new (start_on levels p.old.rest.now) }
    ensures place { IfSome result (λ x. IsPlace x.is_target (tree x.node.expr.value)) }
    ensures fits { IfSome result (λ x. aim_tall x.is_target x.node.height ≤ levels) }
{
    if let Some(name) = p.take(Sign::Name) {
        let Some(text) = p.made(name_of(p.alloc, name)) else {
            return None;
        };
        let Some(node) = p.made(leaf_node(p.alloc, name.at, ExprKind::Name(text))) else {
            return None;
        };
        return Some(Aim {
            node,
            is_target: true,
        });
    }
    let Some(node) = other_atom(p, levels - 1) else {
        return None;
    };
    Some(Aim {
        node,
        is_target: false,
    })
}

/// `.name`, `[index]` or `(arguments)` behind an expression.
#[tactic(auto, using(crate::proofs::Aims::aim_rules))]
fn step(p: &mut Parser<'_>, levels: u32, of: Node) -> Option<Aim>
    requires few { levels ≤ most_levels }
    requires low { of.height < levels }
    ensures reads { Gives (λ x. (aim_of x.is_target (tree x.node.expr.value), aim_tall x.is_target x.node.height)) result p.new (step_on levels (tree of.expr.value, of.height) p.old.rest.now) }
    ensures place { IfSome result (λ x. IsPlace x.is_target (tree x.node.expr.value)) }
    ensures fits { IfSome result (λ x. aim_tall x.is_target x.node.height ≤ levels) }
{
    if let Some(_dot) = p.take_op(Op::Dot) {
        let Some(name) = p.expect(Sign::Name) else {
            return None;
        };
        let Some(text) = p.made(name_of(p.alloc, name)) else {
            return None;
        };
        let Some(node) = p.made(attribute_node(p.alloc, of, text)) else {
            return None;
        };
        return Some(Aim {
            node,
            is_target: true,
        });
    }
    if let Some(_open) = p.take_op(Op::LeftBracket) {
        return index(p, levels, of);
    }
    if of.height + 1 >= levels {
        p.stop_blocked(&[Sign::Op(Op::LeftParen)]);
        return None;
    }
    let Some(arguments) = arguments(p, levels - 1) else {
        return None;
    };
    let Some(node) = p.made(call_node(p.alloc, of, arguments)) else {
        return None;
    };
    Some(Aim {
        node,
        is_target: false,
    })
}

/// The index of an expression, behind `[`.
#[tactic(auto, using(crate::proofs::Aims::aim_rules))]
fn index(p: &mut Parser<'_>, levels: u32, of: Node) -> Option<Aim>
    requires few { levels ≤ most_levels }
    requires low { of.height < levels }
    ensures reads { Gives (λ x. (aim_of x.is_target (tree x.node.expr.value), aim_tall x.is_target x.node.height)) result p.new (aim_index_on levels (tree of.expr.value, of.height) p.old.rest.now) }
    ensures place { IfSome result (λ x. IsPlace x.is_target (tree x.node.expr.value)) }
    ensures fits { IfSome result (λ x. aim_tall x.is_target x.node.height ≤ levels) }
{
    if p.at_op(Op::Colon) {
        if of.height + 1 >= levels {
            p.stop_deep(p.rest);
            return None;
        }
        let Some(bounds) = slice(p, levels - 1) else {
            return None;
        };
        let Some(node) = p.made(slice_node(p.alloc, of, None, bounds)) else {
            return None;
        };
        return Some(Aim {
            node,
            is_target: false,
        });
    }
    let Some(index) = expression(p, levels - 1) else {
        return None;
    };
    if let Some(_close) = p.take_op(Op::RightBracket) {
        let Some(node) = p.made(subscript_node(p.alloc, of, index)) else {
            return None;
        };
        return Some(Aim {
            node,
            is_target: true,
        });
    }
    if of.height.max(index.height) + 1 >= levels {
        p.stop_blocked(&[Sign::Op(Op::Colon)]);
        return None;
    }
    let Some(bounds) = slice(p, levels - 1) else {
        return None;
    };
    let Some(node) = p.made(slice_node(p.alloc, of, Some(index), bounds)) else {
        return None;
    };
    Some(Aim {
        node,
        is_target: false,
    })
}

/// What takes one value: a name, an attribute or a subscript.
#[tactic(auto, using(crate::proofs::Aims::single_rules))]
pub fn single(p: &mut Parser<'_>, levels: u32) -> Option<SingleNode>
    requires { levels ≤ most_levels }
    ensures reads { Gives (λ x. (place x.single, x.height)) result p.new (reads levels single_line p.old.rest.now) }
    ensures fits { IfSome result (λ x. x.height ≤ levels) }
    ensures some { IfSome result (λ x. 0 < x.height) }
{
    if levels == 0 {
        p.stop_blocked(&BEGINS_TARGET);
        return None;
    }
    let Some(mut aim) = start(p, levels) else {
        return None;
    };
    while p.at_any(&GOES_ON) {
        if aim.is_target && aim.node.height >= levels {
            p.stop_deep(p.rest);
            return None;
        }
        let Some(next) = step(p, levels, aim.node) else {
            return None;
        };
        aim = next;
    }
    if !aim.is_target {
        p.stop = Stop::Bad(p.rest);
        return None;
    }
    let Some(found) = p.made(single_in(&aim.node.expr)) else {
        return None;
    };
    let Some(single) = found else {
        p.stop = Stop::Bad(p.rest);
        return None;
    };
    Some(SingleNode {
        single,
        height: aim.node.height,
    })
}

/// What takes a value, or several with commas between them, which unpack it.
#[tactic(auto, using(crate::proofs::Aims::targets_rules))]
pub fn targets(p: &mut Parser<'_>, levels: u32) -> Option<TargetNode>
    requires { levels ≤ most_levels }
    ensures reads { Gives (λ x. (taker x.target, x.height)) result p.new (reads levels targets_line p.old.rest.now) }
    ensures fits { IfSome result (λ x. x.height ≤ levels) }
{
    if levels == 0 {
        p.stop_blocked(&BEGINS_TARGET);
        return None;
    }
    let Some(first) = single(p, levels) else {
        return None;
    };
    if !p.at_op(Op::Comma) {
        return Some(TargetNode {
            target: Target::Single(first.single),
            height: first.height,
        });
    }
    if first.height >= levels {
        p.stop_deep(p.rest);
        return None;
    }
    let Some(places) = p.made(first_place(p.alloc, first)) else {
        return None;
    };
    let Some(places) = further(p, levels, places) else {
        return None;
    };
    let Some(all) = p.made(Rc::new(p.alloc, places.all)) else {
        return None;
    };
    Some(TargetNode {
        target: Target::Unpack(all),
        height: 1 + places.height,
    })
}

/// The first of several targets.
fn first_place(alloc: Global, first: SingleNode) -> Result<Places, AllocError>
    ensures places { IfOk result (λ places. places_of places ≡ places_from (place first.single)) }
    ensures height { IfOk result (λ places. places.height ≡ first.height) }
{
    let mut all = Vec::new(alloc);
    all.push(first.single)?;
    Ok(Places {
        all,
        height: first.height,
        ended: false,
    })
}

/// The targets, and one more.
#[tactic(auto, using(crate::proofs::Aims::places_more_of))]
fn add_place(places: Places, next: SingleNode) -> Result<Places, AllocError>
    ensures places { IfOk result (λ more. places_of more ≡ one_place (places_of places) (place next.single)) }
    ensures height { IfOk result (λ more. more.height ≡ max places.height next.height) }
{
    let height = places.height.max(next.height);
    let mut all = places.all;
    all.push(next.single)?;
    Ok(Places {
        all,
        height,
        ended: false,
    })
}

/// Targets behind the first, and maybe a comma at the end.
#[tactic(auto, using(crate::proofs::Aims::places_over))]
fn further(p: &mut Parser<'_>, levels: u32, places: Places) -> Option<Places>
    requires some { 0 < levels }
    requires few { levels ≤ most_levels }
    requires open { places.ended ≡ false }
    requires low { places.height < levels }
    ensures reads { Gives (λ x. (places_of x, x.height)) result p.new (places_more levels (places_of places, places.height) p.old.rest.now) }
    ensures fits { IfSome result (λ x. x.height < levels) }
{
    let mut places = places;
    while let Some(_comma) = p.take_op(Op::Comma) {
        if !p.at_any(&BEGINS_TARGET) {
            let Places {
                all,
                height,
                ended: _,
            } = places;
            return Some(Places {
                all,
                height,
                ended: true,
            });
        }
        let Some(next) = single(p, levels - 1) else {
            return None;
        };
        let Some(more) = p.made(add_place(places, next)) else {
            return None;
        };
        places = more;
    }
    Some(places)
}
