ghost use Rattle.std.specs.Prelude.{◌≡◌, ◌<◌, ◌+◌, List, [], ◌∷◌, ◌++◌, length, drop, MatchOption, IfOk};
ghost use Rattle.setup_stack.specs.Asking.{IsHanded, fresh_frame, wants, wants_then};
ghost use Rattle.fixture_instances.specs.Items.{requests_in};

use crate::answers::{Answer, Grant};
use fixture_instances::{ItemRef, requests_of};
use fixture_table::Table;
use seq::{OutOfMemory, Seq};
use session_types::DefId;
use std::alloc::Global;

/// A definition whose arguments are being demanded: what it asks for, and what it was given so far.
#[derive(Drop)]
pub struct AskFrame<V> {
    pub def: DefId,
    pub requests: Seq<DefId>,
    pub given: Seq<Grant<V>>,
}

/// How a turn of a demand ended: another asks, or the answer is there.
#[derive(Drop)]
pub enum Turn<V, E> {
    Goes(AskFrame<V>),
    Done(Answer<V, E>),
}

/// A definition that has been given nothing yet.
pub(crate) fn open<V>(
    alloc: Global,
    table: &Table,
    item: &ItemRef<V>,
    def: DefId,
) -> Result<AskFrame<V>, OutOfMemory>
    requires def { def < length table.now.defs }
    requires node { item.now.node < length table.now.nodes }
    ensures { IfOk result (λ frame. frame ≡ fresh_frame def (requests_in table.now item.now def)) }
{
    let requests = requests_of(alloc, table, item, def)?;
    Ok(AskFrame {
        def,
        requests,
        given: Seq::new(alloc),
    })
}

/// What it asks for next.
pub(crate) fn next_of<V>(frame: &AskFrame<V>) -> Option<DefId>
    ensures { MatchOption result (wants frame.now ≡ []) (λ next. wants frame.now ≡ next ∷ wants_then frame.now) }
{
    let at = frame.given.len();
    let requests = frame.requests.items();
    if at < requests.len() {
        Some(requests[at])
    } else {
        None
    }
}

/// Hands an answer to the one that waits for it.
pub(crate) fn hand<V: Copy, E: Drop>(
    below: &mut Vec<AskFrame<V>>,
    answer: Answer<V, E>,
) -> Result<Turn<V, E>, OutOfMemory>
    ensures { IfOk result (λ turn. IsHanded below.old.items answer turn below.new.items) }
{
    match answer {
        Answer::Refused(raised) => Ok(Turn::Done(Answer::Refused(raised))),
        Answer::Given(grant) => match below.pop() {
            None => Ok(Turn::Done(Answer::Given(grant))),
            Some(frame) => {
                let AskFrame {
                    def,
                    requests,
                    mut given,
                } = frame;
                given.push(grant)?;
                Ok(Turn::Goes(AskFrame {
                    def,
                    requests,
                    given,
                }))
            }
        },
    }
}
