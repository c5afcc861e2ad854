ghost use Rattle.std.specs.Prelude.{◌≡◌};
ghost use Rattle.session_types.specs.Numbers.{among};
ghost use Rattle.session_types.specs.Live.{is_at, is_off, rests_on};

use session_types::{DefId, Instance};

/// Whether it is of this definition, on this node.
pub fn is_at(instance: &Instance, def: DefId, node: u32) -> bool
    ensures { result ≡ is_at def node instance.now }
{
    def.number() == instance.def.number() && node == instance.node
}

fn has_node(nodes: &[u32], node: u32) -> bool
    ensures { result ≡ among node nodes.now }
{
    nodes.iter().any(|one| *one == node)
}

/// Whether it is the one of this number, or depends on it.
pub fn rests_on(instance: &Instance, number: u64) -> bool
    ensures { result ≡ rests_on number instance.now }
{
    number == instance.order || instance.bases.has(number)
}

/// Whether its node is none of these.
pub fn is_off(instance: &Instance, chain: &[u32]) -> bool
    ensures { result ≡ is_off chain.now instance.now }
{
    !has_node(chain, instance.node)
}
