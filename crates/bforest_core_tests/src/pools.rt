//! The table of nodes: a value that is lent, and a growth that no memory holds.
ghost use Rattle.bforest_nodes.specs.Content.{Leaf};
ghost use Rattle.bforest_core.specs.Table.{IsUsed};
ghost use Rattle.std.specs.Prelude.{Some, [], slice_get, ◌∷◌, ◌≡◌};

use bforest_core::{Node, NodePool, OutOfMemory};
use std::test::Fail;

/// A pool of numbers keyed by numbers.
type Pool = NodePool<u32, u32, 7>;

/// Writes the value of the only entry of a leaf.
fn write_only_value(pool: &mut Pool, node: Node, value: u32)
    requires used { IsUsed pool.old node }
    requires leaf { slice_get pool.old.nodes node ≡ Some (Leaf (5 ∷ []) (50 ∷ [])) }
    ensures { slice_get pool.new.nodes node ≡ Some (Leaf (5 ∷ []) (value ∷ [])) }
{
    *pool.value_mut(node, 0) = value;
}

#[test]
fn a_value_is_written_through_the_pool(rt: HostRuntime) -> Result<(), Fail> {
    let mut pool: Pool = NodePool::new(rt.alloc());
    let node = pool.alloc_node(5, 50).ok().ok_or("no node")?;
    write_only_value(&mut pool, node, 51);
    assert_eq!(rt; pool.node(node).entry(0), (5, 51));
    Ok(())
}

#[test]
fn a_growth_that_no_memory_holds_is_refused(rt: HostRuntime) {
    let mut pool: NodePool<[u8; 65536], u32, 7> = NodePool::new(rt.alloc());
    assert_eq!(rt; pool.reserve(4294967295), Err(OutOfMemory::Memory));
    assert_eq!(rt; pool.slots(), 0);
    assert_eq!(rt; pool.free(), 0);
}
