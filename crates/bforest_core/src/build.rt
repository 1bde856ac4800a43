//! Making a tree of entries that are given in order, leaf after leaf.
ghost use Rattle.std.specs.Prelude.{◌≡◌, ℕ, ◌+◌, ◌^◌, ◌<◌, ◌≤◌, IfOk, IsOk, OnErr, Err, ◌↔◌, Some, List, [], ◌∷◌, length, slice_get, take};
ghost use Rattle.bforest_nodes.specs.Content.{IsLeafCapacity};
ghost use Rattle.bforest_core.specs.Change.{PlantsTree, node_count};
ghost use Rattle.bforest_core.specs.Packed.{ArePacked, IsPlan, fewest, need_of, width};
ghost use Rattle.bforest_core.specs.Sources.{Builds, Feeds, TakesEntries};
ghost use Rattle.bforest_core.specs.Trees.{IsUnion};
ghost use Rattle.bforest_core.specs.Table.{NeedsGrowth, Table, free_count, room};

use crate::leaf_source::LeafSource;
use crate::pool::{NodePool, OutOfMemory};
use bforest_nodes::Node;

/// The most children of an inner node.
const INNER_SIZE: usize = 8;

// How a tree of some entries is built: of how many nodes, with the root on which level, and with room for how many entries below the root.
#[derive(Clone, Copy, Drop)]
struct Plan {
    nodes: usize,
    level: usize,
    room: usize,
}

impl<K: Copy, V: Copy, const N: usize> NodePool<K, V, N> {
    /// Makes a tree of so many entries, in their order, and returns its root. All nodes of a level are full but the last, so no tree of so
    /// many entries has fewer nodes. No key is compared.
    ///
    /// Takes as many nodes as the tree has; one `reserve` before the first change provides them.
    ///
    /// # Errors
    ///
    /// The errors of `reserve` of that many nodes. After either the pool is as before.
    pub fn build_tree<S: LeafSource<K, V, N>>(
        &mut self,
        source: &mut S,
        entries: usize,
    ) -> Result<Node, OutOfMemory>
        requires union { IsUnion N self.old }
        requires reads { S.reads source.old self.old }
        requires some { 0 < entries }
        requires all { entries ≡ length (S.left source.old self.old) }
        ensures planted { IfOk result (λ root. (sizes : List (List ℕ)) × ArePacked N sizes
            × (node_count sizes ≡ fewest N entries)
            × PlantsTree N self.old self.new root (S.left source.old self.old) sizes) }
        ensures err { OnErr result (self.new ≡ self.old) }
        ensures full { (result ≡ Err OutOfMemory.Full) ↔ (room self.old < fewest N entries) }
        ensures memory { result ≡ Err OutOfMemory.Memory → NeedsGrowth (fewest N entries) self.old }
        ensures enough { fewest N entries ≤ free_count self.old → IsOk result }
    {
        let room = (self.free() + (self.limit() - self.slots())) as usize;
        if entries > room * N {
            return Err(OutOfMemory::Full);
        }
        let plan = plan_for(entries, N);
        if plan.nodes > room {
            return Err(OutOfMemory::Full);
        }
        self.reserve(plan.nodes as u32)?;
        let (_, root) = self.build_below(source, entries, plan.level, plan.room);
        Ok(root)
    }

    // Makes a node of the next entries of a source, and everything below it; `level` levels are below it, with room for so many entries.
    // Returns the first key, too. The source is asked while all that is built are whole trees.
    fn build_below<S: LeafSource<K, V, N>>(
        &mut self,
        source: &mut S,
        entries: usize,
        level: usize,
        room: usize,
    ) -> (K, Node)
        requires capacity { IsLeafCapacity N }
        requires some { 0 < entries }
        requires within { entries ≤ room }
        requires room { room ≡ width N level }
        requires small { room < 2 ^ 60 }
        requires low { level ≤ 16 }
        requires free { need_of N level entries ≤ free_count self.old }
        requires feeds { (base : Table K V)
            × Feeds N (S.reads source.old) (S.left source.old) base self.old entries }
        ensures gives { (base : Table K V)
            → Feeds N (S.reads source.old) (S.left source.old) base self.old entries
            → TakesEntries (S.left source.old base) (S.left source.new base) entries
            (S.reads source.new base) result.0 }
        ensures builds { (base : Table K V)
            → Feeds N (S.reads source.old) (S.left source.old) base self.old entries
            → Builds N base self.old self.new (S.left source.old base) entries level result.1 }
    {
        if level == 0 {
            return source.next_leaf(self, entries);
        }
        let part = room / INNER_SIZE;
        let (first_key, first) = self.build_below(source, part.min(entries), level - 1, part);
        let mut node = self.over(first_key, first);
        let mut done = part;
        let mut index = 0;
        while done < entries {
            let next = part.min(entries - done);
            let (key, child) = self.build_below(source, next, level - 1, part);
            node.try_inner_insert(index, key, child);
            done += part;
            index += 1;
        }
        (first_key, self.add_node(node))
    }
}

// The plan of a tree of so many entries, whose leaves have at most `capacity`.
fn plan_for(entries: usize, capacity: usize) -> Plan
    requires some { 0 < entries }
    requires few { entries ≤ 1099511627776 }
    requires capacity { IsLeafCapacity capacity }
    ensures { IsPlan capacity entries result.nodes result.level result.room }
{
    let mut level = 0;
    let mut room = capacity;
    let mut nodes = entries.div_ceil(capacity);
    while room < entries {
        room *= INNER_SIZE;
        nodes += entries.div_ceil(room);
        level += 1;
    }
    Plan { nodes, level, room }
}
