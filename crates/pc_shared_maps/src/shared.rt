//! Maps from numbers to numbers that share nodes.

ghost use Rattle.std.specs.Prelude.{◌≡◌, ◌++◌, ◌∷◌, [], OnOk, OnErr, ◌<◌, ◌≤◌, ℕ, List, length, if◌then◌else◌, ◌==◌};
ghost use Rattle.std.specs.Prelude.{Some, None, IfOk};
ghost use Rattle.pc_shared_maps.specs.declared.shared.MapNode.{MapNode as NodeOf};
ghost use Rattle.pc_shared_maps.specs.SharedMaps.{held_at, node_at, HasSuccessorsIn, HasAllSuccessors, KeepsMaps, HasBelow};

use pc_source::OutOfMemory;
use std::alloc::Global;
use std::marker::Model;

/// A node of a map: the value at the number 0, and the nodes of the odd and of the even numbers from 1.
#[derive(Clone, Copy)]
pub struct MapNode {
    held: Option<usize>,
    odd: usize,
    even: usize,
}

/// Maps from numbers to numbers, each built on an earlier one, which is kept: they share all nodes but those on the
/// path to the changed value. A map is identified by the number of its first node; node 0 is the empty map.
#[derive(Drop)]
pub struct SharedMaps {
    nodes: Vec<MapNode>,
}

impl Model for SharedMaps {
    ghost Value = { List NodeOf };

    ghost view = { λ s. s.nodes.items };

    ghost invariant = { λ s. HasAllSuccessors s.nodes.items };
}

impl SharedMaps {
    /// Returns the empty map alone.
    pub fn new(alloc: Global) -> Result<SharedMaps, OutOfMemory>
        ensures room { IfOk result (λ s. 0 < length s) }
        ensures empty { IfOk result (λ s. (key : ℕ) → held_at s 0 key ≡ None) }
        ensures below { IfOk result (HasBelow 0) }
    {
        let mut nodes = Vec::new(alloc);
        nodes.push(MapNode {
            held: None,
            odd: 0,
            even: 0,
        })?;
        Ok(SharedMaps { nodes })
    }

    /// Returns the node with this number.
    fn node(&self, at: usize) -> MapNode
        requires { at < length self.now }
        ensures value { result ≡ node_at self.now at }
        ensures within { HasSuccessorsIn self.now result }
        ensures closed { HasAllSuccessors self.now }
    {
        self.nodes[at]
    }

    /// Adds a node, whose successors must exist already, and returns its number.
    fn add(&mut self, node: MapNode) -> Result<usize, OutOfMemory>
        requires { HasSuccessorsIn self.old node }
        ensures added { OnOk result (self.new ≡ self.old ++ node ∷ []) }
        ensures place { IfOk result (λ at. at ≡ length self.old) }
        ensures closed { HasAllSuccessors self.old }
        ensures kept { KeepsMaps self.old self.new }
        ensures unchanged { OnErr result (self.new ≡ self.old) }
    {
        let at = self.nodes.len();
        self.nodes.push(node)?;
        Ok(at)
    }

    /// Returns the value of a map at a number.
    pub fn get(&self, map: usize, key: usize) -> Option<usize>
        requires { map < length self.now }
        ensures { result ≡ held_at self.now map key }
    {
        let mut at = map;
        let mut rest = key;
        while rest > 0 {
            let node = self.node(at);
            at = if rest % 2 == 1 { node.odd } else { node.even };
            rest = (rest - 1) / 2;
        }
        self.node(at).held
    }

    /// Adds the map that is `map` with `value` at a number. Returns its number.
    pub fn put(&mut self, map: usize, key: usize, value: usize) -> Result<usize, OutOfMemory>
        requires { map < length self.old }
        ensures within { IfOk result (λ new. new < length self.new) }
        ensures value { IfOk result
            (λ new. (k : ℕ) → held_at self.new new k ≡ (if k == key then Some value else held_at self.old map k)) }
        ensures kept { KeepsMaps self.old self.new }
        ensures below { (limit : ℕ) → key < limit → HasBelow limit self.old → HasBelow limit self.new }
    {
        let mut node = self.node(map);
        if key == 0 {
            node.held = Some(value);
            let new = self.add(node)?;
            return Ok(new);
        }
        if key % 2 == 1 {
            node.odd = self.put(node.odd, (key - 1) / 2, value)?;
            let new = self.add(node)?;
            return Ok(new);
        }
        node.even = self.put(node.even, (key - 1) / 2, value)?;
        let new = self.add(node)?;
        Ok(new)
    }
}
