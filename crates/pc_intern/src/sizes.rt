//! Sizes of stored types, which decide how types are compared.

ghost use Rattle.std.specs.Prelude.{◌<◌, All, IsTrue, map};
ghost use Rattle.pc_types.specs.Tree.{TupleOf};
ghost use Rattle.pc_types.specs.Shape.{nodes, node_limit, trees};
ghost use Rattle.pc_intern.specs.Store.{IsInterned, tree_of_type};

use crate::store::{InternStore, TypeId};
use pc_types::{Head, TypeStore};

/// Most nodes of a type.
const MOST_NODES: usize = 256;

/// Most classes with which the memo is used for any two types. Whether parents are the store's is found by comparing
/// the two lists; with more classes that takes longer than comparing most types structurally.
const MEMO_CLASSES: usize = 256;

impl InternStore {
    /// Returns whether the memo is used for two types: there are few classes, or two unions with no fewer pairs of
    /// members.
    pub(crate) fn is_memo_asked(&self, s: &TypeId, t: &TypeId) -> bool
        requires left { IsInterned self.now s.now }
        requires right { IsInterned self.now t.now }
    {
        let classes = self.parents.count();
        match (self.table.head(s.number), self.table.head(t.number)) {
            (Head::Union(left), Head::Union(right)) if classes > MEMO_CLASSES => {
                classes <= left.saturating_mul(right)
            }
            _ => classes <= MEMO_CLASSES,
        }
    }

    /// Returns true only if a tuple of these types has more nodes than a type may have, so that none of them need be
    /// copied.
    pub(crate) fn is_tuple_large(&self, types: &[TypeId]) -> bool
        requires { All (IsInterned self.now) types.now }
        ensures { IsTrue result → node_limit < nodes (TupleOf (trees (map tree_of_type types.now))) }
    {
        let mut nodes = 1;
        for ty in types {
            let more = self.nodes(ty);
            if more > MOST_NODES - nodes {
                return true;
            }
            nodes += more;
        }
        false
    }
}
