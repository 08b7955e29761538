//! The names of items and members.
ghost use Rattle.std.specs.Prelude.{◌≡◌};
ghost use Rattle.pc_tree.specs.Tree.{name_of, item_of, member_of};
ghost use Rattle.pc_tree.specs.Stopping.{name_of_item, name_of_member};

use crate::tree::{Item, ItemKind, Member, Name};

impl Item {
    /// Returns the name that the item binds. Language Reference 4.2.1 "Binding of names".
    pub fn name(&self) -> &Name
        ensures { name_of result.now ≡ name_of_item (item_of self.now) }
    {
        match &self.kind {
            ItemKind::Constant(constant) => &constant.name,
            ItemKind::Class(class) => &class.name,
            ItemKind::Def(def) => &def.name,
        }
    }
}

impl Member {
    /// Returns the name that the member binds in its class. Language Reference 4.2.1 "Binding of names".
    pub fn name(&self) -> &Name
        ensures { name_of result.now ≡ name_of_member (member_of self.now) }
    {
        match self {
            Member::Field(field) => &field.name,
            Member::Method(def) => &def.name,
        }
    }
}
