//! The tree of a module, and findings at its places.
#![tactic(auto)]

mod bound;
mod code;
mod found;
mod keys;
mod lists;
mod maps;
mod names;
mod places;
mod sets;
mod suites;
mod text;
mod tree;

pub use bound::{add_bound, add_bound_by, add_bound_in};
pub use code::{Code, Finding, Findings};
pub use found::{find, find_if};
pub use keys::{KeyedHasher, Keys};
pub use lists::put_last;
pub use maps::{NameMap, bind_first};
pub use sets::{NameSet, put};
pub use text::Text;
pub use tree::{
    Ann, BinaryOperator, Branch, ClassDef, ComparisonOperator, Constant, Entry, Expr, Field,
    FuncDef, Item, ItemKind, KeywordArgument, Literal, LiteralKind, Member, Module, Name, Param,
    Stmt, StmtKind, Target,
};
