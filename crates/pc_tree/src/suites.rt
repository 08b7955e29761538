//! The name that a statement binds by itself, and its suites.
ghost use Rattle.std.specs.Prelude.{◌≡◌, ◌<◌, map};
ghost use denote.Param.Weighed.{most};
ghost use Rattle.std.specs.Option.{option_to_list};
ghost use Rattle.pc_source.specs.declared.place.Place.{Place as PlaceOf};
ghost use Rattle.pc_tree.specs.declared.tree.Stmt.{size-Stmt};
ghost use Rattle.pc_tree.specs.declared.tree.StmtKind.{size-StmtKind};
ghost use Rattle.pc_tree.specs.declared.tree.Branch.{size-Branch};
ghost use Rattle.pc_tree.specs.Tree.{stmts_of_list, stmt_of_kind};
ghost use Rattle.pc_tree.specs.Lists.{branches_of_list, name_seen};
ghost use Rattle.pc_tree.specs.Suites.{own_names, branches_of_stmt, last_suite};

use crate::tree::{Branch, Name, Stmt, StmtKind, Target};

impl StmtKind {
    /// Returns the name that the statement binds by itself, if any. Language Reference 4.2.1 "Binding of names".
    pub fn own_name(&self) -> Option<&Name>
        ensures { (p : PlaceOf) → map name_seen (option_to_list result) ≡ own_names (stmt_of_kind p self.now) }
    {
        match self {
            StmtKind::Annotated { target: name, .. } => Some(name),
            StmtKind::Assign(Target::Name(name), _) => Some(name),
            StmtKind::For { target: name, .. } => Some(name),
            StmtKind::Assign(Target::Attribute { .. }, _) => None,
            StmtKind::Assign(Target::Index { .. }, _) => None,
            StmtKind::Pass | StmtKind::Break | StmtKind::Continue => None,
            StmtKind::Return(_) | StmtKind::Assert(_, _) | StmtKind::Expr(_) => None,
            StmtKind::While(_, _) | StmtKind::If(_, _) => None,
        }
    }

    /// Returns the statement's suites in text order: its branches, and its last suite, which is the body of a loop or
    /// the suite of `else`. Either is empty if the statement has none.
    pub fn suites(&self) -> (&[Branch], &[Stmt])
        ensures branches { (p : PlaceOf)
            → branches_of_list result.0.now ≡ branches_of_stmt (stmt_of_kind p self.now) }
        ensures last { (p : PlaceOf) → stmts_of_list result.1.now ≡ last_suite (stmt_of_kind p self.now) }
        ensures branches_within { most size-Branch result.0.now < size-StmtKind self.now }
        ensures last_within { most size-Stmt result.1.now < size-StmtKind self.now }
    {
        match self {
            StmtKind::Pass | StmtKind::Break | StmtKind::Continue => (&[], &[]),
            StmtKind::Return(_) | StmtKind::Assert(_, _) | StmtKind::Expr(_) => (&[], &[]),
            StmtKind::Annotated { .. } | StmtKind::Assign(_, _) => (&[], &[]),
            StmtKind::While(_, body) => (&[], body),
            StmtKind::For { body, .. } => (&[], body),
            StmtKind::If(branches, otherwise) => (branches, otherwise),
        }
    }
}
