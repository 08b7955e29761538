//! The annotations of the locals of a function.

ghost use Rattle.std.specs.Prelude.{◌≡◌, ◌++◌, ◌∷◌, [], IfOk, List, OnOk, Some, flat_map, map, option_map};
ghost use Rattle.pc_tree.specs.Lists.{branches_of_list};
ghost use Rattle.pc_tree.specs.Tree.{ann_of, func_of, param_of, stmt_of, stmts_of_list};
ghost use Rattle.pc_detail_facts.specs.Annotated.{annotation_lent};
ghost use Rattle.pc_detail_rules.specs.Nodes.{stmts_in, stmts_in_branches, stmts_in_suite};
ghost use Rattle.pc_detail_rules.specs.Written.{Annotated, annotated_locals, annotated_name, annotated_param, annotated_stmt};
ghost use Rattle.pc_flow_details.specs.Locals.{AreLocals, local_held};

use pc_source::OutOfMemory;
use pc_tree::{Ann, Branch, FuncDef, Param, Stmt, StmtKind};
use std::alloc::Global;
use std::collections::BTreeMap;

/// The annotations of the locals of a function by name, of each the first.
#[derive(Drop)]
pub(crate) struct LocalAnnotations<'c> {
    first: BTreeMap<&'c str, &'c Ann>,
}

impl<'c> LocalAnnotations<'c> {
    /// Returns the annotation of a local, if it has one.
    pub(crate) fn get(&self, name: &'c str) -> Option<&'c Ann>
        ensures { option_map annotation_lent result ≡ local_held self.now name.now }
    {
        self.first.get(&name).copied()
    }

    /// Adds a name with its annotation, behind the others.
    fn add(&mut self, name: &'c str, annotation: &'c Ann) -> Result<(), OutOfMemory>
        ensures { (before : List Annotated) → AreLocals self.old before → OnOk result
            (AreLocals self.new (before ++ annotated_name name.now (Some (ann_of annotation.now)))) }
    {
        if self.first.contains_key(&name) {
            return Ok(());
        }
        self.first.insert(name, annotation)?;
        Ok(())
    }

    /// Adds a parameter, if it is annotated, behind the others.
    fn add_param(&mut self, param: &'c Param) -> Result<(), OutOfMemory>
        ensures { (before : List Annotated) → AreLocals self.old before
            → OnOk result (AreLocals self.new (before ++ annotated_param (param_of param.now))) }
    {
        match &param.annotation {
            Some(annotation) => self.add(param.name.text.as_str(), annotation),
            None => Ok(()),
        }
    }

    /// Adds the annotated parameters among some, behind the others.
    fn add_params(&mut self, params: &'c [Param]) -> Result<(), OutOfMemory>
        ensures { (before : List Annotated) → AreLocals self.old before
            → OnOk result (AreLocals self.new (before ++ flat_map annotated_param (map param_of params.now))) }
    {
        for param in params {
            self.add_param(param)?;
        }
        Ok(())
    }

    /// Adds the locals that the statements of a suite annotate, behind the others.
    #[cycle(statements)]
    fn add_suite(&mut self, suite: &'c [Stmt]) -> Result<(), OutOfMemory>
        ensures { (before : List Annotated) → AreLocals self.old before → OnOk result
            (AreLocals self.new (before ++ flat_map annotated_stmt (stmts_in_suite (stmts_of_list suite.now)))) }
    {
        for statement in suite {
            self.add_statement(statement)?;
        }
        Ok(())
    }

    /// Adds the locals that a statement and those in its suites annotate, behind the others.
    #[cycle(statements)]
    fn add_statement(&mut self, statement: &'c Stmt) -> Result<(), OutOfMemory>
        ensures { (before : List Annotated) → AreLocals self.old before → OnOk result
            (AreLocals self.new (before ++ flat_map annotated_stmt (stmts_in (stmt_of statement.now)))) }
    {
        self.add_here(statement)?;
        let (branches, last) = statement.kind.suites();
        self.add_branches(branches)?;
        self.add_suite(last)
    }

    /// Adds the locals that the statements of branches annotate, behind the others.
    #[cycle(statements)]
    fn add_branches(&mut self, branches: &'c [Branch]) -> Result<(), OutOfMemory>
        ensures { (before : List Annotated) → AreLocals self.old before → OnOk result
            (AreLocals self.new (before ++ flat_map annotated_stmt (stmts_in_branches (branches_of_list branches.now)))) }
    {
        for branch in branches {
            self.add_suite(&branch.body)?;
        }
        Ok(())
    }

    /// Adds the local that a statement itself annotates, if it annotates one, behind the others.
    fn add_here(&mut self, statement: &'c Stmt) -> Result<(), OutOfMemory>
        ensures { (before : List Annotated) → AreLocals self.old before
            → OnOk result (AreLocals self.new (before ++ annotated_stmt (stmt_of statement.now))) }
    {
        match &statement.kind {
            StmtKind::Annotated {
                target: name,
                annotation,
                ..
            } => self.add(name.text.as_str(), annotation),
            _ => Ok(()),
        }
    }

    /// Returns the annotations of the locals of a function.
    pub(crate) fn of(
        alloc: Global,
        function: &'c FuncDef,
    ) -> Result<LocalAnnotations<'c>, OutOfMemory>
        ensures { IfOk result (λ l. AreLocals l (annotated_locals (func_of function.now))) }
    {
        let mut locals = LocalAnnotations {
            first: BTreeMap::new(alloc),
        };
        locals.add_params(&function.params)?;
        locals.add_suite(&function.body)?;
        Ok(locals)
    }
}
