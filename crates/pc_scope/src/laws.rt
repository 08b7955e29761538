//! Laws of name resolution.

ghost use Rattle.std.specs.Prelude.{◌≡◌, ℕ, List, Some};
ghost use Rattle.pc_tree.specs.Tree.{Module};
ghost use Rattle.pc_scope.specs.declared.resolution.Owner.{Owner};
ghost use Rattle.pc_scope.specs.declared.resolution.Builtin.{Builtin};
ghost use Rattle.pc_scope.specs.declared.resolution.NameMeaning.TheVariants as meaning;
ghost use Rattle.pc_scope.specs.Reserved.{builtin_of};
ghost use Rattle.pc_scope.specs.Resolution.{resolve};
ghost use Rattle.pc_scope.specs.ModuleScopes.{ModuleScopes, AreScopes};
ghost use Rattle.pc_scope.specs.Tables.{meaning_by_tables};

/// The law that a reserved name means its built-in, whatever a module binds.
pub fn reserved_names_are_unbound()
    ensures { (m : Module) (owner : Owner) (name : List ℕ) (b : Builtin) → builtin_of name ≡ Some b
        → resolve m owner name ≡ meaning.Builtin b }
{}

/// The law that the tables of a module's scopes resolve each name as the module does.
pub fn tables_resolve_names()
    ensures { (m : Module) (s : ModuleScopes) → AreScopes m s → (owner : Owner) (name : List ℕ)
        → meaning_by_tables s.tables owner name ≡ resolve m owner name }
{}
