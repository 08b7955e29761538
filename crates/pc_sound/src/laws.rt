//! The soundness law, and the laws that it rests on.

ghost use Rattle.std.specs.Prelude.{◌≡◌, ◌⊎◌, List, Some};
ghost use Rattle.pc_source.specs.declared.place.Place.{Place};
ghost use Rattle.pc_token.specs.Lexeme.{Lexeme};
ghost use Rattle.pc_tree.specs.Tree.{Ann, Module};
ghost use Rattle.pc_grammar.specs.Grammar.Annotations.{Annotation};
ghost use Rattle.pc_grammar.specs.Grammar.Modules.{SpellsModule};
ghost use Rattle.pc_types.specs.Below.{AreSmaller, Bases, Static};
ghost use Rattle.pc_types.specs.Tree.{Int, ListOf, NoneType, Tree};
ghost use Rattle.pc_types.specs.Normal.{IsNormal};
ghost use Rattle.pc_types.specs.Shape.{members};
ghost use Rattle.pc_types.specs.Join.{join};
ghost use Rattle.pc_annotations.specs.Annotations.{read_ann};
ghost use Rattle.pc_annotations.specs.Bases.{bases_of};
ghost use Rattle.pc_class.specs.Facts.{ClassFacts, classes_of};
ghost use Rattle.pc_flow.specs.Narrowing.{Tested, type_where_true, type_where_false};
ghost use Rattle.pc_module_rules.specs.FlowsOfModules.{FlowsDynamically};
ghost use Rattle.pc_value.specs.Value.{Heap, Value, seen};
ghost use Rattle.pc_value.specs.Containers.{append_outcome, store_outcome};
ghost use Rattle.pc_sound.specs.Values.{HeapTyping, HasType, IsWell};
ghost use Rattle.pc_sound.specs.Needed.{FieldsHaveNoNever, HasNoNever, IsNeeded, IsNeededWithin};
ghost use Rattle.pc_sound.specs.Sound.{Sound, SoundBesideErrors};
ghost use Rattle.pc_sound.specs.KeptHeaps.{ActsWell, CanFollowAll, Passes};

/// The law that a value of a type is also of each type that the type is static to.
pub fn values_flow_statically()
    ensures { (bases : Bases) (k : HeapTyping) (s t : Tree) (v : Value) → Static bases s t → HasType bases k s v
        → HasType bases k t v }
{}

/// The law of narrowing by a test: the values of a type that pass are of the type narrowed where the test is true, and
/// those that fail are of the type narrowed where it is false. For a test for a list, no member of the type may be Any
/// or object.
pub fn narrowing_keeps_values()
    ensures passing { (bases : Bases) → AreSmaller bases → (k : HeapTyping) (test : Tested) (t : Tree)
        → CanFollowAll test (members t) → (v : Value) → HasType bases k t v → Passes bases k test v
        → HasType bases k (type_where_true bases test t) v }
    ensures failing { (bases : Bases) → AreSmaller bases → (k : HeapTyping) (test : Tested) (t : Tree)
        → CanFollowAll test (members t) → (v : Value) → HasType bases k t v → ¬ (Passes bases k test v)
        → HasType bases k (type_where_false bases test t) v }
{}

/// The law that the recorded type of a list stays: an item appended or stored is of the item type that the list was
/// made with, whatever name the list is reached by.
pub fn aliases_keep_heaps()
    ensures append { (bases : Bases) (classes : List ClassFacts) (k : HeapTyping) (heap : Heap) (t : Tree)
        (list item : Value) → IsWell bases classes k heap → HasType bases k (ListOf t) list → HasType bases k t item
        → ActsWell bases classes k NoneType (append_outcome heap (seen heap list) item) }
    ensures store { (bases : Bases) (classes : List ClassFacts) (k : HeapTyping) (heap : Heap) (t : Tree)
        (list index item : Value) → IsWell bases classes k heap → HasType bases k (ListOf t) list
        → HasType bases k Int index → HasType bases k t item
        → ActsWell bases classes k NoneType (store_outcome heap (seen heap list) (seen heap index) index item) }
{}

/// The law that a value of either of two types is of their join, for any two types.
pub fn joins_keep_values()
    ensures { (bases : Bases) → AreSmaller bases → (k : HeapTyping) (s t u : Tree) → join bases s t ≡ Some u
        → (v : Value) → HasType bases k s v ⊎ HasType bases k t v → HasType bases k u v }
{}

/// The law that no flow is dynamic without need: if a type without `Never` is not static to another, both in normal
/// form, then some well-typed heap of the classes has a value of the first type that is not of the second. The same
/// holds for the classes of each module that tokens spell. If a type flows dynamically into another in the module, the
/// heap has instances of the module's classes only. Nothing is claimed of the heaps that its runs can reach.
pub fn dynamic_flows_are_needed()
    ensures classes { (bases : Bases) → AreSmaller bases → (classes : List ClassFacts) → FieldsHaveNoNever classes
        → (s t : Tree) → IsNormal s → IsNormal t → HasNoNever s → ¬ (Static bases s t)
        → IsNeeded bases classes s t }
    ensures modules { (m : Module) (ts : List Lexeme) → SpellsModule m ts
        → (s t : Tree) → IsNormal s → IsNormal t → HasNoNever s → ¬ (Static (bases_of m) s t)
        → IsNeeded (bases_of m) (classes_of m) s t }
    ensures flows { (m : Module) (ts : List Lexeme) → SpellsModule m ts → (p : Place) (s t : Tree)
        → FlowsDynamically m p s t → HasNoNever s → IsNeededWithin (bases_of m) (classes_of m) s t }
{}

/// The law that the type read from an annotation of a text contains no `Never`, and neither does any field's type in
/// the classes of a module that tokens spell.
pub fn annotations_have_no_never()
    ensures annotation { (m : Module) (bases : Bases) (a : Ann) (ts : List Lexeme) → Annotation a ts
        → HasNoNever (read_ann m bases a) }
    ensures fields { (m : Module) (ts : List Lexeme) → SpellsModule m ts → FieldsHaveNoNever (classes_of m) }
{}

/// The law that a run that ends in a fault has evaluated a listed dynamic place by then, if no finding of its module is
/// an error.
pub fn soundness()
    ensures { Sound }
{}

/// The law that a run that ends in a fault has evaluated the place of a finding by then, an error or a dynamic place,
/// if no finding of its module is silent.
pub fn soundness_beside_errors()
    ensures { SoundBesideErrors }
{}
