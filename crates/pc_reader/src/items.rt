//! Parts of brackets, with commas between.
ghost use Rattle.std.specs.Prelude.{◌≡◌, ◌+◌, ◌≤◌, ℕ, MatchResult, min, max};
ghost use Rattle.pc_source.specs.declared.fault.Fault.TheVariants as fault;
ghost use Rattle.pc_tree.specs.Tree.{Exprs, Entries as EntryTrees, Keywords as KeywordTrees, tuple as tuple_tree};
ghost use Rattle.pc_tree.specs.Tree.{list as list_tree, dict as dict_tree, call as call_tree, no_exprs, no_entries};
ghost use Rattle.pc_tree.specs.Tree.{no_keywords, name_of};
ghost use Rattle.pc_grammar.specs.Machine.Finishing.{add_expr, add_entry, add_keyword};
ghost use Rattle.pc_grammar.specs.Machine.States.{Part};
ghost use Rattle.pc_reader.specs.Internal.Operands.{KeepsPart, Builds};
ghost use Rattle.pc_reader.specs.Internal.Brackets.{KeepsItems, KeepsEntries, KeepsKeywords};

use crate::operand::{Operand, deeper, depth_above, kept, node};
use pc_source::{Fault, Place};
use pc_tree::{Entry, Expr, KeywordArgument, Name, put_last};
use std::alloc::Global;

/// Expressions, and the depth of a node over them, 65 if deeper than 64.
#[derive(Drop)]
pub(crate) struct Items {
    pub exprs: Vec<Expr>,
    pub depth: u8,
}

/// The keys and values of a dict display, and the depth of a node over them, 65 if deeper than 64.
#[derive(Drop)]
pub(crate) struct Entries {
    pub entries: Vec<Entry>,
    pub depth: u8,
}

/// Arguments by name, and the depth of a node over them, 65 if deeper than 64.
#[derive(Drop)]
pub(crate) struct Keywords {
    pub arguments: Vec<KeywordArgument>,
    pub depth: u8,
}

/// Items and the byte where their closing bracket ends.
#[derive(Drop)]
pub(crate) struct Listed {
    pub items: Items,
    pub end: usize,
}

/// Arguments by name and the byte where the closing parenthesis ends.
#[derive(Drop)]
pub(crate) struct Arguments {
    pub keywords: Keywords,
    pub end: usize,
}

/// The arguments of a call, positional ones and those by name, and the byte where its closing parenthesis ends.
#[derive(Drop)]
pub(crate) struct CallArguments {
    pub items: Items,
    pub keywords: Keywords,
    pub end: usize,
}

impl Items {
    /// Creates an empty list.
    pub(crate) fn new(alloc: Global) -> Items
        ensures { KeepsItems result no_exprs }
    {
        Items {
            exprs: Vec::new(alloc),
            depth: 0,
        }
    }

    /// Appends an expression.
    pub(crate) fn push(&mut self, item: Operand) -> Result<(), Fault>
        requires { item.depth ≤ 65 }
        ensures { MatchResult result
            (λ _. (es : Exprs) (p : Part) → KeepsItems self.old es → KeepsPart item p
            → KeepsItems self.new (add_expr es p.tree)) (λ e. e ≡ fault.OutOfMemory) }
    {
        self.depth = deeper(self.depth, depth_above(item.depth));
        put_last(&mut self.exprs, item.expr)?;
        Ok(())
    }
}

impl Entries {
    /// Creates an empty list.
    pub(crate) fn new(alloc: Global) -> Entries
        ensures { KeepsEntries result no_entries }
    {
        Entries {
            entries: Vec::new(alloc),
            depth: 0,
        }
    }

    /// Appends a key and its value.
    pub(crate) fn push(&mut self, key: Operand, value: Operand) -> Result<(), Fault>
        requires key { key.depth ≤ 65 }
        requires value { value.depth ≤ 65 }
        ensures { MatchResult result
            (λ _. (es : EntryTrees) (k v : Part) → KeepsEntries self.old es → KeepsPart key k → KeepsPart value v
            → KeepsEntries self.new (add_entry es k.tree v.tree)) (λ e. e ≡ fault.OutOfMemory) }
    {
        self.depth = deeper(self.depth, depth_above(deeper(key.depth, value.depth)));
        put_last(
            &mut self.entries,
            Entry {
                key: key.expr,
                value: value.expr,
            },
        )?;
        Ok(())
    }
}

impl Keywords {
    /// Creates an empty list.
    pub(crate) fn new(alloc: Global) -> Keywords
        ensures { KeepsKeywords result no_keywords }
    {
        Keywords {
            arguments: Vec::new(alloc),
            depth: 0,
        }
    }

    /// Appends an argument by name.
    pub(crate) fn push(&mut self, name: Name, value: Operand) -> Result<(), Fault>
        requires { value.depth ≤ 65 }
        ensures { MatchResult result
            (λ _. (ks : KeywordTrees) (v : Part) → KeepsKeywords self.old ks → KeepsPart value v
            → KeepsKeywords self.new (add_keyword ks (name_of name) v.tree)) (λ e. e ≡ fault.OutOfMemory) }
    {
        self.depth = deeper(self.depth, depth_above(value.depth));
        put_last(
            &mut self.arguments,
            KeywordArgument {
                name,
                value: value.expr,
            },
        )?;
        Ok(())
    }
}

/// Returns a list display of these items, as an operand from byte `start` to byte `end`.
pub(crate) fn list(alloc: Global, items: Items, start: usize, end: usize) -> Operand
    ensures { (result.level ≡ 7)
        × ((es : Exprs) → KeepsItems items es → Builds result (λ q. list_tree q es) start end) }
{
    let place = Place { start, end };
    if items.depth > 64 {
        return node(Expr::List(place, Vec::new(alloc)), place, 7, items.depth);
    }
    node(Expr::List(place, items.exprs), place, 7, items.depth)
}

/// Returns a tuple of these items, as an operand from byte `start` to byte `end`.
pub(crate) fn tuple(alloc: Global, items: Items, start: usize, end: usize) -> Operand
    ensures { (result.level ≡ 7)
        × ((es : Exprs) → KeepsItems items es → Builds result (λ q. tuple_tree q es) start end) }
{
    let place = Place { start, end };
    if items.depth > 64 {
        return node(Expr::Tuple(place, Vec::new(alloc)), place, 7, items.depth);
    }
    node(Expr::Tuple(place, items.exprs), place, 7, items.depth)
}

/// Returns a dict display of these entries, as an operand from byte `start` to byte `end`.
pub(crate) fn dict(alloc: Global, entries: Entries, start: usize, end: usize) -> Operand
    ensures { (result.level ≡ 7)
        × ((es : EntryTrees) → KeepsEntries entries es → Builds result (λ q. dict_tree q es) start end) }
{
    let place = Place { start, end };
    if entries.depth > 64 {
        return node(Expr::Dict(place, Vec::new(alloc)), place, 7, entries.depth);
    }
    node(Expr::Dict(place, entries.entries), place, 7, entries.depth)
}

/// Returns a call with these arguments, as an operand that ends at byte `end`.
pub(crate) fn called(
    alloc: Global,
    callee: Operand,
    items: Items,
    keywords: Keywords,
    end: usize,
) -> Result<Operand, Fault>
    requires { callee.depth ≤ 65 }
    ensures { MatchResult result
        (λ o. (o.level ≡ 7) × ((p : Part) (es : Exprs) (ks : KeywordTrees) → KeepsPart callee p → KeepsItems items es
        → KeepsKeywords keywords ks → Builds o (λ q. call_tree q p.tree es ks) callee.start end))
        (λ e. e ≡ fault.OutOfMemory) }
{
    let place = Place {
        start: callee.start,
        end,
    };
    let depth = deeper(
        depth_above(callee.depth),
        deeper(items.depth, keywords.depth),
    );
    let inner = Box::new(alloc, kept(depth, callee.expr, place))?;
    if depth > 64 {
        return Ok(node(
            Expr::Call {
                place,
                callee: inner,
                arguments: Vec::new(alloc),
                keywords: Vec::new(alloc),
            },
            place,
            7,
            depth,
        ));
    }
    Ok(node(
        Expr::Call {
            place,
            callee: inner,
            arguments: items.exprs,
            keywords: keywords.arguments,
        },
        place,
        7,
        depth,
    ))
}
