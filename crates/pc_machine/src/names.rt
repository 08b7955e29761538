//! Names at run time.

ghost use Rattle.std.specs.Prelude.{◌≡◌, ◌++◌, ◌∷◌, [], map, OnOk};
ghost use Rattle.std.specs.Option.{option_to_list};
ghost use Rattle.pc_tree.specs.Tree.{stmts_of_list, stmt_of_kind};
ghost use Rattle.pc_source.specs.declared.place.Place.{Place as PlaceOf};
ghost use Rattle.pc_value.specs.Meaning.{value_of};
ghost use Rattle.pc_value.specs.Texts.{same_text};
ghost use Rattle.pc_machine.specs.Names.{unbound, names_bound, names_bound_by, names_bound_in};
ghost use Rattle.pc_machine.specs.Names.{local_by_name, with_local};
ghost use Rattle.pc_machine.specs.Machine.{local_of as local_seen, found_local};
ghost use Rattle.pc_tree.specs.Lists.{branches_of_list, name_seen};

use crate::state::Local;
use pc_source::OutOfMemory;
use pc_tree::{Branch, Name, Stmt, StmtKind};
use pc_value::Value;

/// Returns whether two names are the same.
pub fn is_same(a: &str, b: &str) -> bool
    ensures { result ≡ same_text a.now b.now }
{
    a == b
}

/// Returns the local of a name, or `None` if the frame has none.
pub fn find_local<'a, 'm>(frame: &'a [Local<'m>], name: &str) -> Option<&'a Local<'m>>
    ensures { found_local result ≡ local_by_name name.now (map local_seen frame.now) }
{
    for local in frame {
        if is_same(local.name, name) {
            return Some(local);
        }
    }
    None
}

/// Binds a local to a value; does nothing if the frame has no local of that name.
pub fn set_local(frame: &mut [Local<'_>], name: &str, value: Value)
    ensures { map local_seen frame.new ≡ with_local name.now (value_of value) (map local_seen frame.old) }
{
    for i in 0..frame.len() {
        let local = &mut frame[i];
        if is_same(local.name, name) {
            local.value = Some(value);
            return;
        }
    }
    drop(value);
}

/// Adds an unbound local.
fn add_name<'m>(frame: &mut Vec<Local<'m>>, name: &'m str) -> Result<(), OutOfMemory>
    ensures { OnOk result (map local_seen frame.new.items
        ≡ map local_seen frame.old.items ++ map unbound (name.now ∷ [])) }
{
    frame.push(Local { name, value: None })?;
    Ok(())
}

/// Adds an unbound local for each name that the statements bind.
#[cycle(names)]
pub fn add_names<'m>(frame: &mut Vec<Local<'m>>, body: &'m [Stmt]) -> Result<(), OutOfMemory>
    ensures { OnOk result (map local_seen frame.new.items
        ≡ map local_seen frame.old.items ++ map unbound (names_bound (stmts_of_list body.now))) }
{
    for statement in body {
        add_names_of(frame, &statement.kind)?;
    }
    Ok(())
}

/// Adds an unbound local for each name that a statement binds, with those of its suites.
#[cycle(names)]
fn add_names_of<'m>(frame: &mut Vec<Local<'m>>, kind: &'m StmtKind) -> Result<(), OutOfMemory>
    ensures { (p : PlaceOf) → OnOk result
        (map local_seen frame.new.items
        ≡ map local_seen frame.old.items ++ map unbound (names_bound_by (stmt_of_kind p kind.now))) }
{
    add_own(frame, kind.own_name())?;
    let (branches, last) = kind.suites();
    add_names_in(frame, branches)?;
    add_names(frame, last)
}

/// Adds an unbound local for the name that a statement binds itself, if there is one.
fn add_own<'m>(frame: &mut Vec<Local<'m>>, own: Option<&'m Name>) -> Result<(), OutOfMemory>
    ensures { OnOk result (map local_seen frame.new.items
        ≡ map local_seen frame.old.items ++ map (λ n. unbound n.text) (map name_seen (option_to_list own.entry))) }
{
    match own {
        None => Ok(()),
        Some(name) => add_name(frame, name.text.as_str()),
    }
}

/// Adds an unbound local for each name that the suites after `if` and `elif` bind.
#[cycle(names)]
fn add_names_in<'m>(frame: &mut Vec<Local<'m>>, branches: &'m [Branch]) -> Result<(), OutOfMemory>
    ensures { OnOk result (map local_seen frame.new.items
        ≡ map local_seen frame.old.items ++ map unbound (names_bound_in (branches_of_list branches.now))) }
{
    for branch in branches {
        add_names(frame, &branch.body)?;
    }
    Ok(())
}
