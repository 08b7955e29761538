//! Methods and built-in methods by their names.

ghost use Rattle.std.specs.Prelude.{◌≡◌, ◌<◌, ◌-◌, [], map};
ghost use Rattle.pc_tree.specs.Tree.{expr_of};
ghost use Rattle.pc_value.specs.Meaning.{value_of, heap_of};
ghost use Rattle.pc_value.specs.Value.{is_true, seen, a_list, a_dict, class_number_of};
ghost use Rattle.pc_machine.specs.Plain.{comes};
ghost use Rattle.pc_machine.specs.Calls.{method_of, method_among, builtin_method_of, class_at, callee_of_meaning};
ghost use Rattle.pc_machine.specs.Calls.{instance_test_of, test_of_reserved, passes, is_ancestor, descends_from};
ghost use Rattle.pc_machine.specs.Names.{meaning_in_run};
ghost use Rattle.pc_machine.specs.Machine.{TellsProgress, TellsOutcome, found_method, found_class, found_builtin};
ghost use Rattle.pc_machine.specs.Machine.{test_seen, progress_of, state_of, callee_seen, method_of_def};

use crate::halt::{Halt, Stop};
use crate::machine::{Machine, raised};
use crate::names::is_same;
use crate::state::{BuiltinMethod, Callee, Class, InstanceTest, Meaning};
use pc_tree::{Expr, FuncDef, Name};
use pc_value::{Exception, Seen, Value, see};
use std::alloc::Global;

/// Returns the first method with a name, or `None` if there is none.
fn method_named<'m>(methods: &[&'m FuncDef], name: &str) -> Option<&'m FuncDef>
    ensures { found_method result ≡ method_among name.now (map method_of_def methods.now) }
{
    for method in methods {
        if is_same(method.name.text.as_str(), name) {
            return Some(*method);
        }
    }
    None
}

/// Returns the built-in method of lists with a name, or `None` if there is none.
fn list_method(name: &str) -> Option<BuiltinMethod>
    ensures { found_builtin result ≡ builtin_method_of (a_list 0 []) name.now }
{
    if is_same(name, "append") {
        Some(BuiltinMethod::ListAppend)
    } else if is_same(name, "pop") {
        Some(BuiltinMethod::ListPop)
    } else {
        None
    }
}

/// Returns the built-in method of dicts with a name, or `None` if there is none.
fn dict_method(name: &str) -> Option<BuiltinMethod>
    ensures { found_builtin result ≡ builtin_method_of (a_dict 0 []) name.now }
{
    if is_same(name, "get") {
        Some(BuiltinMethod::DictGet)
    } else {
        None
    }
}

/// Returns the test of `isinstance` for a reserved name; names other than `int`, `str`, `bool` and `list` are out of
/// the profile.
fn reserved_test(name: &str) -> Result<InstanceTest, Halt>
    ensures { TellsOutcome test_seen result (test_of_reserved name.now) }
{
    if is_same(name, "int") {
        Ok(InstanceTest::Int)
    } else if is_same(name, "str") {
        Ok(InstanceTest::Str)
    } else if is_same(name, "bool") {
        Ok(InstanceTest::Bool)
    } else if is_same(name, "list") {
        Ok(InstanceTest::List)
    } else {
        Err(Halt::Stopped(Stop::Outside))
    }
}

/// Returns whether a class is among `ancestors`, the numbers of another class and its ancestors.
fn is_ancestor(class: usize, ancestors: &[usize]) -> bool
    ensures { result ≡ is_ancestor class ancestors.now }
{
    for ancestor in ancestors {
        if *ancestor == class {
            return true;
        }
    }
    false
}

impl<'m> Machine<'m> {
    /// Returns the class of an instance, or `None` for any other value.
    fn class_of(&self, object: &Value) -> Option<&Class<'m>>
        ensures { found_class result
            ≡ class_at (state_of self.now).classes (class_number_of (heap_of self.now.heap) (value_of object.now)) }
    {
        match see(&self.heap, object) {
            Seen::Number(_) => None,
            Seen::Text(_) => None,
            Seen::Nothing => None,
            Seen::Tuple(_) => None,
            Seen::List(_, _) => None,
            Seen::Dict(_, _) => None,
            Seen::Instance(_, class, _) => self.classes.get(class),
            Seen::Stray => None,
        }
    }

    /// Returns the method with a name in an object's class, or `None` if it has none.
    pub(crate) fn find_method(&self, object: &Value, name: &str) -> Option<&'m FuncDef>
        ensures { found_method result ≡ method_of (state_of self.now) (value_of object.now) name.now }
    {
        match self.class_of(object) {
            Some(class) => method_named(&class.methods, name),
            None => None,
        }
    }

    /// Returns the built-in method with a name of a list or dict, or `None` if it has none.
    pub(crate) fn find_builtin_method(&self, object: &Value, name: &str) -> Option<BuiltinMethod>
        ensures { found_builtin result
            ≡ builtin_method_of (seen (heap_of self.now.heap) (value_of object.now)) name.now }
    {
        match see(&self.heap, object) {
            Seen::Number(_) => None,
            Seen::Text(_) => None,
            Seen::Nothing => None,
            Seen::Tuple(_) => None,
            Seen::List(_, _) => list_method(name),
            Seen::Dict(_, _) => dict_method(name),
            Seen::Instance(_, _, _) => None,
            Seen::Stray => None,
        }
    }

    /// Returns the meaning of a name as a callee; UnboundLocalError or NameError if it has none.
    /// Language Reference 6.3.4 "Calls".
    pub fn look_up_callee(&self, alloc: Global, name: &'m str) -> Result<Callee<'m>, Halt>
        ensures { TellsProgress callee_seen result self.now
            (comes (callee_of_meaning name.now (meaning_in_run name.now (state_of self.now))) (progress_of self.now)) }
    {
        match self.meaning(name) {
            Meaning::Value(value) => Ok(Callee::Value(value.copy(alloc)?)),
            Meaning::Unbound => Err(raised(Exception::UnboundLocalError)),
            Meaning::Function(def) => Ok(Callee::Function(def)),
            Meaning::Class(class) => Ok(Callee::Class(class)),
            Meaning::Reserved => Ok(Callee::Reserved(name)),
            Meaning::Nothing => Err(raised(Exception::NameError)),
        }
    }

    /// Returns the test that the second argument of `isinstance` names; anything else is out of the profile.
    pub(crate) fn test_of(&self, e: &Expr) -> Result<InstanceTest, Halt>
        ensures { TellsOutcome test_seen result (instance_test_of (expr_of e.now) (state_of self.now)) }
    {
        let Expr::Name(name) = e else {
            return Err(Halt::Stopped(Stop::Outside));
        };
        match self.meaning(name.text.as_str()) {
            Meaning::Value(_) => Err(Halt::Stopped(Stop::Outside)),
            Meaning::Unbound => Err(Halt::Stopped(Stop::Outside)),
            Meaning::Function(_) => Err(Halt::Stopped(Stop::Outside)),
            Meaning::Class(class) => Ok(InstanceTest::Class(class)),
            Meaning::Reserved => reserved_test(name.text.as_str()),
            Meaning::Nothing => Err(Halt::Stopped(Stop::Outside)),
        }
    }

    /// Returns whether an object is an instance of a class or of a descendant of it.
    fn is_instance(&self, object: &Value, class: usize) -> bool
        ensures { result ≡ descends_from class
            (class_at (state_of self.now).classes (class_number_of (heap_of self.now.heap) (value_of object.now))) }
    {
        match self.class_of(object) {
            Some(made) => is_ancestor(class, &made.ancestors),
            None => false,
        }
    }

    /// Returns whether a value passes a test of `isinstance`; bool counts as int.
    pub(crate) fn passes(&self, object: &Value, test: InstanceTest) -> bool
        ensures { result ≡ passes (state_of self.now) (value_of object.now) (test_seen test) }
    {
        match test {
            InstanceTest::Int => match object {
                Value::Int(_) => true,
                Value::Bool(_) => true,
                Value::Str(_) => false,
                Value::None => false,
                Value::Tuple(_) => false,
                Value::Location(_) => false,
            },
            InstanceTest::Bool => match object {
                Value::Int(_) => false,
                Value::Bool(_) => true,
                Value::Str(_) => false,
                Value::None => false,
                Value::Tuple(_) => false,
                Value::Location(_) => false,
            },
            InstanceTest::Str => match object {
                Value::Int(_) => false,
                Value::Bool(_) => false,
                Value::Str(_) => true,
                Value::None => false,
                Value::Tuple(_) => false,
                Value::Location(_) => false,
            },
            InstanceTest::List => self.heap.is_list(object),
            InstanceTest::Class(class) => self.is_instance(object, class),
        }
    }

    /// Returns the truth of a value. Language Reference 6.11 "Boolean operations".
    pub fn is_true(&self, value: &Value) -> bool
        ensures { result ≡ is_true (heap_of self.now.heap) (value_of value.now) }
    {
        self.heap.is_true(value)
    }
}
