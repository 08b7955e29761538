//! The machine's work at a node: calls, actions, stores. These functions stay out of those that evaluate
//! (`inline(never)`), whose stack frames pile up in the deepest runs.

ghost use Rattle.std.specs.Prelude.{◌≡◌, ◌≤◌, ◌<◌, ◌-◌, [], ℕ, map, OnOk, IfOk, chars, is_some, nat_eq, Some};
ghost use Rattle.pc_tree.specs.Tree.{expr_of, stmts_of_list, name_of};
ghost use Rattle.pc_value.specs.Meaning.{value_of};
ghost use Rattle.pc_value.specs.Doing.{iteration_of};
ghost use Rattle.pc_value.specs.Numbers.{number_of_digits};
ghost use Rattle.pc_value.specs.Actions as action;
ghost use Rattle.pc_value.specs.Value.{string};
ghost use Rattle.pc_machine.specs.Plain.{Came, after_event, act, call_limit};
ghost use Rattle.pc_machine.specs.Names.{frame_of};
ghost use Rattle.pc_machine.specs.Steps.{value_out};
ghost use Rattle.pc_machine.specs.Calls.{method_of, class_at, bound_arguments};
ghost use Rattle.pc_machine.specs.Evaluation.{fields_of};
ghost use Rattle.pc_machine.specs.Performed.{callee_in, callee_called, attribute_callee, instance_tested};
ghost use Rattle.pc_machine.specs.Performed.{attribute_stored, item_stored, range_begun, empty_charged, opened_frame};
ghost use Rattle.pc_machine.specs.Performed.{entered_unless};
ghost use Rattle.pc_machine.specs.Machine.{TellsProgress, unit};
ghost use Rattle.pc_machine.specs.Machine.{progress_of, state_of, flow_of, named_of, value_if_any, callee_seen};
ghost use Rattle.pc_machine.specs.Machine.{frame_of_vec, method_of_def, with_object, local_of, locals_of};
ghost use Rattle.pc_tree.specs.Tree.{name as name_node};
ghost use Rattle.pc_machine.specs.Calls.{calls_class, calls_reserved};
ghost use Rattle.pc_machine.specs.declared.state.Callee.TheVariants as callee;

use crate::calls::{
    attribute_read, attribute_store, bound_arguments, builtin_action, characters, frame_of,
    owned_text, slots_of, suited_arguments,
};
use crate::halt::{Halt, Stop};
use crate::machine::{Machine, raised};
use crate::names::is_same;
use crate::state::{BuiltinMethod, Callee, Completion, Local, NamedValue};
use pc_source::{OutOfMemory, Place};
use pc_tree::{Expr, FuncDef, Name, Stmt};
use pc_value::{Action, Exception, Iteration, Value};
use std::alloc::Global;
use std::mem;

impl<'m> Machine<'m> {
    /// Evaluates a whole number as written. Language Reference 2.4.5 "Integer literals".
    #[inline(never)]
    pub fn number(&mut self, alloc: Global, place: Place, digits: &str) -> Result<Value, Halt>
        ensures plain { TellsProgress value_of result self.new
            (act value_out (action.number (number_of_digits digits.now)) (after_event place (progress_of self.old))) }
        ensures fuel { self.new.fuel ≤ self.old.fuel }
    {
        let digits = owned_text(alloc, digits)?;
        self.perform(alloc, place, Action::Number(false, digits))
    }

    /// Evaluates a text literal. Language Reference 2.4.1 "String and Bytes literals".
    #[inline(never)]
    pub fn text(&mut self, alloc: Global, place: Place, text: &str) -> Result<Value, Halt>
        ensures plain { TellsProgress value_of result self.new
            (Came (string (chars text.now)) (after_event place (progress_of self.old))) }
        ensures fuel { self.new.fuel ≤ self.old.fuel }
    {
        let characters = characters(alloc, text)?;
        self.give(place, Value::Str(characters))
    }

    /// Reads an attribute of an object. Language Reference 6.3.1 "Attribute references".
    #[inline(never)]
    pub fn read_attribute(
        &mut self,
        alloc: Global,
        place: Place,
        object: Value,
        name: &str,
    ) -> Result<Value, Halt>
        ensures plain { TellsProgress value_of result self.new
            (act value_out (action.read_attribute (value_of object) name.now
            (is_some (method_of (state_of self.old) (value_of object) name.now)))
            (after_event place (progress_of self.old))) }
        ensures fuel { self.new.fuel ≤ self.old.fuel }
    {
        let is_method = self.find_method(&object, name).is_some();
        let action = attribute_read(alloc, object, name, is_method)?;
        self.perform(alloc, place, action)
    }

    /// Looks up a name as a callee: its charge, its event, then its meaning. Language Reference 6.3.4 "Calls".
    #[inline(never)]
    pub fn callee_of_name(&mut self, alloc: Global, name: &'m Name) -> Result<Callee<'m>, Halt>
        ensures plain { (n : ℕ) → TellsProgress callee_seen result self.new
            (callee_in n (name_node (name_of name.now)) (progress_of self.old)) }
        ensures fuel { self.new.fuel ≤ self.old.fuel }
    {
        self.charge()?;
        self.emit(name.place)?;
        self.look_up_callee(alloc, name.text.as_str())
    }

    /// Looks up an attribute as a callee: a method, a built-in method, or else the value of reading it.
    /// Language Reference 6.3.1 "Attribute references", 6.3.4 "Calls".
    #[inline(never)]
    pub fn callee_of_attribute(
        &mut self,
        alloc: Global,
        place: Place,
        object: Value,
        name: &str,
    ) -> Result<Callee<'m>, Halt>
        ensures plain { TellsProgress callee_seen result self.new
            (attribute_callee (value_of object) name.now (after_event place (progress_of self.old))) }
        ensures fuel { self.new.fuel ≤ self.old.fuel }
    {
        if let Err(error) = self.emit(place) {
            drop(object);
            return Err(Halt::OutOfMemory(error));
        }
        if let Some(method) = self.find_method(&object, name) {
            return Ok(Callee::Method(object, method));
        }
        if let Some(method) = self.find_builtin_method(&object, name) {
            return Ok(Callee::BuiltinMethod(object, method));
        }
        let action = attribute_read(alloc, object, name, false)?;
        let field = self.act_value(alloc, action)?;
        Ok(Callee::Value(field))
    }

    /// Evaluates `isinstance` on an object and an unevaluated test. Library Reference, "Built-in Functions".
    #[inline(never)]
    pub fn test_instance(
        &mut self,
        place: Place,
        object: &Value,
        test: &Expr,
    ) -> Result<Value, Halt>
        ensures plain { TellsProgress value_of result self.new
            (instance_tested (value_of object.now) (expr_of test.now) (after_event place (progress_of self.old))) }
        ensures fuel { self.new.fuel ≤ self.old.fuel }
    {
        self.emit(place)?;
        let test = self.test_of(test)?;
        Ok(Value::Bool(self.passes(object, test)))
    }

    /// Calls a class: makes an instance whose fields have the values of the arguments.
    /// Language Reference 6.3.4 "Calls".
    #[inline(never)]
    pub fn make_instance(
        &mut self,
        alloc: Global,
        class: usize,
        values: &[Value],
        named: &[NamedValue<'m>],
    ) -> Result<Value, Halt>
        ensures plain { (n : ℕ) → TellsProgress value_of result self.new
            (callee_called n (calls_class class) (map value_of values.now) (map named_of named.now)
            (progress_of self.old)) }
        ensures fuel { self.new.fuel ≤ self.old.fuel }
    {
        match self.bound_fields(alloc, class, values, named)? {
            Some(fields) => {
                let slots = slots_of(alloc, &fields)?;
                self.act_value(alloc, Action::NewInstance(class, slots))
            }
            None => Err(raised(Exception::TypeError)),
        }
    }

    /// Binds the arguments of a call to the fields of the class with a number. `None` if they do not match.
    fn bound_fields(
        &self,
        alloc: Global,
        class: usize,
        values: &[Value],
        named: &[NamedValue<'m>],
    ) -> Result<Option<Vec<Local<'m>>>, OutOfMemory>
        ensures { IfOk result (λ o. locals_of o
            ≡ bound_arguments (fields_of (class_at (state_of self.now).classes (Some class))) (map value_of values.now)
            (map named_of named.now)) }
    {
        match self.classes.get(class) {
            Some(made) => bound_arguments(alloc, self.keys, &made.fields, values, named),
            None => bound_arguments(alloc, self.keys, &[], values, named),
        }
    }

    /// Calls a reserved name with its evaluated arguments.
    /// Library Reference, "Built-in Functions"; own rule of the profile.
    #[inline(never)]
    pub fn call_reserved(
        &mut self,
        alloc: Global,
        name: &str,
        values: &[Value],
        named: &[NamedValue<'m>],
    ) -> Result<Value, Halt>
        ensures plain { (n : ℕ) → TellsProgress value_of result self.new
            (callee_called n (calls_reserved name.now) (map value_of values.now) (map named_of named.now)
            (progress_of self.old)) }
        ensures fuel { self.new.fuel ≤ self.old.fuel }
    {
        if !named.is_empty() {
            return Err(Halt::Stopped(Stop::Outside));
        }
        if is_same(name, "print") {
            return Ok(Value::None);
        }
        if is_same(name, "len") {
            return match values {
                [operand] => self.act_value(alloc, Action::Length(operand.copy(alloc)?)),
                _ => Err(raised(Exception::TypeError)),
            };
        }
        if is_same(name, "str") {
            return match values {
                [operand] => self.act_value(alloc, Action::Text(operand.copy(alloc)?)),
                _ => Err(Halt::Stopped(Stop::Outside)),
            };
        }
        if is_same(name, "isinstance") {
            return Err(raised(Exception::TypeError));
        }
        Err(Halt::Stopped(Stop::Outside))
    }

    /// Calls a built-in method with its evaluated arguments.
    /// Library Reference, "Mutable Sequence Types" and "Mapping Types".
    #[inline(never)]
    pub fn call_builtin_method(
        &mut self,
        alloc: Global,
        object: Value,
        method: BuiltinMethod,
        values: &[Value],
        named: &[NamedValue<'m>],
    ) -> Result<Value, Halt>
        ensures plain { (n : ℕ) → TellsProgress value_of result self.new
            (callee_called n (callee_seen (callee.BuiltinMethod object method)) (map value_of values.now)
            (map named_of named.now) (progress_of self.old)) }
        ensures fuel { self.new.fuel ≤ self.old.fuel }
    {
        let action = builtin_action(alloc, object, method, values, named)?;
        self.act_value(alloc, action)
    }

    /// Enters a function or method and returns the caller's frame. TypeError if the arguments do not match; cut off if
    /// 64 calls are open.
    /// Language Reference 6.3.4 "Calls"; own rule of the profile.
    #[inline(never)]
    pub fn open(
        &mut self,
        alloc: Global,
        def: &'m FuncDef,
        object: Option<Value>,
        values: &[Value],
        named: &[NamedValue<'m>],
    ) -> Result<Vec<Local<'m>>, Halt>
        ensures plain { TellsProgress frame_of_vec result self.new
            (opened_frame (method_of_def def.entry) (value_if_any object) (map value_of values.now)
            (map named_of named.now) (progress_of self.old)) }
        ensures fuel { self.new.fuel ≤ self.old.fuel }
    {
        let arguments = match suited_arguments(alloc, self.keys, def, values, named) {
            Ok(arguments) => arguments,
            Err(halt) => {
                drop(object);
                return Err(halt);
            }
        };
        match object {
            None => self.open_frame(alloc, def, None, arguments),
            Some(object) => {
                let caller = self.open_frame(alloc, def, Some(object), arguments)?;
                self.emit(def.name.place)?;
                Ok(caller)
            }
        }
    }

    /// Enters the frame of a call whose arguments match its parameters and returns the caller's frame. Cut off if 64
    /// calls are open.
    /// Language Reference 6.3.4 "Calls"; own rule of the profile.
    fn open_frame(
        &mut self,
        alloc: Global,
        def: &'m FuncDef,
        object: Option<Value>,
        arguments: Vec<Local<'m>>,
    ) -> Result<Vec<Local<'m>>, Halt>
        ensures plain { TellsProgress frame_of_vec result self.new
            (entered_unless (nat_eq self.old.depth.calls call_limit)
            (frame_of (method_of_def def.entry) (with_object (value_if_any object) (map local_of arguments.entry.items)))
            (progress_of self.old)) }
        ensures fuel { self.new.fuel ≤ self.old.fuel }
    {
        // After the arguments: if they do not match, that is a TypeError at any depth.
        let Some(depth) = self.depth.deeper() else {
            drop(object);
            return Err(Halt::Stopped(Stop::Cut));
        };
        let frame = frame_of(alloc, object, arguments, def)?;
        let caller = mem::replace(&mut self.frame, frame);
        self.depth = depth;
        Ok(caller)
    }

    /// Charges for the suite of a loop if it is empty. Own rule of the profile.
    #[inline(never)]
    pub fn charge_empty(&mut self, body: &[Stmt]) -> Result<(), Halt>
        ensures plain { TellsProgress unit result self.new
            (empty_charged (stmts_of_list body.now) (progress_of self.old)) }
        ensures fuel { self.new.fuel ≤ self.old.fuel }
        ensures spent { OnOk result (body.now ≡ [] → self.new.fuel < self.old.fuel) }
    {
        match body {
            [] => self.charge(),
            [_, ..] => Ok(()),
        }
    }

    /// Stores a value to an attribute. Language Reference 7.2 "Assignment statements".
    #[inline(never)]
    pub fn store_attribute(
        &mut self,
        alloc: Global,
        place: Place,
        object: Value,
        name: &str,
        value: Value,
    ) -> Result<Completion, Halt>
        ensures plain { TellsProgress flow_of result self.new
            (attribute_stored (value_of object) name.now (value_of value) (after_event place (progress_of self.old))) }
        ensures fuel { self.new.fuel ≤ self.old.fuel }
    {
        let action = attribute_store(alloc, object, name, value)?;
        self.perform(alloc, place, action)?;
        Ok(Completion::Next)
    }

    /// Stores a value to an item. Language Reference 7.2 "Assignment statements".
    #[inline(never)]
    pub fn store_item(
        &mut self,
        alloc: Global,
        place: Place,
        object: Value,
        key: Value,
        value: Value,
    ) -> Result<Completion, Halt>
        ensures plain { TellsProgress flow_of result self.new
            (item_stored (value_of object) (value_of key) (value_of value) (after_event place (progress_of self.old))) }
        ensures fuel { self.new.fuel ≤ self.old.fuel }
    {
        self.perform(alloc, place, Action::StoreItem(object, key, value))?;
        Ok(Completion::Next)
    }

    /// Returns the source of items of a `for` over `range(..)`, given its evaluated arguments; any but one by position
    /// is out of the profile.
    /// Language Reference 8.3 "The for statement".
    #[inline(never)]
    pub fn iterate_range(
        &mut self,
        alloc: Global,
        place: Place,
        values: Vec<Value>,
        named: &[NamedValue<'m>],
    ) -> Result<Iteration, Halt>
        ensures plain { TellsProgress iteration_of result self.new
            (range_begun (map value_of values.items) (map named_of named.now)
            (after_event place (progress_of self.old))) }
        ensures fuel { self.new.fuel ≤ self.old.fuel }
    {
        self.emit(place)?;
        match (values.as_slice(), named) {
            ([limit], []) => {
                let limit = limit.copy(alloc)?;
                self.act_iteration(alloc, Action::IterateRange(limit))
            }
            _ => Err(Halt::Stopped(Stop::Outside)),
        }
    }
}
