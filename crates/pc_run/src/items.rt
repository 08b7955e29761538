//! The items of a module.

ghost use Rattle.std.specs.Prelude.{◌≡◌, ◌≤◌, ◌<◌, ◌++◌, ◌∷◌, ℕ, IfOk, OnOk, map, length, is_some};
ghost use Rattle.pc_tree.specs.Tree.{literal_of, option_literal_of, option_name_of, param_of, member_of};
ghost use Rattle.pc_tree.specs.Tree.{class_of as class_def_of, item_of, module_of};
ghost use Rattle.pc_value.specs.Meaning.{value_of};
ghost use Rattle.pc_machine.specs.Calls.{class_at};
ghost use Rattle.pc_machine.specs.Evaluation.{base_number, defaults_last, class_behind, fields_of, methods_of};
ghost use Rattle.pc_machine.specs.Evaluation.{ancestors_of, binds_global, binds_class};
ghost use Rattle.pc_run.specs.Internal.Items.{module_items_in, item_in, class_made, has_value, have_values, member_has_values};
ghost use Rattle.pc_run.specs.Internal.Items.{members_have_values, members_made, base_seen};
ghost use Rattle.pc_machine.specs.Machine.{TellsProgress, TellsOutcome, class_of, found_class, bound_of, parameter_of};
ghost use Rattle.pc_machine.specs.Machine.{method_of_def, literal_value, unit, progress_of, state_of};
ghost use Rattle.pc_machine.specs.Plain.{after_change};
ghost use Rattle.pc_machine.specs.Runs.{plain_module};

use crate::evaluate::eval;
use crate::running::enter_main;
use pc_machine::{Bound, Class, FormalParameter, Halt, Machine, Meaning, Stop, raised};
use pc_source::OutOfMemory;
use pc_tree::{
    ClassDef, FuncDef, Item, ItemKind, Literal, LiteralKind, Member, Module, Name, Param,
};
use pc_value::{Exception, Value, read_number};
use std::alloc::Global;

/// Returns whether a literal has a value: a whole number must fit 128 signed bits.
fn literal_has_value(literal: &Literal) -> bool
    ensures { result ≡ is_some (literal_value (literal_of literal.now)) }
{
    match &literal.kind {
        LiteralKind::Int(digits) => read_number(false, digits.as_bytes()).is_some(),
        LiteralKind::NegativeInt(digits) => read_number(true, digits.as_bytes()).is_some(),
        LiteralKind::Str(_) => true,
        LiteralKind::True => true,
        LiteralKind::False => true,
        LiteralKind::NoneValue => true,
    }
}

/// Returns whether a default has a value or is absent.
fn has_value(default: &Option<Literal>) -> bool
    ensures { result ≡ has_value (option_literal_of default.now) }
{
    match default {
        Some(literal) => literal_has_value(literal),
        None => true,
    }
}

/// Returns whether each default of a def has a value.
fn have_values(params: &[Param]) -> bool
    ensures { result ≡ have_values (map param_of params.now) }
{
    for param in params {
        if !has_value(&param.default) {
            return false;
        }
    }
    true
}

/// Returns whether each default of a member has a value.
fn member_has_values(member: &Member) -> bool
    ensures { result ≡ member_has_values (member_of member.now) }
{
    match member {
        Member::Field(field) => has_value(&field.default),
        Member::Method(def) => have_values(&def.params),
    }
}

/// Returns whether each default in a class has a value.
fn members_have_values(members: &[Member]) -> bool
    ensures { result ≡ members_have_values (map member_of members.now) }
{
    for member in members {
        if !member_has_values(member) {
            return false;
        }
    }
    true
}

/// Returns whether a field has a default with a value.
fn is_defaulted(field: &FormalParameter<'_>) -> bool
    ensures { result ≡ is_some (parameter_of field.now).default }
{
    match field.default {
        Some(literal) => literal_has_value(literal),
        None => false,
    }
}

/// Returns whether no field without default follows one with default.
fn defaults_last(fields: &[FormalParameter<'_>]) -> bool
    ensures { result ≡ defaults_last (map parameter_of fields.now) }
{
    let mut defaulted = false;
    for field in fields {
        if is_defaulted(field) {
            defaulted = true;
        } else if defaulted {
            return false;
        }
    }
    true
}

/// Returns the numbers of a class and its ancestors.
fn ancestors(
    alloc: Global,
    number: usize,
    base: Option<&Class<'_>>,
) -> Result<Vec<usize>, OutOfMemory>
    ensures { IfOk result (λ ns. ns.items ≡ number ∷ ancestors_of (found_class base.entry)) }
{
    let mut numbers = Vec::new(alloc);
    numbers.push(number)?;
    let Some(made) = base else {
        return Ok(numbers);
    };
    for ancestor in &made.ancestors {
        numbers.push(*ancestor)?;
    }
    Ok(numbers)
}

/// Returns the fields that a class inherits from its base.
fn inherited_fields<'m>(
    alloc: Global,
    base: Option<&Class<'m>>,
) -> Result<Vec<FormalParameter<'m>>, OutOfMemory>
    ensures { IfOk result (λ fs. map parameter_of fs.items ≡ fields_of (found_class base.entry)) }
{
    let mut fields = Vec::new(alloc);
    let Some(made) = base else {
        return Ok(fields);
    };
    for field in &made.fields {
        fields.push(*field)?;
    }
    Ok(fields)
}

/// Returns the fields of a class, inherited ones first.
fn fields<'m>(
    alloc: Global,
    base: Option<&Class<'m>>,
    members: &'m [Member],
) -> Result<Vec<FormalParameter<'m>>, OutOfMemory>
    ensures { IfOk result (λ fs. map parameter_of fs.items
        ≡ fields_of (found_class base.entry) ++ (members_made (map member_of members.now)).fields) }
{
    let mut fields = inherited_fields(alloc, base)?;
    for member in members {
        if let Member::Field(field) = member {
            fields.push(FormalParameter {
                name: field.name.text.as_str(),
                default: field.default.as_ref(),
            })?;
        }
    }
    Ok(fields)
}

/// Returns the methods that a class defines itself.
fn own_methods<'m>(alloc: Global, members: &'m [Member]) -> Result<Vec<&'m FuncDef>, OutOfMemory>
    ensures { IfOk result (λ fs. map method_of_def fs.items ≡ (members_made (map member_of members.now)).methods) }
{
    let mut methods = Vec::new(alloc);
    for member in members {
        if let Member::Method(def) = member {
            methods.push(def)?;
        }
    }
    Ok(methods)
}

/// Returns the methods of a class, followed by those of its base.
fn methods<'m>(
    alloc: Global,
    base: Option<&Class<'m>>,
    members: &'m [Member],
) -> Result<Vec<&'m FuncDef>, OutOfMemory>
    ensures { IfOk result (λ fs. map method_of_def fs.items
        ≡ (members_made (map member_of members.now)).methods ++ methods_of (found_class base.entry)) }
{
    let mut methods = own_methods(alloc, members)?;
    let Some(made) = base else {
        return Ok(methods);
    };
    for method in &made.methods {
        methods.push(*method)?;
    }
    Ok(methods)
}

/// Returns the number of the base of a class, if it names one. NameError if the name means nothing; any but a class is
/// out of the profile.
fn find_base<'m>(machine: &Machine<'m>, base: &Option<Name>) -> Result<Option<usize>, Halt>
    ensures { TellsOutcome base_seen result (base_number (option_name_of base.now) (state_of machine.now)) }
{
    let Some(name) = base else {
        return Ok(None);
    };
    match machine.meaning(name.text.as_str()) {
        Meaning::Value(_) => Err(Halt::Stopped(Stop::Outside)),
        Meaning::Unbound => Err(Halt::Stopped(Stop::Outside)),
        Meaning::Function(_) => Err(Halt::Stopped(Stop::Outside)),
        Meaning::Class(class) => Ok(Some(class)),
        Meaning::Reserved => Err(Halt::Stopped(Stop::Outside)),
        Meaning::Nothing => Err(raised(Exception::NameError)),
    }
}

/// Returns the next class to be made, given its base and members. Language Reference 8.8 "Class definitions".
fn class_behind<'m>(
    machine: &Machine<'m>,
    alloc: Global,
    base: Option<usize>,
    members: &'m [Member],
) -> Result<Class<'m>, OutOfMemory>
    ensures { IfOk result (λ c. class_of c
        ≡ class_behind (class_at (state_of machine.now).classes base) (members_made (map member_of members.now))
        (length (state_of machine.now).classes)) }
{
    let base = match base {
        Some(number) => machine.classes.get(number),
        None => None,
    };
    Ok(Class {
        ancestors: ancestors(alloc, machine.classes.len(), base)?,
        fields: fields(alloc, base, members)?,
        methods: methods(alloc, base, members)?,
    })
}

/// Binds a name of the module.
fn bind_global<'m>(
    machine: &mut Machine<'m>,
    name: &'m str,
    bound: Bound<'m>,
) -> Result<(), OutOfMemory>
    ensures plain { OnOk result
        (progress_of machine.new
        ≡ after_change (binds_global name.now (bound_of bound.entry)) (progress_of machine.old)) }
    ensures fuel { machine.new.fuel ≡ machine.old.fuel }
{
    machine.globals.bind(name, bound)
}

/// Adds a class and binds a name of the module to it.
fn bind_class<'m>(
    machine: &mut Machine<'m>,
    name: &'m str,
    class: Class<'m>,
) -> Result<(), OutOfMemory>
    ensures plain { OnOk result
        (progress_of machine.new
        ≡ after_change (binds_class name.now (class_of class.entry)) (progress_of machine.old)) }
    ensures fuel { machine.new.fuel ≡ machine.old.fuel }
{
    let number = machine.classes.len();
    machine.classes.push(class)?;
    bind_global(machine, name, Bound::Class(number))
}

/// Makes a class: `@dataclass`, the base, the defaults, the order of its fields.
fn make_class<'m>(
    machine: &mut Machine<'m>,
    alloc: Global,
    imports_dataclass: bool,
    class: &'m ClassDef,
) -> Result<(), Halt>
    ensures plain { TellsProgress unit result machine.new
        (class_made imports_dataclass (class_def_of class.now) (progress_of machine.old)) }
    ensures fuel { machine.new.fuel ≤ machine.old.fuel }
{
    if !imports_dataclass {
        return Err(raised(Exception::NameError));
    }
    let base = find_base(machine, &class.base)?;
    if !members_have_values(&class.members) {
        return Err(Halt::Stopped(Stop::Cut));
    }
    let made = class_behind(machine, alloc, base, &class.members)?;
    if !defaults_last(&made.fields) {
        return Err(raised(Exception::TypeError));
    }
    bind_class(machine, class.name.text.as_str(), made)?;
    Ok(())
}

/// Runs a constant, a class or a def.
fn run_item<'m>(
    machine: &mut Machine<'m>,
    alloc: Global,
    imports_dataclass: bool,
    item: &'m Item,
) -> Result<(), Halt>
    ensures plain { (n : ℕ) → machine.old.fuel < n
        → TellsProgress unit result machine.new
        (item_in n imports_dataclass (item_of item.now) (progress_of machine.old)) }
    ensures fuel { machine.new.fuel ≤ machine.old.fuel }
{
    match &item.kind {
        ItemKind::Constant(constant) => {
            machine.charge()?;
            let value = eval(machine, alloc, &constant.value)?;
            bind_global(machine, constant.name.text.as_str(), Bound::Value(value))?;
            Ok(())
        }
        ItemKind::Class(class) => make_class(machine, alloc, imports_dataclass, class),
        ItemKind::Def(def) => {
            if !have_values(&def.params) {
                return Err(Halt::Stopped(Stop::Cut));
            }
            bind_global(machine, def.name.text.as_str(), Bound::Function(def))?;
            Ok(())
        }
    }
}

/// Runs the items, in the order of the text.
fn run_items<'m>(
    machine: &mut Machine<'m>,
    alloc: Global,
    imports_dataclass: bool,
    items: &'m [Item],
) -> Result<(), Halt>
    ensures plain { (n : ℕ) → machine.old.fuel < n
        → TellsProgress unit result machine.new
        (module_items_in n imports_dataclass (map item_of items.now) (progress_of machine.old)) }
    ensures fuel { machine.new.fuel ≤ machine.old.fuel }
{
    for item in items {
        run_item(machine, alloc, imports_dataclass, item)?;
    }
    Ok(())
}

/// Runs the items, then `main`, and returns its value.
pub fn run_module<'m>(
    machine: &mut Machine<'m>,
    alloc: Global,
    program: &'m Module,
) -> Result<Value, Halt>
    ensures plain { (n : ℕ) → machine.old.fuel < n
        → TellsProgress value_of result machine.new (plain_module n (module_of program.now) (progress_of machine.old)) }
    ensures fuel { machine.new.fuel ≤ machine.old.fuel }
{
    run_items(machine, alloc, program.imports_dataclass, &program.items)?;
    enter_main(machine, alloc)
}
