//! State of a plain run.

ghost use Rattle.std.specs.Prelude.{◌≡◌, ◌≤◌, ◌<◌, OnOk, IfOk};
ghost use Rattle.pc_value.specs.Meaning.{value_of};
ghost use Rattle.pc_value.specs.Doing.{action_of, iteration_of};
ghost use Rattle.pc_machine.specs.Plain.{begin, Came, after_event, charge, act, next_choice, comes, after_change};
ghost use Rattle.pc_machine.specs.Steps.{value_out, iteration_out, item_out};
ghost use Rattle.pc_machine.specs.Names.{meaning_in_run};
ghost use Rattle.pc_machine.specs.Calls.{value_of_meaning};
ghost use Rattle.pc_machine.specs.Evaluation.{binds_local};
ghost use Rattle.pc_machine.specs.declared.halt.Halt.TheVariants as halt;
ghost use Rattle.pc_machine.specs.declared.halt.Stop.TheVariants as stop;
ghost use Rattle.pc_machine.specs.Machine.{TellsProgress, meaning_seen, state_of, progress_of, Performs, after_choice};
ghost use Rattle.pc_machine.specs.Machine.{unit, value_if_any};

use crate::depth::Depth;
use crate::halt::{Halt, Stop};
use crate::names::{find_local, set_local};
use crate::state::{Bound, Class, Globals, Local, Meaning};
use pc_source::{OutOfMemory, Place, is_reserved};
use pc_tree::Keys;
use pc_value::{Action, Exception, Heap, Iteration, Outcome, Value};
use std::alloc::Global;

/// A plain run so far. Own rule of the profile.
#[derive(Drop)]
pub struct Machine<'m> {
    /// The classes made, indexed by their number.
    pub classes: Vec<Class<'m>>,
    /// The names that the module has bound, in order of binding.
    pub globals: Globals<'m>,
    /// The locals of the running function.
    pub frame: Vec<Local<'m>>,
    /// The heap of lists, dicts and instances.
    pub heap: Heap,
    /// The places evaluated so far, in order.
    pub events: Vec<Place>,
    /// The fuel left.
    pub fuel: u64,
    /// The choice bytes left.
    pub choices: &'m [u8],
    /// The open calls.
    pub depth: Depth,
    /// The keys for hashing names, which no author of a text may know.
    pub keys: Keys,
}

/// Returns the halt that ends the run in an exception. Own rule of the profile.
pub fn raised(exception: Exception) -> Halt
    ensures { result ≡ halt.Stopped (stop.Raised exception) }
{
    Halt::Stopped(Stop::Raised(exception))
}

impl<'m> Machine<'m> {
    /// Returns the machine before the first item, with nothing bound. Own rule of the profile.
    pub fn begin(alloc: Global, keys: Keys, fuel: u64, choices: &'m [u8]) -> Machine<'m>
        ensures { progress_of result ≡ begin fuel choices.now }
    {
        Machine {
            classes: Vec::new(alloc),
            globals: Globals::new(alloc, keys),
            frame: Vec::new(alloc),
            heap: Heap::new(alloc),
            events: Vec::new(alloc),
            fuel,
            choices,
            depth: Depth { calls: 0 },
            keys,
        }
    }

    /// Returns the meaning of a name where it is read: a local, a binding of the module, or a reserved name.
    /// Language Reference 4.2.2 "Resolution of names".
    pub fn meaning(&self, name: &str) -> Meaning<'_, 'm>
        ensures { meaning_seen result ≡ meaning_in_run name.now (state_of self.now) }
    {
        if let Some(local) = find_local(&self.frame, name) {
            return match &local.value {
                Some(value) => Meaning::Value(value),
                None => Meaning::Unbound,
            };
        }
        match self.globals.get(name) {
            Some(Bound::Value(value)) => Meaning::Value(value),
            Some(Bound::Function(def)) => Meaning::Function(def),
            Some(Bound::Class(class)) => Meaning::Class(*class),
            None if is_reserved(name) => Meaning::Reserved,
            None => Meaning::Nothing,
        }
    }

    /// Returns the value of a name. UnboundLocalError or NameError if it has none; a function, class or reserved name
    /// is out of the profile.
    fn value_of_name(&self, alloc: Global, name: &str) -> Result<Value, Halt>
        ensures { TellsProgress value_of result self.now
            (comes (value_of_meaning (meaning_in_run name.now (state_of self.now))) (progress_of self.now)) }
    {
        match self.meaning(name) {
            Meaning::Value(value) => Ok(value.copy(alloc)?),
            Meaning::Unbound => Err(raised(Exception::UnboundLocalError)),
            Meaning::Function(_) => Err(Halt::Stopped(Stop::Outside)),
            Meaning::Class(_) => Err(Halt::Stopped(Stop::Outside)),
            Meaning::Reserved => Err(Halt::Stopped(Stop::Outside)),
            Meaning::Nothing => Err(raised(Exception::NameError)),
        }
    }

    /// Evaluates a name: its event, then its value. Language Reference 6.2.1 "Identifiers (Names)".
    #[inline(never)]
    pub fn read_name(&mut self, alloc: Global, place: Place, name: &str) -> Result<Value, Halt>
        ensures plain { TellsProgress value_of result self.new
            (comes (value_of_meaning (meaning_in_run name.now (state_of self.old)))
            (after_event place (progress_of self.old))) }
        ensures fuel { self.new.fuel ≤ self.old.fuel }
    {
        self.emit(place)?;
        self.value_of_name(alloc, name)
    }

    /// Binds a local to a value. Language Reference 4.2.1 "Binding of names".
    #[inline(never)]
    pub fn bind_local(&mut self, name: &str, value: Value)
        ensures plain { progress_of self.new
            ≡ after_change (binds_local name.now (value_of value)) (progress_of self.old) }
        ensures fuel { self.new.fuel ≡ self.old.fuel }
    {
        set_local(&mut self.frame, name, value);
    }

    /// Takes one unit of fuel, or cuts the run off if none is left. Own rule of the profile.
    pub fn charge(&mut self) -> Result<(), Halt>
        ensures plain { TellsProgress unit result self.new (charge (progress_of self.old)) }
        ensures fuel { self.new.fuel ≤ self.old.fuel }
        ensures spent { OnOk result (self.new.fuel < self.old.fuel) }
    {
        if self.fuel == 0 {
            return Err(Halt::Stopped(Stop::Cut));
        }
        self.fuel -= 1;
        Ok(())
    }

    /// Records the event that a place is evaluated. Own rule of the profile.
    #[inline(never)]
    pub fn emit(&mut self, place: Place) -> Result<(), OutOfMemory>
        ensures ok { OnOk result (progress_of self.new ≡ after_event place (progress_of self.old)) }
        ensures fuel { self.new.fuel ≡ self.old.fuel }
    {
        self.events.push(place)?;
        Ok(())
    }

    /// Records the event of a place and returns a value. Own rule of the profile.
    #[inline(never)]
    pub fn give(&mut self, place: Place, value: Value) -> Result<Value, Halt>
        ensures plain { TellsProgress value_of result self.new
            (Came (value_of value) (after_event place (progress_of self.old))) }
        ensures fuel { self.new.fuel ≤ self.old.fuel }
    {
        self.emit(place)?;
        Ok(value)
    }

    /// Returns the next choice byte, or 0 if they are used up.
    fn choice(&self) -> u8
        ensures { result ≡ next_choice self.now.choices.now }
    {
        match self.choices {
            [byte, ..] => *byte,
            [] => 0,
        }
    }

    /// Removes the next choice byte.
    fn use_choice(&mut self)
        ensures { progress_of self.new ≡ after_choice (progress_of self.old) }
    {
        if let [_, rest @ ..] = self.choices {
            self.choices = rest;
        }
    }

    /// Performs an action on values; a free answer uses up the next choice byte.
    fn act(&mut self, alloc: Global, action: &Action) -> Result<Outcome, OutOfMemory>
        ensures acts { IfOk result (λ o. Performs o self.new (action_of action.now) (progress_of self.old)) }
        ensures fuel { self.new.fuel ≡ self.old.fuel }
    {
        let taken = pc_value::takes_choice(&self.heap, action);
        let choice = self.choice();
        let outcome = pc_value::act(alloc, &mut self.heap, action, choice)?;
        if taken {
            self.use_choice();
        }
        Ok(outcome)
    }

    /// Performs an action that gives a value; an exception, leaving the profile, or a number that does not fit ends the
    /// run.
    pub(crate) fn act_value(&mut self, alloc: Global, action: Action) -> Result<Value, Halt>
        ensures plain { TellsProgress value_of result self.new
            (act value_out (action_of action) (progress_of self.old)) }
        ensures fuel { self.new.fuel ≤ self.old.fuel }
    {
        match self.act(alloc, &action)? {
            Outcome::Gives(value) => Ok(value),
            Outcome::Iterates(_) => Err(Halt::Stopped(Stop::Other)),
            Outcome::Finished => Err(Halt::Stopped(Stop::Other)),
            Outcome::Raised(exception) => Err(raised(exception)),
            Outcome::Other => Err(Halt::Stopped(Stop::Other)),
            Outcome::Outside => Err(Halt::Stopped(Stop::Outside)),
            Outcome::Cut => Err(Halt::Stopped(Stop::Cut)),
        }
    }

    /// Performs the action that starts a `for` and returns its source of items.
    /// Language Reference 8.3 "The for statement".
    #[inline(never)]
    pub fn act_iteration(&mut self, alloc: Global, action: Action) -> Result<Iteration, Halt>
        ensures plain { TellsProgress iteration_of result self.new
            (act iteration_out (action_of action) (progress_of self.old)) }
        ensures fuel { self.new.fuel ≤ self.old.fuel }
    {
        match self.act(alloc, &action)? {
            Outcome::Gives(_) => Err(Halt::Stopped(Stop::Other)),
            Outcome::Iterates(over) => Ok(over),
            Outcome::Finished => Err(Halt::Stopped(Stop::Other)),
            Outcome::Raised(exception) => Err(raised(exception)),
            Outcome::Other => Err(Halt::Stopped(Stop::Other)),
            Outcome::Outside => Err(Halt::Stopped(Stop::Outside)),
            Outcome::Cut => Err(Halt::Stopped(Stop::Cut)),
        }
    }

    /// Performs a turn of a `for`; returns its item, or `None` at the end. Language Reference 8.3 "The for statement".
    #[inline(never)]
    pub fn act_item(&mut self, alloc: Global, action: &Action) -> Result<Option<Value>, Halt>
        ensures plain { TellsProgress value_if_any result self.new
            (act item_out (action_of action.now) (progress_of self.old)) }
        ensures fuel { self.new.fuel ≤ self.old.fuel }
    {
        match self.act(alloc, action)? {
            Outcome::Gives(value) => Ok(Some(value)),
            Outcome::Iterates(_) => Err(Halt::Stopped(Stop::Other)),
            Outcome::Finished => Ok(None),
            Outcome::Raised(exception) => Err(raised(exception)),
            Outcome::Other => Err(Halt::Stopped(Stop::Other)),
            Outcome::Outside => Err(Halt::Stopped(Stop::Outside)),
            Outcome::Cut => Err(Halt::Stopped(Stop::Cut)),
        }
    }

    /// Records the event of a place, then performs an action that gives a value. Own rule of the profile.
    #[inline(never)]
    pub fn perform(&mut self, alloc: Global, place: Place, action: Action) -> Result<Value, Halt>
        ensures plain { TellsProgress value_of result self.new
            (act value_out (action_of action) (after_event place (progress_of self.old))) }
        ensures fuel { self.new.fuel ≤ self.old.fuel }
    {
        if let Err(error) = self.emit(place) {
            drop(action);
            return Err(Halt::OutOfMemory(error));
        }
        self.act_value(alloc, action)
    }
}
