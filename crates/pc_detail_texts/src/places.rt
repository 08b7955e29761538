//! The places that a detail names beside that of its finding.

ghost use Rattle.std.specs.Prelude.{◌≡◌, IfOk, option_to_list};
ghost use Rattle.pc_detail_texts.specs.Places.{place_of_earlier, place_of_elsewhere, place_of_early, place_of_annotation};
ghost use Rattle.pc_detail_texts.specs.Places.{place_of_main, other_places};
ghost use Rattle.pc_detail_texts.specs.Shown.{earlier_of_value, elsewhere_of_value, early_of_value, annotation_of_value};
ghost use Rattle.pc_detail_texts.specs.Shown.{main_of_value, type_fault_of_value, rule_fault_of_value, detail_of_value};

use crate::details::{
    AnnotationFault, Detail, Earlier, Early, Elsewhere, NoMain, RuleFault, TypeFault,
};
use pc_source::{OutOfMemory, Place};
use std::alloc::Global;

/// Returns the place of an earlier binding, if it has one.
fn earlier_place(earlier: Earlier) -> Option<Place>
    ensures { result ≡ place_of_earlier (earlier_of_value earlier) }
{
    match earlier {
        Earlier::Item(at) => Some(at),
        Earlier::Parameter(at) => Some(at),
        Earlier::Receiver => None,
        Earlier::Argument(at) => Some(at),
    }
}

/// Returns the place where an unknown name is bound elsewhere.
fn elsewhere_place(elsewhere: &Elsewhere) -> Option<Place>
    ensures { result ≡ place_of_elsewhere (elsewhere_of_value elsewhere.now) }
{
    match elsewhere {
        Elsewhere::Nowhere => None,
        Elsewhere::InClass(_) => None,
        Elsewhere::InFunction(_, at) => Some(*at),
        Elsewhere::NotImported => None,
    }
}

/// Returns the place of a name that is used too early, if the detail gives it.
fn early_place(early: &Early) -> Option<Place>
    ensures { result ≡ place_of_early (early_of_value early.now) }
{
    match early {
        Early::Function(_) => None,
        Early::Name(_, at) => Some(*at),
        Early::Callee => None,
    }
}

/// Returns the place of a name that is no class.
fn annotation_place(fault: &AnnotationFault) -> Option<Place>
    ensures { result ≡ place_of_annotation (annotation_of_value fault.now) }
{
    match fault {
        AnnotationFault::UnknownType(_) => None,
        AnnotationFault::NoType(_, at) => Some(*at),
        AnnotationFault::ReservedNoType(_) => None,
        AnnotationFault::AnyNotImported => None,
        AnnotationFault::Bare(_) => None,
        AnnotationFault::TakesTypes(_, _) => None,
        AnnotationFault::TakesNone(_) => None,
        AnnotationFault::KeyType(_) => None,
    }
}

/// Returns the place of a `main` that is not a function without parameters, if there is one.
fn main_place(why: NoMain) -> Option<Place>
    ensures { result ≡ place_of_main (main_of_value why) }
{
    match why {
        NoMain::NoSuchName => None,
        NoMain::HasParameters(at) => Some(at),
        NoMain::IsNoFunction(at) => Some(at),
    }
}

/// Returns a list of the place, or an empty one.
fn listed(alloc: Global, place: Option<Place>) -> Result<Vec<Place>, OutOfMemory>
    ensures { IfOk result (λ v. v.items ≡ option_to_list place) }
{
    let mut places = Vec::new(alloc);
    if let Some(at) = place {
        places.push(at)?;
    }
    Ok(places)
}

/// Returns the place that a fault of types names: that of a method above.
fn place_of_type_fault(fault: &TypeFault) -> Option<Place>
    ensures { option_to_list result ≡ other_places (type_fault_of_value fault.now) }
{
    match fault {
        TypeFault::Flow(_) => None,
        TypeFault::Operator(_) => None,
        TypeFault::Call(_, _) => None,
        TypeFault::Attribute(_) => None,
        TypeFault::Index(_, _) => None,
        TypeFault::Store(_) => None,
        TypeFault::Iterate(_) => None,
        TypeFault::IterateRange(_) => None,
        TypeFault::Contain(_, _) => None,
        TypeFault::Length(_) => None,
        TypeFault::ListTest(_, _) => None,
        TypeFault::Override(_, at, _) => Some(*at),
    }
}

/// Returns the places that a fault against a rule names, in order.
fn places_of_rule_fault(alloc: Global, fault: &RuleFault) -> Result<Vec<Place>, OutOfMemory>
    ensures { IfOk result (λ v. v.items ≡ other_places (rule_fault_of_value fault.now)) }
{
    match fault {
        RuleFault::NotAValue(_) => Ok(Vec::new(alloc)),
        RuleFault::NoReturn(_, _) => Ok(Vec::new(alloc)),
        RuleFault::Keys(_) => Ok(Vec::new(alloc)),
        RuleFault::MethodStore(_) => Ok(Vec::new(alloc)),
        RuleFault::NoTest(_) => Ok(Vec::new(alloc)),
        RuleFault::Size(_) => Ok(Vec::new(alloc)),
        RuleFault::RangeElsewhere => Ok(Vec::new(alloc)),
        RuleFault::Twice(_, earlier) => listed(alloc, earlier_place(*earlier)),
        RuleFault::UnknownName(_, elsewhere) => listed(alloc, elsewhere_place(elsewhere)),
        RuleFault::Early(early) => listed(alloc, early_place(early)),
        RuleFault::Unassigned(_, bound) => Ok(Vec::from_slice(alloc, bound)?),
        RuleFault::OutsideLoop(_) => Ok(Vec::new(alloc)),
        RuleFault::Member(_, at) => listed(alloc, Some(*at)),
        RuleFault::Base(_, later) => listed(alloc, *later),
        RuleFault::FieldOrder(late, _) => listed(alloc, Some(late.at)),
        RuleFault::Annotation(fault) => listed(alloc, annotation_place(fault)),
        RuleFault::Union(_) => Ok(Vec::new(alloc)),
        RuleFault::LateAnnotation(_, at) => listed(alloc, *at),
        RuleFault::Main(why) => listed(alloc, main_place(*why)),
        RuleFault::Reserved(_) => Ok(Vec::new(alloc)),
        RuleFault::Unreachable(_, at) => listed(alloc, Some(*at)),
        RuleFault::DefaultOrder(late) => listed(alloc, Some(late.at)),
    }
}

/// Returns the places that a detail names beside that of its finding, in order.
///
/// # Errors
///
/// `OutOfMemory` if an allocation failed.
pub fn other_places(alloc: Global, detail: &Detail) -> Result<Vec<Place>, OutOfMemory>
    ensures { IfOk result (λ v. v.items ≡ other_places (detail_of_value detail.now)) }
{
    match detail {
        Detail::Types(fault) => listed(alloc, place_of_type_fault(fault)),
        Detail::Rule(fault) => places_of_rule_fault(alloc, fault),
    }
}
