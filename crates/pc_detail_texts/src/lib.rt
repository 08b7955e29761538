//! Details of findings: their types, names and places, and the sentence of each.
#![tactic(auto)]

mod details;
mod phrases;
mod pieces;
mod places;
mod reasons;
mod rules;
mod sentences;
mod short_text;

pub use details::{
    AnnotationFault, Attribute, AttributeHint, Callable, Clash, Counts, Detail, Earlier, Early,
    Elsewhere, Flow, FunctionName, Holder, LateDefault, Leaving, MemberName, Misfit, NoMain,
    NoValue, OperatorUse, OverrideFault, OverrideTypes, RuleFault, Sink, TypeFault, Unsupported,
};
pub use places::other_places;
pub use sentences::push_sentence;
pub use short_text::{ShortText, shortened};
