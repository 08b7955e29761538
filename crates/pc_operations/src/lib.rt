//! Operations on values: their results on each member of a type, and their labels.
#![tactic(auto)]

mod comparing;
mod display;
mod fields;
mod iterating;
mod kinds;
mod members;
mod offers;
mod operating;
mod pairs;

pub use comparing::type_comparison;
pub use display::{
    KeyValue, dict_label, dict_parts, list_item, list_label, tuple_label, tuple_parts,
};
pub use iterating::item_label;
pub use offers::{Operation, add_copy, has_error, member_offers, offers_label};
pub use operating::{
    attribute_label, bool_label, int_label, junction_label, negative_label, none_label, str_label,
    type_index,
};
pub use pairs::binary_label;
