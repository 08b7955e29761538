//! Calls: callees, the arguments that suit them, and the types that arguments flow into.
#![tactic(auto)]

mod arguments;
mod call_offers;
mod callee;
mod calling;
mod functions;
pub mod given;
mod instances;
mod listed;
mod methods;
mod naming_callees;
mod params;
mod ranging;
mod seats;

pub use arguments::{Given, KeywordNames};
pub use call_offers::{CallOffer, CallRule, Called};
pub use callee::{TypedCallee, callee_in_error, callee_of_value};
pub use calling::{call_codes, members_label};
pub use instances::{second_code, test_label};
pub use methods::callee_of_method;
pub use naming_callees::callee_of_name;
pub use ranging::{is_range, range_item, range_offers};
pub use seats::{Seat, keyword_seat, positional_seat};
