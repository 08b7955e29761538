//! From bytes to their module and its report, and the report's guarantees about the module's runs; the same for
//! streams.
#![tactic(auto)]

mod checking;
mod detailed;
mod fault;
mod laws;
mod names;
mod printed;
mod stream;
mod teardown;
mod top;
mod types;
mod within;

pub use checking::findings_by;
pub use detailed::{DetailedReport, PlacedDetail, check_explained};
pub use fault::CheckFault;
pub use laws::{no_needless_flow, one_listing_of_types, one_report};
pub use pc_front::read_module;
pub use pc_report::{Format, Report, Row, TypeEntry, TypeKind, TypeListing, TypeRow};
pub use printed::{explain_stream, next_detail};
pub use stream::{FindingCounts, check_stream, types_stream};
pub use top::check;
pub use types::{type_at, types_of};
pub use within::check_explained_within;
