//! Tables of modules with the reports expected of a checker.
mod checker;
mod findings;
mod forms;
mod listings;
mod modules;
mod stores;
mod streams;
mod tables;
mod texts;

pub use checker::ReportMaker;
pub use tables::judge;
