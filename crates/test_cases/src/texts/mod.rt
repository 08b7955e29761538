//! Tables of worked texts, and the answer to each text.
mod asking;
mod expressions;
mod layouts;
mod lines;
mod lists;
mod modules;
mod random;
mod refusals;
mod sources;
mod tables;

pub use tables::judge;
