//! Tests of the public calls that the language server is built from.
#![tactic(auto)]

#[cfg(test)]
mod detail_tests;
#[cfg(test)]
mod help_tests;
#[cfg(test)]
mod position_tests;
#[cfg(test)]
mod session_tests;
#[cfg(test)]
mod wire_tests;
