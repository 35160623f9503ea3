//! Tests of what no clause and no row says: plain types, their JSON and messages, and streams that fail.
#![tactic(auto)]

#[cfg(test)]
mod assertions;
#[cfg(test)]
mod faults;
#[cfg(test)]
mod json;
#[cfg(test)]
mod plain_types;
#[cfg(test)]
mod streams;
