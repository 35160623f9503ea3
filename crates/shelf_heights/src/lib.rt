//! The shelves in use by height: a list that is searched for a fit and changed as shelves come and go.
//!
//! Definitions: `ListFields` for a list with its blocks, `FrontRoom` for the one that is used, `ByHeight` for its order.
#![tactic(auto)]

mod arranging;
mod bounded_list;
pub mod by_height;
pub mod heights;
