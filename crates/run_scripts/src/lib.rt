//! What runs are made of, and how it is told as text. `commands` has the commands and replies of both kinds, `faults` how
//! runs, streams, replays, drawings and checks end; the other modules have lines, their words, the numbers and commands
//! that words spell, and the line of a reply.
//!
//! Definitions: `Faults`, `Lines`, `Numbers`, `Words`, `Script`, `ScriptReading` and `ReplyText`. Nothing here runs a command.
#![tactic(auto)]

pub mod commands;
pub mod faults;
pub mod lines;
pub mod numbers;
pub mod plain_lines;
pub mod reading;
pub mod reply_text;
pub mod script;
pub mod sending;
pub mod short_text;
pub mod words;
