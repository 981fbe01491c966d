//! How values that have a join are written as text, for programs that make calls.
//!
//! A unit is `.`, a number `4`, a lift `-` or `4`, a pair `2/1`, a map `1=2,2=5`, whose keys may have parts, `3.1` or `-.1`.
//! A guarded map is `GUARD!MAP`, two maps under one guard `GUARD!MAP/MAP`, and a guarded map for each key `KEY:GUARD!MAP;KEY:GUARD!MAP`.
#![tactic(auto)]

mod error;
mod key;
mod limit;
mod notation;

pub use error::NotationError;
pub use key::Key;
pub use limit::{GuardedByKey, GuardedMap, GuardedTwo, Limit, Map, Number, Parts};
pub use notation::Notation;
