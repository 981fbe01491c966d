//! Joins: how copies of one thing are merged, so that they end up the same.
//!
//! Several copies of a thing change independently, and tell each other what they know: late, twice, in any order. If what a copy knows
//! only ever grows, and two copies merge into the least value that tells everything either told, then copies that have heard the same are
//! the same. Such a merge is called a join.
//!
//! A [`Join`] is a type with an order of knowledge: `x.below(&y)` says that y tells all that x tells. Two values need not be ordered: each
//! may tell what the other does not. But any two have a join, the least value above both, and `x.join(&y)` makes x that value.
//!
//! Almost any such thing can be built from five types. In the pictures a line leads up to a value that tells more, and the join of two
//! values is where the lines up from both first meet.
//!
//! # `Greatest<T>`: the greatest so far
//!
//! The newest revision, a high-water mark, a clock. Of two values one is always below the other: a chain.
//!
//! ```text
//!     9
//!     |
//!     7        4 joined with 7 is 7
//!     |
//!     4
//! ```
//!
//! # `Lift<T>`: nothing yet
//!
//! A value that may still be missing. `Nothing` is below every value, so whatever is heard first is taken.
//!
//! ```text
//!     Known(7)
//!        |
//!     Known(4)     Nothing joined with Known(4) is Known(4)
//!        |
//!     Nothing
//! ```
//!
//! # `Both<A, B>`: two things side by side
//!
//! Each part is joined separately. Two pairs can each tell what the other does not; their join is then neither of the two.
//!
//! ```text
//!          (2, 2)
//!          /    \
//!     (2, 1)    (1, 2)     these two joined are (2, 2)
//!          \    /
//!          (1, 1)
//! ```
//!
//! # `Keyed<K, V>`: a map, key by key
//!
//! A missing entry tells nothing, so a map with more keys, or with more at a key, tells more.
//!
//! ```text
//!         {a: 2, b: 5}
//!          /        \
//!     {a: 2}      {a: 1, b: 5}     these two joined are {a: 2, b: 5}
//!          \        /
//!           {a: 1}
//!              |
//!              {}
//! ```
//!
//! # `Guarded<S, M>`: a map that forgets
//!
//! A map that only grows never forgets. Here a guard beside the map makes entries dead, and no dead entry is held. In the picture the
//! guard is a number, and kills every value below it.
//!
//! ```text
//!     guard 5, {b: 9}
//!            |
//!     guard 2, {a: 3, b: 9}
//!          /        \
//!     guard 2,     guard 2,
//!     {a: 3}       {b: 9}
//! ```
//!
//! The top value has fewer entries, and yet tells more: it says that `a: 3` is dead. So a late message can't bring `a: 3` back: joined
//! with guard 2, {a: 3}, the top value stays as it is. (g, m) is below (h, n) if g is below h, and each entry of m is at most n's entry at
//! that key, or dead under h.
//!
//! Two laws of the guard make this an order, and an implementation of [`Guard`] proves them: what is at most a dead item of its key is
//! dead, and a guard kills all that a guard below it kills. The values are a [`Chain`], so the join of two values is one of the two, and
//! dies when that one does.
//!
//! # What is proved
//!
//! Each type proves the laws of [`Join`] from its parts' laws alone: `below` is a partial order, and values below each other are equal;
//! the join is above both values and below every value above both; joining in what is already told, such as the value itself, changes
//! nothing and needs no memory; a join that fails changes nothing; a copy is equal. `laws` has what follows for every join: joins commute
//! and associate, and copies that have taken in the same values are the same, in whatever order and however often the values came.
//!
//! # What a join costs
//!
//! `join` is all or nothing. `Keyed` grows its values in place, adds copies of the entries that it lacks, and notes both, so that it can
//! undo them if an allocation fails on the way: for this it copies each value before it grows. If the map that is joined in has a single
//! entry, there is nothing to undo, and the value that grows is not copied. So the cost of a join is in proportion to the map that is
//! joined in and to the values that grow, apart from the walk down the tree. `Guarded` does the same, and if its guard grows it also
//! copies the guard, and goes over its own entries once, to drop the dead. `Both` copies its first part if that part grows, and each time
//! a guard over it grows.
#![tactic(auto)]

pub mod both;
pub mod exact;
pub mod greatest;
pub mod guard;
pub mod guarded;
pub mod join;
pub mod keyed;
pub mod laws;
pub mod lift;
mod merge;
pub mod ordered_map;
pub mod under_guard;

pub use both::Both;
pub use exact::Exact;
pub use greatest::Greatest;
pub use guard::Guard;
pub use guarded::Guarded;
pub use join::{Chain, Join};
pub use keyed::Keyed;
pub use lift::Lift;
pub use ordered_map::OrderedMap;
pub use under_guard::UnderGuard;

/// The error of a call in which an allocation failed.
pub use std::alloc::AllocError as NoMemory;
