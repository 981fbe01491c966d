//! Joins of values of each type, made once more if an allocation fails.

use crate::error::CallError;
use crate::refusal::note_refusal;
use itip_join::{Both, Join, Lift};
use itip_notation::{GuardedByKey, GuardedMap, GuardedTwo, Map, Notation, Number, Parts};

/// The join of two values of the type of this name.
pub(crate) fn join_again<R: AllocGlobal + Eprint>(
    rt: &R,
    name: &str,
    mine: &str,
    theirs: &str,
) -> Result<Vec<u8>, CallError> {
    match name {
        "number" => joined::<Number, R>(rt, mine, theirs),
        "lift" => joined::<Lift<Number>, R>(rt, mine, theirs),
        "both" => joined::<Both<Number, Number>, R>(rt, mine, theirs),
        "map" => joined::<Map, R>(rt, mine, theirs),
        "parts" => joined::<Parts, R>(rt, mine, theirs),
        _ => join_guarded(rt, name, mine, theirs),
    }
}

fn join_guarded<R: AllocGlobal + Eprint>(
    rt: &R,
    name: &str,
    mine: &str,
    theirs: &str,
) -> Result<Vec<u8>, CallError> {
    match name {
        "guarded" => joined::<GuardedMap, R>(rt, mine, theirs),
        "guarded_two" => joined::<GuardedTwo, R>(rt, mine, theirs),
        "guarded_by_key" => joined::<GuardedByKey, R>(rt, mine, theirs),
        _ => Err(CallError::NoSuchCall),
    }
}

fn joined<T: Notation, R: AllocGlobal + Eprint>(
    rt: &R,
    mine: &str,
    theirs: &str,
) -> Result<Vec<u8>, CallError> {
    let alloc = rt.alloc();
    let mut value = T::read(alloc, mine)?;
    join(rt, &mut value, &T::read(alloc, theirs)?)?;
    Ok(value.write(alloc)?.into_bytes())
}

fn join<T: Join, R: Eprint>(rt: &R, value: &mut T, other: &T) -> Result<(), CallError> {
    let before = value.copy()?;
    if value.join(other).is_ok() {
        return Ok(());
    }
    note_refusal(rt);
    if !(value.below(&before) && before.below(value)) {
        return Err(CallError::Changed);
    }
    value.join(other).map_err(|_| CallError::NothingOnceMore)
}
