//! The text of a value.

use crate::error::NotationError;
use crate::key::Key;
use crate::limit::{GuardedByKey, Limit, Number};
use itip_join::{Both, Greatest, Guarded, Join, Keyed, Lift, UnderGuard};
use std::alloc::Global;

/// Values that have a text.
pub trait Notation: Join {
    /// The value that a text spells. Fails with [`NotationError::NoValue`] if it spells none, and with [`NotationError::NoMemory`] if an
    /// allocation fails.
    fn read(alloc: Global, text: &str) -> Result<Self, NotationError>;

    /// The text of a value. Fails with [`NotationError::NoMemory`] if an allocation fails.
    fn write(&self, alloc: Global) -> Result<String, NotationError>;
}

/// The only value, as `.`.
impl Notation for () {
    fn read(_alloc: Global, text: &str) -> Result<(), NotationError> {
        if text != "." {
            return Err(NotationError::NoValue);
        }
        Ok(())
    }

    fn write(&self, alloc: Global) -> Result<String, NotationError> {
        Ok(String::from_str(alloc, ".")?)
    }
}

/// A number, as `4`.
impl Notation for Number {
    fn read(_alloc: Global, text: &str) -> Result<Number, NotationError> {
        let value = text.parse().map_err(|_| NotationError::NoValue)?;
        Ok(Greatest { value })
    }

    fn write(&self, alloc: Global) -> Result<String, NotationError> {
        let value = self.value;
        Ok(format!(in alloc; "{value}")?)
    }
}

/// `-` if nothing is known, else the value.
impl<T: Notation> Notation for Lift<T> {
    fn read(alloc: Global, text: &str) -> Result<Lift<T>, NotationError> {
        if text == "-" {
            return Ok(Lift::Nothing);
        }
        Ok(Lift::Known(T::read(alloc, text)?))
    }

    fn write(&self, alloc: Global) -> Result<String, NotationError> {
        match self {
            Lift::Nothing => Ok(String::from_str(alloc, "-")?),
            Lift::Known(value) => value.write(alloc),
        }
    }
}

/// The two values with a slash between them, as `2/1`.
impl<A: Notation, B: Notation> Notation for Both<A, B> {
    fn read(alloc: Global, text: &str) -> Result<Both<A, B>, NotationError> {
        let (first, second) = text.split_once('/').ok_or(NotationError::NoValue)?;
        Ok(Both {
            first: A::read(alloc, first)?,
            second: B::read(alloc, second)?,
        })
    }

    fn write(&self, alloc: Global) -> Result<String, NotationError> {
        let first = self.first.write(alloc)?;
        let second = self.second.write(alloc)?;
        Ok(format!(in alloc; "{first}/{second}")?)
    }
}

/// The guard and the entries, as `5!2=9,3=5`. Entries that the guard kills are dropped when it is read.
impl<M: Notation + UnderGuard<Limit>> Notation for Guarded<Limit, M> {
    fn read(alloc: Global, text: &str) -> Result<Guarded<Limit, M>, NotationError> {
        let (guard, entries) = text.split_once('!').ok_or(NotationError::NoValue)?;
        let value = guard.parse().map_err(|_| NotationError::NoValue)?;
        Ok(Guarded::new(Limit { value }, M::read(alloc, entries)?))
    }

    fn write(&self, alloc: Global) -> Result<String, NotationError> {
        let guard = self.guard.value;
        let entries = self.entries.write(alloc)?;
        Ok(format!(in alloc; "{guard}!{entries}")?)
    }
}

/// The entries, as `1=2,2=5`. Those that are read are joined one after another.
impl<K: Key> Notation for Keyed<K, Number> {
    fn read(alloc: Global, text: &str) -> Result<Keyed<K, Number>, NotationError> {
        let mut map = Keyed::empty(alloc);
        for entry in text.split(',') {
            if !entry.is_empty() {
                map.join(&one(alloc, entry)?)?;
            }
        }
        Ok(map)
    }

    fn write(&self, alloc: Global) -> Result<String, NotationError> {
        let mut text = String::new(alloc);
        for (key, value) in self.map.iter() {
            add(
                &mut text,
                ",",
                key.write_key(alloc)?,
                "=",
                value.write(alloc)?,
            )?;
        }
        Ok(text)
    }
}

/// A map of one entry.
fn one<K: Key>(alloc: Global, entry: &str) -> Result<Keyed<K, Number>, NotationError> {
    let (key, value) = entry.split_once('=').ok_or(NotationError::NoValue)?;
    let value = Number::read(alloc, value)?;
    Ok(Keyed::of_one(alloc, K::read_key(key)?, value)?)
}

/// Appends an entry to a text, after `stop` unless it is the first.
fn add(
    text: &mut String,
    stop: &str,
    key: String,
    sign: &str,
    value: String,
) -> Result<(), NotationError> {
    if !text.is_empty() {
        text.push_str(stop)?;
    }
    text.push_str(key.as_str())?;
    text.push_str(sign)?;
    text.push_str(value.as_str())?;
    Ok(())
}

/// The entries, as `0:4!1=6;1:5!`.
impl Notation for GuardedByKey {
    fn read(alloc: Global, text: &str) -> Result<GuardedByKey, NotationError> {
        let mut map = Keyed::empty(alloc);
        for entry in text.split(';') {
            if !entry.is_empty() {
                map.join(&one_guarded(alloc, entry)?)?;
            }
        }
        Ok(map)
    }

    fn write(&self, alloc: Global) -> Result<String, NotationError> {
        let mut text = String::new(alloc);
        for (key, value) in self.map.iter() {
            add(
                &mut text,
                ";",
                key.write_key(alloc)?,
                ":",
                value.write(alloc)?,
            )?;
        }
        Ok(text)
    }
}

fn one_guarded(alloc: Global, entry: &str) -> Result<GuardedByKey, NotationError> {
    let (key, value) = entry.split_once(':').ok_or(NotationError::NoValue)?;
    let value = Guarded::read(alloc, value)?;
    Ok(Keyed::of_one(alloc, u32::read_key(key)?, value)?)
}
