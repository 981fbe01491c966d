//! How the keys of maps are written.

use crate::error::NotationError;
use itip_join::Exact;
use std::alloc::Global;

/// Keys that have a text.
pub trait Key: Exact {
    /// The key that a text spells. Fails with [`NotationError::NoValue`] if it spells none.
    fn read_key(text: &str) -> Result<Self, NotationError>;

    /// The text of a key. Fails with [`NotationError::NoMemory`] if an allocation fails.
    fn write_key(&self, alloc: Global) -> Result<String, NotationError>;
}

/// A number, as `3`.
impl Key for u32 {
    fn read_key(text: &str) -> Result<u32, NotationError> {
        text.parse().map_err(|_| NotationError::NoValue)
    }

    fn write_key(&self, alloc: Global) -> Result<String, NotationError> {
        Ok(format!(in alloc; "{self}")?)
    }
}

/// Two parts, as `3.1`, or `-.1` if the first is missing.
impl Key for (Option<u64>, u8) {
    fn read_key(text: &str) -> Result<(Option<u64>, u8), NotationError> {
        let (first, second) = text.split_once('.').ok_or(NotationError::NoValue)?;
        let second = second.parse().map_err(|_| NotationError::NoValue)?;
        Ok((first_part(first)?, second))
    }

    fn write_key(&self, alloc: Global) -> Result<String, NotationError> {
        let second = self.1;
        match self.0 {
            Some(first) => Ok(format!(in alloc; "{first}.{second}")?),
            None => Ok(format!(in alloc; "-.{second}")?),
        }
    }
}

fn first_part(text: &str) -> Result<Option<u64>, NotationError> {
    if text == "-" {
        return Ok(None);
    }
    Ok(Some(text.parse().map_err(|_| NotationError::NoValue)?))
}
