//! A call, as a line asks for it.

use crate::error::CallError;
use std::alloc::Global;

/// A word, and the arguments after it.
#[derive(Drop)]
pub(crate) struct Call<'a> {
    pub(crate) word: &'a str,
    pub(crate) arguments: Vec<Vec<u8>>,
}

impl Call<'_> {
    pub(crate) fn of_line(alloc: Global, line: &str) -> Result<Call<'_>, CallError> {
        let mut parts = line.split(' ');
        let word = parts.next().unwrap_or(line);
        let mut arguments = Vec::new(alloc);
        for part in parts {
            arguments.push(octets_of(alloc, part)?)?;
        }
        Ok(Call { word, arguments })
    }
}

/// The bytes that an argument stands for: `-` for none, else two hexadecimal digits for each.
fn octets_of(alloc: Global, part: &str) -> Result<Vec<u8>, CallError> {
    if part == "-" {
        return Ok(Vec::new(alloc));
    }
    Ok(hex::decode(alloc, part)?)
}
