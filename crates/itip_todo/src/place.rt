//! Where properties are in a text.
ghost use Rattle.std.specs.Prelude.{◌≡◌, ◌≤◌, IfOk};
ghost use Rattle.itip_lines.specs.ParamsText.{params_in, IsParamsText};
ghost use Rattle.itip_lines.specs.Writing.{Extends};
ghost use Rattle.itip_todo.specs.Places.{property_at, IsPlaceIn};

use std::alloc::AllocError;

/// Where a property is in a text, in octets: its parameters from `start` to `colon`, and its value from after the colon to `end`.
#[derive(Clone, Copy, Debug)]
pub(crate) struct Place {
    pub start: u32,
    pub colon: u32,
    pub end: u32,
}

/// Appends a property to a text, and returns its place there. `params` is the text of its parameters.
///
/// A text longer than `u32::MAX` octets is refused as if an allocation had failed. On an error, the property or a part of it may
/// have been appended.
pub(crate) fn append(params: &str, value: &str, text: &mut Vec<u8>) -> Result<Place, AllocError>
    requires { IsParamsText params.now }
    ensures stands { IfOk result (λ place. IsPlaceIn text.new.items place
        × (property_at text.new.items place ≡ record { params = params_in params.now; value = value.now })) }
    ensures extends { Extends text.old.items text.new.items }
{
    let start = text.len();
    text.extend_from_slice(params.as_bytes())?;
    let colon = text.len();
    text.push(b':')?;
    text.extend_from_slice(value.as_bytes())?;
    placed(start, colon, text.len())
}

fn placed(start: usize, colon: usize, end: usize) -> Result<Place, AllocError>
    requires { (start ≤ colon) × (colon ≤ end) }
    ensures { IfOk result (λ place. place ≡ record { start = start; colon = colon; end = end }) }
{
    if end > u32::MAX as usize {
        return Err(AllocError);
    }
    Ok(Place {
        start: start as u32,
        colon: colon as u32,
        end: end as u32,
    })
}
