//! A property's value with its parameters.
ghost use Rattle.std.specs.Prelude.{◌≡◌, IfOk, nat_eq};
ghost use Rattle.std.specs.Arc.{arc_value};
ghost use Rattle.std.specs.Cmp.Lexicographic.{pointwise};
ghost use Rattle.std.specs.Cmp.Rules.{comparing};
ghost use Rattle.std.specs.List.{AllByRecursion};
ghost use Rattle.std.specs.Ordering.{on};
ghost use Rattle.std.proofs.Common.{rules};
ghost use Rattle.itip_lines.specs.Lawful.{params_text, IsLawfulParam};
ghost use Rattle.itip_lines.specs.Lookup.{param_value};
ghost use Rattle.itip_lines.specs.ParamsText.{params_in, IsParamsText};
ghost use Rattle.itip_todo.specs.Places.{property_at, IsPlaceIn};
ghost use Rattle.itip_todo.specs.Properties.{property_text};

use crate::place::{Place, append};
use itip_lines::{Bytes, NoMemory, Params, SeenLine, param_value};
use std::alloc::Global;
use std::fmt;
use std::marker::Model;
use std::sync::Arc;

/// A value with its parameters, in order: what follows a property's name (RFC 5545 3.1).
///
/// It is a place in a text that is reference-counted, so cloning does not allocate. The attendees of a to-do share one text, which
/// lives as long as any of them: [`Property::alone`] returns a property with a text of its own.
#[derive(Drop)]
pub struct Property {
    text: Arc<Bytes>,
    place: Place,
}

impl Model for Property {
    ghost use Rattle.itip_todo.specs.Properties as plain;

    ghost Value = { plain.Property };

    ghost coded = { plain.property_code };

    ghost use Rattle.std.specs.Arc.{arc_value};
    ghost use Rattle.itip_todo.specs.Places.{property_at, IsPlaceIn};

    ghost view = { λ p. property_at (arc_value p.text) p.place };

    ghost invariant = { λ p. IsPlaceIn (arc_value p.text) p.place };
}

impl Property {
    /// Makes a property from a value and parameters, with a text of its own.
    ///
    /// Returns an error if an allocation fails, or if the property has more than `u32::MAX` octets.
    pub fn new(alloc: Global, params: &Params, value: &str) -> Result<Property, NoMemory>
        ensures { IfOk result (λ property. property ≡ record { params = params.now; value = value.now }) }
    {
        copied(alloc, params.as_str(), value)
    }

    /// The value of a line with its parameters, with a text of its own, as [`Property::new`] returns it.
    pub(crate) fn of_line(alloc: Global, line: &SeenLine<'_>) -> Result<Property, NoMemory>
        ensures { IfOk result (λ property. property ≡ record { params = line.now.params; value = line.now.value }) }
    {
        copied(alloc, line.params(), line.value())
    }

    /// The same property with a text of its own, which has no other property in it.
    pub fn alone(&self, alloc: Global) -> Result<Property, NoMemory>
        ensures { IfOk result (λ property. property ≡ self.now) }
    {
        copied(alloc, self.params(), self.value())
    }

    /// The property at a place in a text, which it shares.
    pub(crate) fn at(text: &Arc<Bytes>, place: Place) -> Result<Property, NoMemory>
        requires { IsPlaceIn (arc_value text.now) place }
        ensures { IfOk result (λ property. property ≡ property_at (arc_value text.now) place) }
    {
        Ok(Property {
            text: text.clone()?,
            place,
        })
    }

    /// The value.
    pub fn value(&self) -> &str
        ensures { result.now ≡ self.now.value }
    {
        let Place { colon, end, .. } = self.place;
        let text = self.text.as_slice();
        // By the invariant the value is UTF-8.
        unsafe { str::from_utf8_unchecked(&text[colon as usize + 1..end as usize]) }
    }

    /// The parameters as they are written, each with its leading `;`.
    pub fn params(&self) -> &str
        ensures text { result.now ≡ params_text self.now.params }
        ensures lawful { AllByRecursion IsLawfulParam self.now.params }
    {
        let Place { start, colon, .. } = self.place;
        let text = self.text.as_slice();
        // Names and values are UTF-8.
        unsafe { str::from_utf8_unchecked(&text[start as usize..colon as usize]) }
    }

    /// The first value of the first parameter with this name, given in upper case; empty if there is none. Does not
    /// allocate.
    pub fn first_value(&self, name: &str) -> &str
        ensures { result.now ≡ param_value name.now self.now.params }
    {
        param_value(self.params(), name)
    }

    /// The property as it is written after its name, without folds.
    fn octets(&self) -> &[u8]
        ensures { result.now ≡ property_text self.now }
    {
        let Place { start, end, .. } = self.place;
        &self.text.as_slice()[start as usize..end as usize]
    }
}

/// A property with a text of its own, from the text of its parameters and its value.
fn copied(alloc: Global, params: &str, value: &str) -> Result<Property, NoMemory>
    requires { IsParamsText params.now }
    ensures { IfOk result (λ property. property ≡ record { params = params_in params.now; value = value.now }) }
{
    let mut text = Vec::with_capacity(alloc, params.len() + value.len() + 1)?;
    let place = append(params, value, &mut text)?;
    let text = Arc::new(alloc, Bytes::new(text))?;
    Ok(Property { text, place })
}

impl Clone for Property {
    ghost is_clone = { λ property copy. copy ≡ property };

    fn clone(&self) -> Result<Property, NoMemory> {
        Property::at(&self.text, self.place)
    }
}

impl PartialEq for Property {
    ghost eq = { on property_text (pointwise nat_eq) };

    ghost laws = { Prim.search (comparing, rules) };

    fn eq(&self, other: &Self) -> bool {
        self.octets() == other.octets()
    }
}

impl fmt::Debug for Property {
    fn fmt<W: fmt::Write>(&self, f: &mut fmt::Formatter<W>) -> fmt::Result {
        f.debug_struct("Property")
            .field("params", &self.params())
            .field("value", &self.value())
            .finish()
    }
}
