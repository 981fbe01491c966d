//! Properties that are collected into one text.
ghost use Rattle.std.specs.Prelude.{◌≡◌, ◌++◌, ◌∷◌, [], map, length, IfOk, OnOk};
ghost use Rattle.std.specs.Arc.{arc_value};
ghost use Rattle.std.specs.List.{AllByRecursion};
ghost use Rattle.itip_todo.specs.Places.{property_at, IsPlaceIn};

use crate::place::{Place, append};
use crate::property::Property;
use itip_lines::{Bytes, ListOf, NoMemory, SeenLine};
use std::alloc::Global;
use std::marker::Model;
use std::sync::Arc;

/// Properties in order, stored in one text: each takes its own octets and a fixed number more.
#[derive(Drop)]
pub(crate) struct Collected {
    text: Vec<u8>,
    places: Vec<Place>,
}

impl Model for Collected {
    ghost use Rattle.std.specs.Prelude.{List, map};
    ghost use Rattle.std.specs.Coded.{coded_list};
    ghost use Rattle.itip_todo.specs.Properties as plain;

    ghost Value = { List plain.Property };

    ghost coded = { coded_list plain.property_code };

    ghost use Rattle.std.specs.List.{AllByRecursion};
    ghost use Rattle.itip_todo.specs.Places.{property_at, IsPlaceIn};

    ghost view = { λ c. map (property_at c.text.items) c.places.items };

    ghost invariant = { λ c. AllByRecursion (IsPlaceIn c.text.items) c.places.items };
}

impl Collected {
    /// No properties. Does not allocate.
    pub(crate) fn new(alloc: Global) -> Collected
        ensures { result ≡ [] }
    {
        Collected {
            text: Vec::new(alloc),
            places: Vec::new(alloc),
        }
    }

    /// The number of properties.
    pub(crate) fn len(&self) -> usize
        ensures { result ≡ length self.now }
    {
        self.places.len()
    }

    /// Appends the value of a line with its parameters.
    pub(crate) fn push(&mut self, line: &SeenLine<'_>) -> Result<(), NoMemory>
        ensures { OnOk result (self.new ≡ self.old ++ record { params = line.now.params; value = line.now.value } ∷ []) }
    {
        let place = append(line.params(), line.value(), &mut self.text)?;
        self.places.push(place)?;
        Ok(())
    }

    /// The properties, which share a text without spare capacity. Does not allocate if there are none.
    pub(crate) fn into_list(self, alloc: Global) -> Result<ListOf<Property>, NoMemory>
        ensures { IfOk result (λ list. list ≡ self) }
    {
        if self.places.is_empty() {
            return Ok(ListOf::new(alloc));
        }
        let text = Vec::from_slice(alloc, self.text.as_slice())?;
        let text = Arc::new(alloc, Bytes::new(text))?;
        shared(alloc, &text, self.places.as_slice())
    }
}

/// The properties at these places of a text, which they share.
fn shared(alloc: Global, text: &Arc<Bytes>, places: &[Place]) -> Result<ListOf<Property>, NoMemory>
    requires { AllByRecursion (IsPlaceIn (arc_value text.now)) places.now }
    ensures { IfOk result (λ list. list ≡ map (property_at (arc_value text.now)) places.now) }
{
    let mut properties = Vec::with_capacity(alloc, places.len())?;
    for place in places {
        properties.push(Property::at(text, *place)?)?;
    }
    Ok(ListOf::from_vec(properties))
}
