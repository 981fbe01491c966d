//! The properties directly in the VCALENDAR, and each VTODO with its own.
ghost use Rattle.std.specs.Prelude.{◌≡◌, List, IfOk, OnOk};
ghost use Rattle.itip_message.specs.Frame.{calendar_lines, todos};
ghost use Rattle.itip_message.specs.declared.frame.Placed.{Placed};
ghost use Rattle.itip_message.specs.Sorting.{Continues};

use crate::frame::Placed;
use itip_lines::{ListOf, NoMemory, NumberedLine};
use std::alloc::Global;

/// A VTODO directly in the VCALENDAR. No public function returns one; contracts of dependent crates speak of them.
#[derive(Drop)]
pub struct Component<'a> {
    /// The number of the line that begins it.
    pub begins: usize,
    /// The properties directly in it.
    pub lines: ListOf<NumberedLine<'a>>,
}

impl<'a> Component<'a> {
    ghost use Rattle.std.specs.Prelude.{◌≡◌};
    ghost use Rattle.itip_message.specs.Frame.{begun, with_line};

    fn begun(alloc: Global, number: usize) -> Component<'a>
        ensures { result ≡ begun number }
    {
        Component {
            begins: number,
            lines: ListOf::new(alloc),
        }
    }

    fn with_line(self, line: NumberedLine<'a>) -> Result<Component<'a>, NoMemory>
        ensures { IfOk result (λ component. component ≡ with_line self.entry line.entry) }
    {
        let mut lines = self.lines.into_vec();
        lines.push(line)?;
        Ok(Component {
            begins: self.begins,
            lines: ListOf::from_vec(lines),
        })
    }
}

/// The lines sorted so far.
#[derive(Drop)]
pub(crate) struct Sorted<'a> {
    /// The properties directly in the VCALENDAR.
    pub calendar: Vec<NumberedLine<'a>>,
    /// Each VTODO but the last.
    pub closed: Vec<Component<'a>>,
    /// The last VTODO.
    pub open: Option<Component<'a>>,
}

/// Sorts placed lines into those of the VCALENDAR and its VTODOs.
pub(crate) fn sort<'a>(
    alloc: Global,
    placed: Vec<Placed<'a>>,
) -> Result<(Vec<NumberedLine<'a>>, Vec<Component<'a>>), NoMemory>
    ensures { IfOk result (λ sorted. (sorted.0.items ≡ calendar_lines placed.entry.items) × (sorted.1.items ≡ todos placed.entry.items)) }
{
    let mut sorted = Sorted {
        calendar: Vec::new(alloc),
        closed: Vec::new(alloc),
        open: None,
    };
    for place in placed {
        put(alloc, &mut sorted, place)?;
    }
    let Sorted {
        calendar,
        mut closed,
        open,
    } = sorted;
    if let Some(component) = open {
        closed.push(component)?;
    }
    Ok((calendar, closed))
}

/// Sorts one more line.
fn put<'a>(alloc: Global, sorted: &mut Sorted<'a>, placed: Placed<'a>) -> Result<(), NoMemory>
    ensures { OnOk result ((rest : List Placed) → Continues sorted.old sorted.new placed.entry rest) }
{
    match placed {
        Placed::CalendarLine(line) => sorted.calendar.push(line)?,
        Placed::TodoBegins(number) => {
            if let Some(component) = sorted.open.replace(Component::begun(alloc, number)) {
                sorted.closed.push(component)?;
            }
        }
        Placed::TodoLine(line) => {
            if let Some(component) = sorted.open.take() {
                sorted.open = Some(component.with_line(line)?);
            }
        }
    }
    Ok(())
}
