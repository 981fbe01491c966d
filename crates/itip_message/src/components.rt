//! The to-dos of a message.
ghost use Rattle.std.specs.Prelude.{IfOk, IfErr};
ghost use Rattle.itip_message.specs.Message.{IfRefused, ReadsComponent, RefusesComponent, AreComponents, FirstRefused};

use crate::cause_lines::line_of_cause;
use crate::error::{MessageCause, MessageRefusal, ReadError, todo_gives};
use crate::sort::Component;
use itip_items::{Method, method_cause};
use itip_todo::{Todo, read_todo};
use std::alloc::Global;

/// The to-dos of these components in order, or the refusal of the first that is refused.
pub(crate) fn read_components(
    alloc: Global,
    method: Method,
    components: &[Component<'_>],
) -> Result<Vec<Todo>, ReadError>
    ensures found { IfOk result (λ all. AreComponents method components.now all.items) }
    ensures fault { IfErr result (λ e. IfRefused e (FirstRefused method 1 components.now)) }
{
    let mut all = Vec::with_capacity(alloc, components.len())?;
    for (at, component) in components.iter().enumerate() {
        all.push(read_component(alloc, method, at + 1, component)?)?;
    }
    Ok(all)
}

/// The to-do of a component, if it is what the method needs. `number` is that of the to-do, from 1.
fn read_component(
    alloc: Global,
    method: Method,
    number: usize,
    component: &Component<'_>,
) -> Result<Todo, ReadError>
    ensures found { IfOk result (ReadsComponent method component.now) }
    ensures fault { IfErr result (λ e. IfRefused e (RefusesComponent method number component.now)) }
{
    let lines = component.lines.as_slice();
    let todo = match read_todo(alloc, lines) {
        Ok(todo) => todo,
        Err(error) => return Err(todo_gives(number, error)),
    };
    match method_cause(method, &todo) {
        Some(cause) => Err(ReadError::Refused(MessageRefusal {
            cause: MessageCause::Misfit(cause),
            todo: Some(number),
            line: line_of_cause(cause, lines),
        })),
        None => Ok(todo),
    }
}
