//! Taking one more line of a to-do.
ghost use Rattle.std.specs.Prelude.{OnOk, IfErr};
ghost use Rattle.itip_todo.specs.Drafts.{Takes, Refuses};
ghost use Rattle.itip_todo.specs.Causes.{IfCause};
ghost use Rattle.itip_todo.specs.Table.{property_of};

use crate::draft::Draft;
use crate::error::CauseError;
use crate::list::{add_attendee, add_exdate, add_other, add_rdate, add_rule};
use crate::property_name::PropertyName;
use crate::single::{
    add_base, add_due, add_organizer, add_percent, add_priority, add_rid, add_seq, add_stamp,
    add_start, add_status, add_summary, add_uid,
};
use itip_lines::SeenLine;
use std::alloc::Global;

/// Takes one more line into a draft.
pub(crate) fn add_line(
    alloc: Global,
    draft: &mut Draft,
    line: &SeenLine<'_>,
) -> Result<(), CauseError>
    ensures taken { OnOk result (Takes (property_of line.now) line.now draft.old draft.new) }
    ensures cause { IfErr result (λ e. IfCause e (Refuses (property_of line.now) line.now draft.old)) }
{
    match PropertyName::of_line(line) {
        PropertyName::Uid => add_uid(alloc, draft, line),
        PropertyName::DtStamp => add_stamp(draft, line),
        PropertyName::Sequence => add_seq(draft, line),
        PropertyName::DeskBase => add_base(draft, line),
        PropertyName::RecurrenceId => add_rid(alloc, draft, line),
        PropertyName::DtStart => add_start(alloc, draft, line),
        PropertyName::Due => add_due(alloc, draft, line),
        PropertyName::Status => add_status(draft, line),
        PropertyName::PercentComplete => add_percent(draft, line),
        PropertyName::Priority => add_priority(draft, line),
        PropertyName::Summary => add_summary(alloc, draft, line),
        PropertyName::Organizer => add_organizer(alloc, draft, line),
        PropertyName::Attendee => add_attendee(alloc, draft, line),
        PropertyName::RRule => add_rule(draft, line),
        PropertyName::RDate => add_rdate(alloc, draft, line),
        PropertyName::ExDate => add_exdate(alloc, draft, line),
        PropertyName::Others => add_other(draft, line),
    }
}
