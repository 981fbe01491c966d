//! From the draft of all lines to the to-do.
ghost use Rattle.std.specs.Prelude.{◌≡◌, [], ℕ, List, None, Some, IfOk, OnOk, IfErr};
ghost use Rattle.itip_todo.specs.declared.property_name.PropertyName.TheVariants as name;
ghost use Rattle.std.specs.BTreeSet.{IsOrdered};
ghost use Rattle.itip_lines.specs.declared.line.Line.{Line};
ghost use Rattle.itip_moment.specs.Order.{moment_cmp};
ghost use Rattle.itip_todo.specs.Drafts.{IsDraftOf, IsLawfulDraft};
ghost use Rattle.itip_todo.specs.Reading.{IfRefused, AreGood, ReadsTodo, LacksProperty, lines_of, missing};

use crate::collected::Collected;
use crate::draft::Draft;
use crate::error::{TodoCause, TodoError, TodoRefusal};
use crate::property::Property;
use crate::property_name::PropertyName;
use crate::todo::Todo;
use crate::uid::Uid;
use itip_lines::{LineList, ListOf, NoMemory, TextList};
use itip_moment::{Moment, Stamp};
use std::alloc::Global;
use std::collections::BTreeSet;

/// The to-do of a draft. Refused if it has no UID, or else no DTSTAMP.
pub(crate) fn finish(alloc: Global, draft: Draft) -> Result<Todo, TodoError>
    requires lawful { IsLawfulDraft draft }
    ensures found { IfOk result (λ todo. (lines : List Line) → AreGood [] lines → IsDraftOf (lines_of lines) draft → ReadsTodo lines todo) }
    ensures refused { IfErr result (λ e. IfRefused e (λ refusal. (lines : List Line)
        → AreGood [] lines → IsDraftOf (lines_of lines) draft → LacksProperty lines refusal)) }
{
    let needed = values_of(
        alloc,
        draft.uid,
        draft.stamp,
        draft.attendees,
        draft.rdates,
        draft.exdates,
        draft.rule,
        draft.others,
    )?;
    Ok(Todo {
        uid: needed.uid,
        stamp: needed.stamp,
        seq: draft.seq.unwrap_or(0),
        base: draft.base,
        rid: draft.rid,
        range: draft.range,
        start: draft.start,
        due: draft.due,
        status: draft.status,
        percent: draft.percent,
        priority: draft.priority,
        summary: draft.summary,
        organizer: draft.organizer,
        attendees: needed.attendees,
        rule: needed.rule,
        rdates: needed.rdates,
        exdates: needed.exdates,
        others: needed.others,
    })
}

/// What a to-do has to have, its sets of moments in ascending order, and its lists that are stored in one text each.
#[derive(Drop)]
struct Needed {
    uid: Uid,
    stamp: Stamp,
    attendees: ListOf<Property>,
    rdates: ListOf<Moment>,
    exdates: ListOf<Moment>,
    rule: TextList,
    others: LineList,
}

fn values_of(
    alloc: Global,
    uid: Option<Uid>,
    stamp: Option<Stamp>,
    attendees: Collected,
    rdates: BTreeSet<Moment>,
    exdates: BTreeSet<Moment>,
    rule: TextList,
    others: LineList,
) -> Result<Needed, TodoError>
    ensures uid { IfOk result (λ needed. uid ≡ Some needed.uid) }
    ensures stamp { IfOk result (λ needed. stamp ≡ Some needed.stamp) }
    ensures attendees { IfOk result (λ needed. needed.attendees ≡ attendees) }
    ensures rdates { IfOk result (λ needed. needed.rdates ≡ rdates.keys) }
    ensures exdates { IfOk result (λ needed. needed.exdates ≡ exdates.keys) }
    ensures rule { IfOk result (λ needed. needed.rule ≡ rule) }
    ensures others { IfOk result (λ needed. needed.others ≡ others) }
    ensures ordered { OnOk result (IsOrdered moment_cmp rdates × IsOrdered moment_cmp exdates) }
    ensures no_uid { IfErr result (λ e. uid ≡ None → IfRefused e (λ refusal. refusal ≡ missing name.Uid)) }
    ensures no_stamp { IfErr result (λ e. (text : List ℕ) → uid ≡ Some text
        → IfRefused e (λ refusal. (refusal ≡ missing name.DtStamp) × (stamp ≡ None))) }
{
    let uid = present(uid, PropertyName::Uid)?;
    let stamp = present(stamp, PropertyName::DtStamp)?;
    let attendees = attendees.into_list(alloc)?;
    let rdates = sorted_moments(alloc, rdates)?;
    let exdates = sorted_moments(alloc, exdates)?;
    let rule = rule.exact();
    let others = others.exact();
    Ok(Needed {
        uid,
        stamp,
        attendees,
        rdates,
        exdates,
        rule,
        others,
    })
}

/// The moments of a set, in ascending order.
fn sorted_moments(alloc: Global, set: BTreeSet<Moment>) -> Result<ListOf<Moment>, NoMemory>
    ensures list { IfOk result (λ list. list ≡ set.keys) }
    ensures ordered { OnOk result (IsOrdered moment_cmp set) }
{
    Ok(ListOf::exact(set.into_iter().collect(alloc)?))
}

fn present<T>(field: Option<T>, property: PropertyName) -> Result<T, TodoError>
    ensures some { IfOk result (λ value. field ≡ Some value) }
    ensures refused { IfErr result (λ e. IfRefused e (λ refusal. (refusal ≡ missing property) × (field ≡ None))) }
{
    field.ok_or(TodoError::Refused(TodoRefusal {
        cause: TodoCause::Missing(property),
        line: None,
    }))
}
