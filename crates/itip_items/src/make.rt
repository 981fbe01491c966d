//! The items of a message's to-dos.
ghost use Rattle.std.specs.Prelude.{◌≡◌, ◌≢◌, ◌≤◌, ◌∷◌, [], map, true, false, IfOk, IfErr, OnOk};
ghost use Rattle.std.specs.List.{AllByRecursion};
ghost use Rattle.std.specs.Option.{option_map};
ghost use Rattle.itip_moment.specs.declared.moment.Moment.{Moment};
ghost use Rattle.itip_todo.specs.Lawful.{IsLawful};
ghost use Rattle.itip_todo.specs.PartsOf.{parts_of};
ghost use Rattle.itip_items.specs.MethodNeeds.{Suits};
ghost use Rattle.itip_items.specs.Items.{drafts, drafts_of, kind_of, raised, task_draft, series_draft, add_drafts, instance_draft};
ghost use Rattle.itip_items.specs.Items.{instance_key, attendee_draft, canonical_base, is_task, Sends, IsCanonical};
ghost use Rattle.itip_items.specs.Items.{kept_with, IsFrontOf};
ghost use Rattle.itip_items.specs.Given.{GivesItems, IsOver, IfLarge, IfTooLarge, FirstOver, drafts_each, Adds, Gives};
ghost use Rattle.itip_items.specs.declared.kind.Kind.TheVariants as kinds;
ghost use Rattle.itip_items.specs.declared.kind.Method.TheVariants as methods;

use crate::attendee_item::{key_of, only_of, shared_front};
use crate::canonical::{finish_behind, finish_item};
use crate::error::{FormError, ItemError};
use crate::item::Item;
use crate::key::Key;
use crate::kind::{Kind, Method};
use crate::octets::Front;
use crate::sequences::{kind_of, sequence_in, series_sequences};
use itip_lines::NoMemory;
use itip_moment::Moment;
use itip_todo::{Property, Todo, Uid};
use std::alloc::Global;

/// Makes the items of a message's to-dos, ordered by to-do and then by ATTENDEE line.
///
/// Returns [`FormError::TooLarge`] if a canonical form is too large, with the number, from 1, of the first to-do that has one.
pub fn make_items(alloc: Global, method: Method, all: Vec<Todo>) -> Result<Vec<Item>, FormError>
    requires { AllByRecursion (Suits method) (map parts_of all.items) }
    ensures found { IfOk result (λ items. GivesItems (drafts method (map parts_of all.items)) items.items) }
    ensures large { IfErr result (λ e. IfTooLarge e (FirstOver 1 (drafts_each method (map parts_of all.items) (map parts_of all.items)))) }
{
    let items = Vec::with_capacity(alloc, all.len())?;
    if all.len() > 1 {
        return make_several(alloc, method, all, items);
    }
    let mut all = all;
    match all.pop() {
        Some(todo) => make_alone(alloc, method, todo, items),
        None => Ok(items),
    }
}

/// Makes the items of a message's only to-do, whose effective sequence no other raises. `items` is empty.
fn make_alone(
    alloc: Global,
    method: Method,
    todo: Todo,
    mut items: Vec<Item>,
) -> Result<Vec<Item>, FormError>
    requires suits { Suits method (parts_of todo) }
    requires empty { items.items ≡ [] }
    ensures found { IfOk result (λ items. GivesItems (drafts method (parts_of todo ∷ [])) items.items) }
    ensures large { IfErr result (λ e. IfTooLarge e (FirstOver 1 (drafts_each method (parts_of todo ∷ []) (parts_of todo ∷ [])))) }
{
    match add_items(alloc, method, 0, todo, &mut items) {
        Ok(()) => Ok(items),
        Err(error) => Err(error.of_todo(1)),
    }
}

/// Makes the items of several to-dos, as [`make_items`] does. `items` is empty.
fn make_several(
    alloc: Global,
    method: Method,
    all: Vec<Todo>,
    mut items: Vec<Item>,
) -> Result<Vec<Item>, FormError>
    requires suits { AllByRecursion (Suits method) (map parts_of all.items) }
    requires empty { items.items ≡ [] }
    ensures found { IfOk result (λ items. GivesItems (drafts method (map parts_of all.items)) items.items) }
    ensures large { IfErr result (λ e. IfTooLarge e (FirstOver 1 (drafts_each method (map parts_of all.items) (map parts_of all.items)))) }
{
    let greatest = series_sequences(alloc, method, &all)?;
    let count = all.len();
    let mut left = count;
    for todo in all {
        let above = sequence_in(&greatest, &todo.uid);
        if let Err(error) = add_items(alloc, method, above, todo, &mut items) {
            return Err(error.of_todo(count - left + 1));
        }
        left -= 1;
    }
    Ok(items)
}

/// Appends the items of one to-do. `above` is the greatest SEQUENCE of the series to-dos of its UID in the message, or 0 if it is the
/// only to-do.
fn add_items(
    alloc: Global,
    method: Method,
    above: u32,
    todo: Todo,
    items: &mut Vec<Item>,
) -> Result<(), ItemError>
    requires { Suits method (parts_of todo) × (above ≤ 2147483647) }
    ensures found { OnOk result (Adds (drafts_of (kind_of method (parts_of todo)) (raised (parts_of todo) above) (parts_of todo))
        items.old.items items.new.items) }
    ensures large { IfErr result (λ e. IfLarge e
        (IsOver (drafts_of (kind_of method (parts_of todo)) (raised (parts_of todo) above) (parts_of todo)))) }
{
    let kind = kind_of(method, &todo);
    match kind {
        Kind::Request | Kind::Cancel => {
            items.push(task_item(alloc, kind, above, todo)?)?;
            Ok(())
        }
        Kind::Add => add_instance(alloc, above, todo, items),
        Kind::Remove | Kind::Reply | Kind::Refresh => {
            let added = add_attendees(alloc, kind, &todo, items);
            drop(todo);
            added
        }
    }
}

/// Appends the item of the instance that DTSTART names.
fn add_instance(
    alloc: Global,
    above: u32,
    todo: Todo,
    items: &mut Vec<Item>,
) -> Result<(), ItemError>
    requires { Suits methods.Add (parts_of todo) × (above ≤ 2147483647) }
    ensures found { OnOk result (Adds (add_drafts (raised (parts_of todo) above) todo.start (parts_of todo))
        items.old.items items.new.items) }
    ensures large { IfErr result (λ e. IfLarge e (IsOver (add_drafts (raised (parts_of todo) above) todo.start (parts_of todo)))) }
{
    match started_key(&todo) {
        Ok(Some(key)) => {
            items.push(instance_item(alloc, Kind::Add, key, above, todo)?)?;
            Ok(())
        }
        Ok(None) => {
            drop(todo);
            Ok(())
        }
        Err(refused) => {
            drop(todo);
            Err(refused.into())
        }
    }
}

/// The key of the instance that DTSTART names, or `None` without DTSTART.
fn started_key(todo: &Todo) -> Result<Option<Key>, NoMemory>
    ensures { IfOk result (λ key. key ≡ option_map (instance_key false todo.now.uid) todo.now.start) }
{
    match &todo.start {
        Some(start) => Ok(Some(instance_key(false, &todo.uid, start)?)),
        None => Ok(None),
    }
}

/// Makes the item of the series, or of the instance that RECURRENCE-ID names, or of it and all after it.
fn task_item(alloc: Global, kind: Kind, above: u32, todo: Todo) -> Result<Item, ItemError>
    requires { Sends kind (parts_of todo) × (is_task kind ≡ true) × (above ≤ 2147483647) }
    ensures found { IfOk result (Gives (task_draft kind (raised (parts_of todo) above) todo.rid (parts_of todo))) }
    ensures large { IfErr result (λ e. IfLarge e (IsOver (task_draft kind (raised (parts_of todo) above) todo.rid (parts_of todo) ∷ []))) }
{
    match named_key(&todo) {
        Ok(Some(key)) => instance_item(alloc, kind, key, above, todo),
        Ok(None) => series_item(alloc, kind, todo),
        Err(refused) => {
            drop(todo);
            Err(refused.into())
        }
    }
}

/// The key of the instance that RECURRENCE-ID names, or of it and all after it, or `None` without RECURRENCE-ID.
fn named_key(todo: &Todo) -> Result<Option<Key>, NoMemory>
    ensures { IfOk result (λ key. key ≡ option_map (instance_key todo.now.range todo.now.uid) todo.now.rid) }
{
    match &todo.rid {
        Some(id) => Ok(Some(instance_key(todo.range, &todo.uid, id)?)),
        None => Ok(None),
    }
}

/// Makes the item of the series. It has no X-DESK-BASE.
fn series_item(alloc: Global, kind: Kind, todo: Todo) -> Result<Item, ItemError>
    requires { IsCanonical (series_draft kind (parts_of todo)) }
    ensures found { IfOk result (Gives (series_draft kind (parts_of todo))) }
    ensures large { IfErr result (λ e. IfLarge e (IsOver (series_draft kind (parts_of todo) ∷ []))) }
{
    match todo.uid.clone() {
        Ok(uid) => {
            let mut todo = todo;
            todo.base = None;
            finish_item(alloc, kind, Key::Series(uid), todo.seq, todo)
        }
        Err(refused) => {
            drop(todo);
            Err(refused.into())
        }
    }
}

/// The key of an instance, or with `range` of it and all after it.
fn instance_key(range: bool, uid: &Uid, id: &Moment) -> Result<Key, NoMemory>
    ensures { IfOk result (λ key. key ≡ instance_key range uid.now id.now) }
{
    let uid = uid.clone()?;
    let id = id.clone()?;
    if range {
        Ok(Key::Range(uid, id))
    } else {
        Ok(Key::Instance(uid, id))
    }
}

/// Makes the item of an instance, or of it and all after it. X-DESK-BASE gets its canonical form.
fn instance_item(
    alloc: Global,
    kind: Kind,
    key: Key,
    above: u32,
    todo: Todo,
) -> Result<Item, ItemError>
    requires { IsCanonical (instance_draft kind (raised (parts_of todo) above) key (parts_of todo)) × (above ≤ 2147483647) }
    ensures found { IfOk result (Gives (instance_draft kind (raised (parts_of todo) above) key (parts_of todo))) }
    ensures large { IfErr result (λ e. IfLarge e (IsOver (instance_draft kind (raised (parts_of todo) above) key (parts_of todo) ∷ []))) }
{
    let eff = raised(&todo, above);
    let mut todo = todo;
    todo.base = canonical_base(todo.seq, eff);
    finish_item(alloc, kind, key, eff, todo)
}

/// The greatest of a to-do's SEQUENCE, its X-DESK-BASE, and `above`.
fn raised(todo: &Todo, above: u32) -> u32
    ensures { result ≡ raised (parts_of todo.now) above }
{
    todo.seq.max(todo.base.unwrap_or(0).max(above))
}

/// X-DESK-BASE in canonical form: the effective sequence, if it exceeds the own one.
fn canonical_base(own: u32, eff: u32) -> Option<u32>
    ensures { result ≡ canonical_base own eff }
{
    (own < eff).then_some(eff)
}

/// Appends one item for each ATTENDEE line. The octets of several share their common front.
fn add_attendees(
    alloc: Global,
    kind: Kind,
    todo: &Todo,
    items: &mut Vec<Item>,
) -> Result<(), ItemError>
    requires { Sends kind (parts_of todo.now) × (is_task kind ≡ false) × (kind ≢ kinds.Add) }
    ensures found { OnOk result (Adds (map (attendee_draft kind (parts_of todo.now)) todo.now.attendees) items.old.items items.new.items) }
    ensures large { IfErr result (λ e. IfLarge e (IsOver (map (attendee_draft kind (parts_of todo.now)) todo.now.attendees))) }
{
    let front = shared_front(alloc, kind, todo)?;
    for attendee in todo.attendees.as_slice() {
        items.push(attendee_item(alloc, &front, kind, todo, attendee)?)?;
    }
    Ok(())
}

/// Makes the item of one attendee, with what [`only_of`] keeps of the to-do. Its octets share the front, if there is one.
fn attendee_item(
    alloc: Global,
    front: &Option<Front>,
    kind: Kind,
    todo: &Todo,
    attendee: &Property,
) -> Result<Item, ItemError>
    requires { IsCanonical (attendee_draft kind (parts_of todo.now) attendee.now)
        × IsLawful (attendee_draft kind (parts_of todo.now) attendee.now).parts
        × IsFrontOf kind (kept_with [] (parts_of todo.now)) front.now }
    ensures found { IfOk result (Gives (attendee_draft kind (parts_of todo.now) attendee.now)) }
    ensures large { IfErr result (λ e. IfLarge e (IsOver (attendee_draft kind (parts_of todo.now) attendee.now ∷ []))) }
{
    let key = key_of(alloc, kind, todo, attendee)?;
    match only_of(alloc, attendee, todo) {
        Ok(only) => finish_behind(alloc, front, kind, key, only),
        Err(refused) => {
            drop(key);
            Err(refused.into())
        }
    }
}
