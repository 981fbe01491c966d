//! Ascending lists of items, merged in ranges. The lists are cut at a common pivot; what is before it is merged on one thread while the
//! rest is merged on another, and the results are put side by side.
ghost use Rattle.std.specs.Prelude.{◌<◌, ◌≤◌, All, HoldsAt, IfOk, MatchOption, length};
ghost use Rattle.std.specs.List.{IsFirstMaxByKey};
ghost use Rattle.std.specs.Thread.{IsSync};
ghost use Rattle.itip_items.specs.declared.item.Item.{Item};
ghost use Rattle.itip_state.specs.Kept.{IsItemsOf};
ghost use Rattle.itip_desk.specs.Octets.{AscendOctets};
ghost use Rattle.itip_inbox.specs.Ranges.{AreCut, EachAscends, IsCut, items_in};
ghost use Rattle.itip_inbox.specs.declared.merged_ranges.TheConstants.{LEAST};

use itip_state::{SharedItem, by_octets};
use std::alloc::AllocError;
use std::thread::{Threads, join};

// The fewest items of the longest list that are worth a thread.
const LEAST: usize = 64;

/// Lists of items, cut in two.
#[derive(Drop)]
struct Halves {
    /// What is before the pivot.
    fronts: Vec<Vec<SharedItem>>,
    /// The rest.
    backs: Vec<Vec<SharedItem>>,
}

/// The items of ascending lists, sorted by canonical bytes, each once, on up to `threads` threads. If an allocation fails, they are
/// dropped.
#[cycle(merges)]
pub(crate) fn merged<R: Threads + Sync>(
    rt: &R,
    lists: Vec<Vec<SharedItem>>,
    threads: usize,
) -> Result<Vec<SharedItem>, AllocError>
    requires { EachAscends lists.items }
    ensures { IfOk result (λ items. IsItemsOf items.items (items_in lists.items)) }
{
    if threads < 2 {
        return in_one(lists);
    }
    let Some(place) = longest(lists.as_slice()) else {
        return in_one(lists);
    };
    let half = threads / 2;
    let rest = threads - half;
    let Halves { fronts, backs } = halved(lists, place, half, threads)?;
    let left = move || -> Result<Vec<SharedItem>, AllocError>
        requires { IsSync R.row × EachAscends fronts.items }
        ensures { IfOk result (λ items. IsItemsOf items.items (items_in fronts.items)) }
    { merged(rt, fronts, half) };
    let right = move || -> Result<Vec<SharedItem>, AllocError>
        requires { IsSync R.row × EachAscends backs.items }
        ensures { IfOk result (λ items. IsItemsOf items.items (items_in backs.items)) }
    { merged(rt, backs, rest) };
    let (first, second) = join(rt, left, right);
    let mut items = first?;
    let mut others = second?;
    items.append(&mut others)?;
    Ok(items)
}

/// The items of ascending lists, sorted by canonical bytes, each once. If an allocation fails, they are dropped.
fn in_one(lists: Vec<Vec<SharedItem>>) -> Result<Vec<SharedItem>, AllocError>
    requires { EachAscends lists.items }
    ensures { IfOk result (λ items. IsItemsOf items.items (items_in lists.items)) }
{
    let mut others = lists;
    let Some(mut items) = others.pop() else {
        return Ok(Vec::new(*others.allocator()));
    };
    if others.is_empty() {
        return Ok(items);
    }
    for mut list in others {
        items.append(&mut list)?;
    }
    by_octets(items)
}

/// The place of the first longest list, or `None` if all are too short to be cut.
fn longest(lists: &[Vec<SharedItem>]) -> Option<usize>
    ensures { MatchOption result (All (λ list. length list.items < LEAST) lists.now)
        (λ place. IsFirstMaxByKey (λ list. length list.items) lists.now (length lists.now) place
        × HoldsAt (λ list. LEAST ≤ length list.items) lists.now place) }
{
    if lists.is_empty() {
        return None;
    }
    let mut longest = 0;
    for place in 1..lists.len() {
        if lists[longest].len() < lists[place].len() {
            longest = place;
        }
    }
    (lists[longest].len() >= LEAST).then_some(longest)
}

/// Cuts ascending lists at an item of the list at `place`: of its `threads` parts, `half` are before that item.
fn halved(
    lists: Vec<Vec<SharedItem>>,
    place: usize,
    half: usize,
    threads: usize,
) -> Result<Halves, AllocError>
    requires ascend { EachAscends lists.items }
    requires place { place < length lists.items }
    requires some { HoldsAt (λ list. 0 < length list.items) lists.items place }
    requires half { half < threads }
    ensures { IfOk result (λ halves. (pivot : Item) × AreCut pivot lists.items halves.fronts.items halves.backs.items) }
{
    let mut others = lists;
    let mut front = others.swap_remove(place);
    let back = front.split_off(front.len() / threads * half)?;
    let Halves {
        mut fronts,
        mut backs,
    } = cut(others, &back[0])?;
    fronts.push(front)?;
    backs.push(back)?;
    Ok(Halves { fronts, backs })
}

/// Cuts ascending lists at a pivot.
fn cut(lists: Vec<Vec<SharedItem>>, pivot: &SharedItem) -> Result<Halves, AllocError>
    requires { EachAscends lists.items }
    ensures { IfOk result (λ halves. AreCut pivot.now lists.items halves.fronts.items halves.backs.items) }
{
    let alloc = *lists.allocator();
    let mut fronts = Vec::new(alloc);
    let mut backs = Vec::new(alloc);
    for mut list in lists {
        let back = cut_off(&mut list, pivot)?;
        fronts.push(list)?;
        backs.push(back)?;
    }
    Ok(Halves { fronts, backs })
}

/// Takes the items that are not before a pivot off an ascending list.
fn cut_off(list: &mut Vec<SharedItem>, pivot: &SharedItem) -> Result<Vec<SharedItem>, AllocError>
    requires { AscendOctets list.old.items }
    ensures { IfOk result (λ rest. IsCut pivot.now list.old.items list.new.items rest.items) }
{
    let at = list.partition_point(|item| item < pivot);
    list.split_off(at)
}
