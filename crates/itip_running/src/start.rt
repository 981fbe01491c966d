//! Making a pair.
ghost use Rattle.std.specs.Prelude.{◌≡◌, ◌⊎◌, ◌≤◌, [], length, Some, IfOk, IfErr, All};
ghost use Rattle.left_right.specs.Sides.{view};
ghost use Rattle.itip_running.specs.Pair.{name_of};
ghost use Rattle.itip_running.specs.ContractViews.{publishes, pending, calls, fresh, keeper_pair, publishes_seen, pass_pair};

use crate::error::LiveError;
use crate::front::{Front, open};
use crate::history::History;
use crate::keeper::Keeper;
use crate::monotonic_reads::ReadEnd;
use crate::pair_protocol::{PublishedWriter, Sees, Tells};
use crate::pass::Pass;
use crate::published::Published;
use crate::write_end::WriteEnd;
use left_right::writer::Writer;
use std::alloc::Global;
use std::sync::Wait;

/// One pass of the pair, which knows which history it reads. Refused if the pair gives no place to a reader (41).
fn seat(alloc: Global, writer: &mut PublishedWriter, last: &Front) -> Result<Pass, LiveError>
    requires known { view writer.old.desk.place ≡ name_of last.now.seen.book }
    ensures writer { (writer.new.desk.shown ≡ writer.old.desk.shown) × (writer.new.log ≡ writer.old.log)
        × (writer.new.behind ≡ writer.old.behind) }
    ensures known { view writer.new.desk.place ≡ view writer.old.desk.place }
    ensures pass { IfOk result (λ p. (publishes_seen p ≡ last.now.seen.log) × (pass_pair p ≡ Some last.now.seen.book)) }
    ensures cause { IfErr result (λ e. e ≡ LiveError.NoPlace) }
{
    let mut reader = match writer.factory().reader() {
        Ok(reader) => reader,
        Err(_) => return Err(LiveError::NoPlace),
    };
    reader.learn::<Tells>(writer.tell::<Tells>());
    let end = ReadEnd {
        alloc,
        reader,
        front: last.again(),
    };
    Ok(Pass { end: Some(end) })
}

/// The passes of the pair. Refused if an allocation fails (40), or if the pair gives no place to a reader (41).
fn seats(
    alloc: Global,
    writer: &mut PublishedWriter,
    last: &Front,
    passes: usize,
) -> Result<Vec<Pass>, LiveError>
    requires known { view writer.old.desk.place ≡ name_of last.now.seen.book }
    ensures writer { (writer.new.desk.shown ≡ writer.old.desk.shown) × (writer.new.log ≡ writer.old.log)
        × (writer.new.behind ≡ writer.old.behind) }
    ensures count { IfOk result (λ ps. length ps.items ≡ passes) }
    ensures each { IfOk result (λ ps.
        All (λ p. (publishes_seen p ≡ last.now.seen.log) × (pass_pair p ≡ Some last.now.seen.book)) ps.items) }
    ensures causes { IfErr result (λ e. (e ≡ LiveError.NoMemory) ⊎ (e ≡ LiveError.NoPlace)) }
{
    let mut all = Vec::new(alloc);
    for _ in 0..passes {
        let pass = seat(alloc, writer, last)?;
        if all.push(pass).is_err() {
            return Err(LiveError::NoMemory);
        }
    }
    Ok(all)
}

/// Starts a desk that has heard nothing, at tick 0. Returns its keeper and its one to eight passes, which have seen nothing.
///
/// Fails with [`LiveError::NoMemory`] (40) if an allocation fails, and with [`LiveError::NoPlace`] (41) if the pair gives no place to a
/// reader. A pair that was made is taken apart first.
pub fn start_desk<R: AllocGlobal + Wait>(
    rt: &R,
    passes: usize,
) -> Result<(Keeper, Vec<Pass>), LiveError>
    requires passes { (1 ≤ passes) × (passes ≤ 8) }
    ensures keeper { IfOk result (λ r. (publishes r.0 ≡ []) × (pending r.0 ≡ [])) }
    ensures none_called { IfOk result (λ r. (calls r.0 ≡ []) × (fresh r.0 ≡ [])) }
    ensures count { IfOk result (λ r. length r.1.items ≡ passes) }
    ensures each { IfOk result (λ r. All (λ p. (publishes_seen p ≡ []) × (pass_pair p ≡ keeper_pair r.0)) r.1.items) }
    ensures causes { IfErr result (λ e. (e ≡ LiveError.NoMemory) ⊎ (e ≡ LiveError.NoPlace)) }
{
    let alloc = rt.alloc();
    let (head, last) = open();
    let first = Published::empty(alloc, &last);
    let second = Published::empty(alloc, &last);
    let writer: PublishedWriter = match Writer::new(alloc, first, second, passes) {
        Ok(writer) => writer,
        Err(_) => return Err(LiveError::NoMemory),
    };
    // The exchange tells the writer which history it is, so that it can tell readers.
    let (mut writer, done) = writer.publish_as::<Sees, R>(rt);
    match done {
        Ok(()) => {}
        Err(_) => {
            let _ = writer.take(rt);
            return Err(LiveError::NoMemory);
        }
    }
    let seated = seats(alloc, &mut writer, &last, passes);
    match seated {
        Ok(all) => {
            let end = WriteEnd {
                writer,
                head,
                last,
                fresh: History::empty(),
                pending: 0,
            };
            Ok((Keeper { end: Some(end) }, all))
        }
        Err(e) => {
            let _ = writer.take(rt);
            Err(e)
        }
    }
}
