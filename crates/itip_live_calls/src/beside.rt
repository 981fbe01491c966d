//! A keeper that publishes batches one by one while eight passes list, each on a thread of its own.

use crate::error::CallError;
use crate::lists::{lists, revision};
use crate::texts::window;
use crate::watch::Watch;
use itip_running::{Keeper, Pass, meet, start_desk};
use itip_view::Window;
use std::alloc::{AllocError, Global};
use std::sync::Wait;
use std::thread;
use std::thread::{Threads, join_mut};

/// How many passes there are.
const PASSES: usize = 8;

/// Publishes `batches` batches beside eight passes, and tells how many were published, and how many passes saw what they had to.
pub(crate) fn beside<R: AllocGlobal + Threads + Wait + Sync>(
    rt: &R,
    batches: u64,
) -> Result<Vec<u8>, CallError> {
    let lists = lists(rt.alloc(), batches, window()?)?;
    let (published, right) = counts(rt, &lists, window()?)?;
    Ok(format!(in rt.alloc();
        "published {published}, passes that saw beginnings, and then all: {right}"
    )?.into_bytes())
}

/// How many batches were published, and how many passes saw what they had to.
fn counts<R: AllocGlobal + Threads + Wait + Sync>(
    rt: &R,
    lists: &[Vec<u8>],
    window: Window,
) -> Result<(u64, usize), CallError> {
    let (mut keeper, passes) = start_desk(rt, PASSES)?;
    let right = publish_beside(rt, &mut keeper, passes, lists, window);
    let published = meet(rt, keeper, Vec::new(rt.alloc()))?.published;
    Ok((published, right?))
}

/// How many passes saw what they had to.
fn publish_beside<R: AllocGlobal + Threads + Wait + Sync>(
    rt: &R,
    keeper: &mut Keeper,
    passes: Vec<Pass>,
    lists: &[Vec<u8>],
    window: Window,
) -> Result<usize, CallError> {
    let mut watches = watches(rt.alloc(), passes)?;
    let batches = (lists.len() as u64).saturating_sub(1);
    let (published, ()) = join_mut(
        rt,
        &mut || publish_all(rt, keeper, batches),
        &mut || watch_all(rt, &mut watches, lists, window),
    );
    published?;
    Ok(count_right(&mut watches, lists, window))
}

fn watches(alloc: Global, passes: Vec<Pass>) -> Result<Vec<Watch>, AllocError> {
    let mut watches = Vec::new(alloc);
    for pass in passes {
        watches.push(Watch::new(pass))?;
    }
    Ok(watches)
}

fn publish_all<R: AllocGlobal + Wait>(
    rt: &R,
    keeper: &mut Keeper,
    batches: u64,
) -> Result<(), CallError> {
    for number in 0..batches {
        let batch = revision(rt.alloc(), number)?;
        keeper.submit(batch).map_err(|_| CallError::NoMemory)?;
        keeper.publish(rt)?;
    }
    Ok(())
}

fn watch_all<R: Threads + Sync>(rt: &R, watches: &mut [Watch], lists: &[Vec<u8>], window: Window) {
    thread::for_each_mut(
        rt,
        watches,
        PASSES,
        &|_, watch| { watch.look_on(lists, window) },
    );
}

fn count_right(watches: &mut [Watch], lists: &[Vec<u8>], window: Window) -> usize {
    let mut right = 0usize;
    for watch in watches {
        if watch.ends_well(lists, window) {
            right = right.saturating_add(1);
        }
    }
    right
}
