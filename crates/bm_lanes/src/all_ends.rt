//! The end of all lanes.
ghost use Rattle.std.specs.Prelude.{◌≡◌, IfOk, Some};
ghost use Rattle.bm_session.specs.Trace.{was_taken};
ghost use Rattle.bm_store.specs.Book.{logs};
ghost use Rattle.bm_store.specs.Kept.{logs_in};
ghost use Rattle.bm_lanes.specs.Dealt.{given_back};
ghost use Rattle.bm_lanes.specs.Totals.{totals, AreTotals};

use crate::dealt_lanes::is_pushed;
use bm_build_queue::ViewerPool;
use bm_lane::{Ends, ReaderEnd, Settled, Viewer, WriterEnd, Yard, same_lane, settle};
use std::alloc::{AllocError, Global};
use std::sync::{Mutex, Wait};
use thiserror::Error;

/// How often it is tried to settle a lane where memory is wanting.
const TRIES: usize = 3;

/// Why a lane could not be settled.
#[derive(Clone, Copy, Debug, PartialEq, Eq, Error)]
pub enum SettleError {
    /// The ends are not those of one lane, or one of them is missing.
    #[error("not the ends of one lane")]
    Mixed,
    /// Memory is wanting.
    #[error("out of memory")]
    Mem,
}

/// Settles a lane whose ends are all there. Its trace is what its reader's end heard, and its book
/// has the logs of all of that.
pub fn settle_lane<Y: Yard, W: Wait + Drop, R: Wait>(
    rt: &R,
    alloc: Global,
    ends: Ends<Y, W>,
) -> Result<Settled, SettleError>
    ensures trace { IfOk result (λ s. s.trace.items ≡ ends.reader.trace) }
    ensures book { IfOk result (λ s. logs_in s.book ≡ logs ends.reader.trace) }
{
    let mut ends = ends;
    for _ in 0..TRIES {
        if !same_lane(&ends.reader, &ends.writer, ends.viewers.as_slice()) {
            return Err(SettleError::Mixed);
        }
        match settle(rt, alloc, ends) {
            Ok(settled) => return Ok(settled),
            Err((back, _)) => ends = back,
        }
    }
    Err(SettleError::Mem)
}

/// The viewers of a lane: those of the builds, and the web's.
fn whole<Y: Yard>(
    pool: Option<ViewerPool<Y>>,
    web_viewer: Option<Viewer<Y>>,
) -> Result<Vec<Viewer<Y>>, SettleError>
    ensures { IfOk result (λ viewers. given_back pool web_viewer ≡ Some viewers.items) }
{
    let (Some(pool), Some(viewer)) = (pool, web_viewer) else {
        return Err(SettleError::Mixed);
    };
    let mut viewers = pool.into_viewers();
    if is_pushed(&mut viewers, viewer) {
        Ok(viewers)
    } else {
        Err(SettleError::Mem)
    }
}

/// All ends of all lanes, each list in the lanes' order.
#[derive(Drop)]
pub struct AllEnds<Y: Yard, W: Wait + Drop> {
    pub readers: Vec<ReaderEnd<Y>>,
    pub writers: Vec<Mutex<WriterEnd<Y, W>>>,
    pub pools: Vec<ViewerPool<Y>>,
    pub web_viewers: Vec<Viewer<Y>>,
}

/// How much a lane has had.
#[derive(Clone, Copy, PartialEq, Eq)]
pub struct LaneTotals {
    /// How many commands were started on it.
    pub commands: u64,
    /// How many lines the logs `stdio` of these have.
    pub lines: u64,
}

/// Settles the lanes in order. For each there is what it had, or why it could not be settled.
#[tactic(auto, using(crate::proofs::Totalling::totals_pushed))]
pub fn settle_all<Y: Yard, W: Wait + Drop, R: Wait>(
    rt: &R,
    alloc: Global,
    ends: AllEnds<Y, W>,
) -> Result<Vec<Result<LaneTotals, SettleError>>, AllocError>
    ensures { IfOk result (λ all. AreTotals ends.readers.items all.items) }
{
    let AllEnds {
        readers,
        writers,
        pools,
        web_viewers,
    } = ends;
    let mut writers = writers.into_iter();
    let mut pools = pools.into_iter();
    let mut web_viewers = web_viewers.into_iter();
    let mut all = Vec::with_capacity(alloc, readers.len())?;
    for reader in readers {
        let viewers = whole(pools.next(), web_viewers.next());
        let totals = totals_of(rt, alloc, reader, writers.next(), viewers);
        all.push(totals)?;
    }
    Ok(all)
}

// Settles a lane whose ends are all there, and answers what it had.
fn totals_of<Y: Yard, W: Wait + Drop, R: Wait>(
    rt: &R,
    alloc: Global,
    reader: ReaderEnd<Y>,
    writer: Option<Mutex<WriterEnd<Y, W>>>,
    viewers: Result<Vec<Viewer<Y>>, SettleError>,
) -> Result<LaneTotals, SettleError>
    ensures { IfOk result (λ had. had ≡ totals reader.trace) }
{
    let Some(writer) = writer else {
        return Err(SettleError::Mixed);
    };
    let viewers = match viewers {
        Ok(viewers) => viewers,
        Err(error) => return Err(error),
    };
    let ends = Ends {
        reader,
        writer: writer.into_inner(),
        viewers,
    };
    match settle_lane(rt, alloc, ends) {
        Ok(settled) => Ok(LaneTotals {
            commands: settled.book.commands(),
            lines: settled.book.stdio_lines(),
        }),
        Err(error) => Err(error),
    }
}
