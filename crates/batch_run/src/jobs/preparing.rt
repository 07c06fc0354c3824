//! What is to be put for the commands of a batch, prepared by its workers.

ghost use Rattle.std.specs.Prelude.{◌≡◌, ◌≤◌, ◌<◌, ◌*◌, ◌^◌, All, length, IfOk, OnOk};
ghost use Rattle.rows_text.specs.Readable.{IsReadable};
ghost use Rattle.page_store.specs.Images.{bytes_in};
ghost use Rattle.image_answers.specs.Outcomes.{ArePagesOf};
ghost use Rattle.batch_run.specs.Dealing.{IsDeal};
ghost use Rattle.batch_run.specs.Jobs.Preparing.{ArePiles, AreShown, AreStacked, HasMoreFor, IsPileIn};

use crate::batching::outcome_of;
use crate::dealing::Deal;
use crate::gathering::all_done;
use crate::jobs::piles::{Pile, Prepared};
use image_answers::cached_pages;
use metric_laws::Metric;
use page_cache::Mapped;
use page_store::{Image, ImagePages};
use par_work::share;
use rows_text::Command;
use std::alloc::{AllocError, Global};
use std::thread::Threads;
use tree_shape::Live;

/// How many nodes a worker of a batch keeps: some 64 MiB. Each page of a file of no more pages is decoded once.
const WORKER_NODES: usize = 16_384;

// Adds what is to be put for one more command.
// Arguments: `pages`, `metric` and `live` are the opened file, `command` and `show` say what is asked, and `pile` gets the texts.
fn add_for<M: Metric>(
    alloc: Global,
    pages: &mut Mapped<ImagePages<'_>>,
    metric: M,
    live: &Live,
    command: &Command,
    show: bool,
    pile: &mut Pile,
) -> Result<(), AllocError>
    requires few { live.now.pages ≤ 2 ^ 24 }
    requires pages { ArePagesOf (M.space metric) live.now (bytes_in pages.old.inner.image) pages.old }
    requires readable { IsReadable (M.space metric).dimension command.now }
    ensures more { OnOk result (HasMoreFor (M.space metric) live.now (bytes_in pages.old.inner.image) show command.now pile.old pile.new) }
    ensures same { ArePagesOf (M.space metric) live.now (bytes_in pages.old.inner.image) pages.new }
{
    let outcome = outcome_of(alloc, pages, metric, live, command, show)?;
    pile.add(alloc, &outcome, show)
}

// Prepares what is to be put for the commands that are dealt to `worker`, round by round.
// Arguments: `image`, `metric` and `live` are the opened file, `commands` and `show` say what is asked, and `deal` and `worker` say which
// of the commands.
fn pile_of<M: Metric>(
    alloc: Global,
    image: Image<'_>,
    metric: M,
    live: &Live,
    commands: &[Command],
    show: bool,
    deal: &Deal,
    worker: usize,
) -> Result<Pile, AllocError>
    requires pages { live.now.pages ≤ 2 ^ 24 }
    requires readable { All (IsReadable (M.space metric).dimension) commands.now }
    requires deal { IsDeal (record { rounds = deal.now.rounds; workers = deal.now.workers }) }
    requires worker { worker < deal.now.workers }
    ensures { IfOk result (IsPileIn (M.space metric) live.now (bytes_in image.entry) show commands.now
        (record { rounds = deal.now.rounds; workers = deal.now.workers }) deal.now.rounds worker) }
{
    let mut pages = cached_pages(alloc, image, metric, live, WORKER_NODES)?;
    let mut pile = Pile::new(alloc)?;
    for round in 0..deal.rounds {
        let place = deal.place(worker * deal.rounds + round);
        if place < commands.len() {
            add_for(
                alloc,
                &mut pages,
                metric,
                live,
                &commands[place],
                show,
                &mut pile,
            )?;
        }
    }
    Ok(pile)
}

/// Prepares what is to be put for each of `commands` on the file with the bytes of `image`: a pile for each worker, for the
/// commands dealt to it. A worker writes its logs as bytes at once, so that no log is held in another form. A hit is written with
/// its tag where `show` is set.
/// Arguments: `rt` has the threads, `image`, `metric` and `live` are the opened file, `commands` and `show` say what is asked, and `deal`
/// says which worker does what.
pub fn prepare_all<R: Threads + Sync, M: Metric>(
    rt: &R,
    alloc: Global,
    image: Image<'_>,
    metric: M,
    live: &Live,
    commands: &[Command],
    show: bool,
    deal: &Deal,
) -> Result<Vec<Pile>, AllocError>
    requires pages { live.now.pages ≤ 2 ^ 24 }
    requires readable { All (IsReadable (M.space metric).dimension) commands.now }
    requires deal { IsDeal (record { rounds = deal.now.rounds; workers = deal.now.workers }) }
    ensures { IfOk result (λ piles. ArePiles (M.space metric) live.now (bytes_in image.entry) show commands.now
        (record { rounds = deal.now.rounds; workers = deal.now.workers }) piles.items) }
{
    let work = |worker: usize| -> Result<Pile, AllocError>
        requires { (live.now.pages ≤ 2 ^ 24) × All (IsReadable (M.space metric).dimension) commands.now
            × IsDeal (record { rounds = deal.now.rounds; workers = deal.now.workers }) × (worker < deal.now.workers) }
        ensures { IfOk result (IsPileIn (M.space metric) live.entry.now (bytes_in image.entry) show commands.entry.now
            (record { rounds = deal.entry.now.rounds; workers = deal.entry.now.workers }) deal.entry.now.rounds worker) }
    { pile_of(alloc, image, metric, live, commands, show, deal, worker) };
    let tried = share(rt, alloc, deal.workers, deal.workers, &work)?;
    match all_done(alloc, tried)? {
        Some(piles) => Ok(piles),
        None => Err(AllocError),
    }
}

/// Returns what the piles have, in the order of the `count` commands.
pub fn in_turn<'a>(
    alloc: Global,
    deal: &Deal,
    count: usize,
    piles: &'a [Pile],
) -> Result<Vec<Prepared<'a>>, AllocError>
    requires deal { IsDeal (record { rounds = deal.now.rounds; workers = deal.now.workers }) }
    requires whole { count ≤ deal.now.rounds * deal.now.workers }
    requires stacked { AreStacked (record { rounds = deal.now.rounds; workers = deal.now.workers }) count piles.now }
    ensures { IfOk result (λ all. AreShown (record { rounds = deal.now.rounds; workers = deal.now.workers }) count piles.now all.items) }
{
    let mut all = Vec::with_capacity(alloc, count)?;
    for place in 0..count {
        let seat = deal.seat(place);
        let pile = &piles[seat / deal.rounds];
        all.push(pile.at(pile.marks[seat % deal.rounds]))?;
    }
    Ok(all)
}
