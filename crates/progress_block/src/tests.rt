// A reader in one thread, beside the writer in another.
ghost use Rattle.std.specs.Prelude.{◌≡◌, ◌≤◌, [], ◌∷◌, ◌++◌};
ghost use Rattle.std.specs.Thread.{IsSync};
ghost use Rattle.progress_block.specs.Rows.{EndsWith};
ghost use Rattle.progress_block.specs.Ends.{rows_of, IsWriterOf, IsReaderOf};

use crate::{Progress, Reader, Writer};
use replay_core::Counts;
use std::alloc::Global;
use std::sync::Wait;
use std::thread::{Threads, join};

/// The rows that are published, in order: the events of each, and a mark that stands in all its other fields,
/// so that half of one row beside half of another shows.
const PUBLISHED: &[(u64, u64)] = &[(0, 1), (0, 2), (3, 3), (3, 4), (8, 5)];

fn row(events: u64, mark: u64) -> Counts
    ensures { result.events ≡ events }
{
    Counts {
        events,
        done: mark,
        refused: mark,
        blamed: mark,
        missing: mark,
        deaths: mark,
        restarts: mark,
        retired: mark,
    }
}

/// The place of a row among those that are published, or else one past them.
fn place_of(seen: Counts) -> usize {
    for (place, (events, mark)) in PUBLISHED.iter().enumerate() {
        if row(*events, *mark) == seen {
            return place;
        }
    }
    PUBLISHED.len()
}

/// Publishes a row, where its events are not below those of the one before.
fn publish_next<R: Wait>(
    rt: &R,
    progress: &Progress,
    writer: &mut Writer,
    before: Counts,
    next: Counts,
) -> Counts
    requires progress { IsWriterOf progress.now writer.old }
    requires ends { EndsWith (rows_of writer.old) before }
    ensures progress { IsWriterOf progress.now writer.new }
    ensures ends { EndsWith (rows_of writer.new) result }
{
    if next.events < before.events {
        return before;
    }
    if 2_147_483_647 < next.events {
        return before;
    }
    progress.publish(rt, writer, next);
    next
}

/// Publishes all rows but the first.
fn publish_all<R: Wait>(rt: &R, progress: &Progress, mut writer: Writer, first: Counts)
    requires progress { IsWriterOf progress.now writer }
    requires ends { EndsWith (rows_of writer) first }
{
    let mut last = first;
    for place in 1..PUBLISHED.len() {
        let (events, mark) = PUBLISHED[place];
        last = publish_next(rt, progress, &mut writer, last, row(events, mark));
    }
}

/// Whether each row was one of those published, and none came before an earlier one; and the reader.
fn watch<R: Wait>(rt: &R, progress: &Progress, mut reader: Reader) -> (bool, Reader)
    requires { IsReaderOf progress.now reader }
    ensures { IsReaderOf progress.now result.1 }
{
    let mut good = true;
    let mut last = 0;
    for turn in 0..1000u32 {
        let _ = turn;
        let place = place_of(progress.read(rt, &mut reader));
        good = good && last <= place && place < PUBLISHED.len();
        last = place;
    }
    (good, reader)
}

/// The writer in one thread, and the reader in another.
fn watch_beside<R: Threads + Wait + Sync>(
    rt: &R,
    progress: &Progress,
    writer: Writer,
    first: Counts,
    reader: Reader,
) -> (bool, Reader)
    requires writer { IsWriterOf progress.now writer × EndsWith (rows_of writer) first }
    requires reader { IsReaderOf progress.now reader }
    ensures { IsReaderOf progress.now result.1 }
{
    let (_, watched) = join(
        rt,
        ||
            requires { IsSync R.row × IsWriterOf progress.now writer × EndsWith (rows_of writer) first }
        { publish_all(rt, progress, writer, first) },
        || -> (bool, Reader)
            requires { IsSync R.row × IsReaderOf progress.now reader }
            ensures { IsReaderOf progress.entry.now result.1 }
        { watch(rt, progress, reader) },
    );
    watched
}

/// Whether the reader saw good rows beside the writer, and what it reads once all are published.
fn watched<R: Threads + Wait + Sync>(rt: &R, alloc: Global) -> Option<(bool, Counts)> {
    let first = row(0, 1);
    let Ok((progress, mut writer)) = Progress::new(alloc, first) else {
        return None;
    };
    let reader = progress.reader(rt, &mut writer);
    let (good, mut reader) = watch_beside(rt, &progress, writer, first, reader);
    Some((good, progress.read(rt, &mut reader)))
}

#[test]
fn rows_are_whole_and_never_go_back(rt: HostRuntime) {
    assert_eq!(rt; watched(&rt, rt.alloc()), Some((true, row(8, 5))));
}
