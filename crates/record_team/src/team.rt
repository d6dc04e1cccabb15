//! Several threads over one recorder.
ghost use Rattle.std.specs.Prelude.{◌≡◌, ℕ, ◌+◌, ◌-◌, ◌<◌, ◌≤◌, ◌^◌, List, [], ◌∷◌, ◌++◌, length, map, slice_index_or, is_some, vec_len, vec_capacity, All, IfOk, OnErr, OnOk, Some, None};
ghost use Rattle.std.specs.List.{list_all};
ghost use Rattle.turn_desk.specs.Story.{root_of, HasKept};
ghost use Rattle.turn_desk.specs.Seats.{view_of, IsSameSeat, IsSeatOf, IsOutside};
ghost use Rattle.record_words.specs.Story.{At};
ghost use Rattle.record_dedup.specs.Kept.{Booked, recorder_of};
ghost use Rattle.record_threads.specs.Calls.{seat_of};
ghost use Rattle.record_threads.specs.Seats.{IsSeatAt};
ghost use Rattle.record_team.specs.Work.{IsAtWork};
ghost use Rattle.record_team.specs.Team.{after_splits, new_view, HasWorked, IsBack, AreBack, HaveAnswered};

use crate::mate::Teammate;
use crate::meet::Meet;
use crate::merge::{Queue, merged};
use disk_model::Disk;
use foz_words::{NoMemory, Row};
use record_lines::Lines;
use record_threads::{BookDesk, RecordSeat, Recorder, seats_have_their_calls};
use record_words::Answered;
use std::alloc::Global;
use std::collections::VecDeque;
use std::sync::Wait;
use std::thread::{Threads, for_each_mut};

/// A team that has done nothing yet: a seat for each thread, before the first line.
fn recruited<D: Disk + Drop, L: Lines + Copy + Drop>(
    alloc: Global,
    recorder: &Recorder<D>,
    root: &mut RecordSeat<D>,
    lines: L,
    threads: u32,
) -> Result<Vec<Teammate<RecordSeat<D>, L>>, NoMemory>
    requires seat { IsSeatAt recorder.now root.old }
    requires root { (origin : Booked D) × (view_of root.old ≡ root_of origin) }
    requires few { threads ≤ 16 }
    ensures seat { IsSameSeat root.old root.new }
    ensures root { OnOk result (view_of root.new ≡ after_splits (view_of root.old) threads) }
    ensures none { OnErr result (view_of root.new ≡ view_of root.old) }
    ensures length { IfOk result (λ mates. vec_len mates ≡ threads) }
    ensures mates { (origin : Booked D) → view_of root.old ≡ root_of origin
        → IfOk result (λ mates. (i : ℕ) (mate : _) → At mates.items i mate → (mate.thread ≡ i) × IsSeatAt recorder.now mate.seat × (view_of mate.seat ≡ new_view origin i) × (mate.lines ≡ lines) × (mate.told ≡ [])) }
{
    // Room comes first: a seat that was split off has to come back.
    let mut mates = Vec::with_capacity(alloc, threads as usize)?;
    for thread in 0..threads {
        let mate = Teammate {
            thread,
            seat: recorder.split(root),
            lines,
            told: Row::new(alloc),
            finished: None,
        };
        let Ok(()) = mates.push(mate) else {
            unreachable!()
        };
    }
    Ok(mates)
}

/// All threads do their work, each in a thread of its own where one can be made.
fn work_all<D: Disk + Drop + Send, L: Lines + Send, M: Meet + Sync, X: Wait + Threads + Sync>(
    rt: &X,
    alloc: Global,
    desk: &BookDesk<D>,
    meet: &M,
    mates: &mut [Teammate<RecordSeat<D>, L>],
    threads: u32,
)
where
    L::Cause: Send,
    requires threads { threads ≡ length mates.old }
    requires some { 0 < threads }
    requires new { (origin : Booked D) × All (λ mate. IsSeatOf desk.now mate.seat × IsAtWork origin (view_of mate.seat) × ((view_of mate.seat).turns ≡ 0) × ((view_of mate.seat).mine ≡ []) × (mate.told ≡ []) × (length (L.rest mate.lines) < 2 ^ 30)) mates.old }
    ensures same { (i : ℕ) (d : _) → i < length mates.old → IsSameSeat (slice_index_or mates.old i d).seat (slice_index_or mates.new i d).seat }
    ensures worked { (i : ℕ) (d : _) → i < length mates.old → let before = slice_index_or mates.old i d in let after = slice_index_or mates.new i d in
        (origin : Booked D) → IsAtWork origin (view_of before.seat) → HasWorked origin (L.rest before.lines) threads before.thread (view_of before.seat).number (view_of after.seat) after.told after.finished }
{
    for_each_mut(
        rt,
        mates,
        threads as usize,
        &|_index: usize, mate: &mut Teammate<RecordSeat<D>, L>|
            requires { (0 < threads) × IsSeatOf desk.now mate.now.seat × ((origin : Booked D) × IsAtWork origin (view_of mate.now.seat)) × ((view_of mate.now.seat).turns ≡ 0) × ((view_of mate.now.seat).mine ≡ []) × (mate.now.told ≡ []) × (length (L.rest mate.now.lines) < 2 ^ 30) }
            ensures { IsSameSeat mate.entry.now.seat mate.exit.now.seat × ((origin : Booked D) → IsAtWork origin (view_of mate.entry.now.seat)
                → HasWorked origin (L.rest mate.entry.now.lines) threads mate.entry.now.thread (view_of mate.entry.now.seat).number (view_of mate.exit.now.seat) mate.exit.now.told mate.exit.now.finished) }
        { mate.run(rt, alloc, desk, meet, threads) },
    );
}

/// Has each thread gone over all lines, and flushed?
fn all_finished<S, L: Lines>(mates: &[Teammate<S, L>]) -> bool
    ensures { result ≡ list_all (λ mate. is_some mate.finished) mates.now }
{
    mates.iter().all(|mate| mate.finished.is_some())
}

/// How many lines there were, as the first thread counted them.
fn lines_counted<S, L: Lines>(mates: &[Teammate<S, L>]) -> Option<u32>
    ensures { (first : _) (rest : List _) → mates.now ≡ first ∷ rest → result ≡ first.finished }
{
    match mates {
        [first, ..] => first.finished,
        [] => None,
    }
}

/// Takes the seats of a team back, and gives the answers of its threads to the others, for which there is room.
fn take_back<D: Disk + Drop, L: Lines + Drop>(
    recorder: &Recorder<D>,
    root: &mut RecordSeat<D>,
    mut mates: VecDeque<Teammate<RecordSeat<D>, L>>,
    told: &mut Vec<Queue<L::Cause>>,
)
    requires seat { IsSeatAt recorder.now root.old }
    requires root { ((view_of root.old).number ≡ 0) × IsOutside root.old }
    requires seats { All (λ mate. IsSeatAt recorder.now mate.seat × IsOutside mate.seat) mates.items }
    requires room { vec_len told.old + length mates.items ≤ vec_capacity told.old }
    requires kept { HasKept seat_of (view_of root.old).joined (view_of root.old).seen }
    ensures seat { IsSameSeat root.old root.new }
    ensures kept { HasKept seat_of (view_of root.new).joined (view_of root.new).seen }
    ensures back { IsBack (view_of root.old) (map (λ mate. view_of mate.seat) mates.items) (view_of root.new) }
    ensures told { told.new.items ≡ told.old.items ++ map (λ mate. mate.told) mates.items }
{
    while let Some(mate) = mates.pop_front() {
        let Teammate {
            seat,
            told: answers,
            ..
        } = mate;
        recorder.join(root, seat);
        let Ok(()) = told.push(Queue::new(answers)) else {
            unreachable!()
        };
    }
}

/// A team records the lines, and its seats come back. Gives the answers in the order of lines.
pub(crate) fn work_together<
    D: Disk + Drop + Send,
    L: Lines + Copy + Drop + Send,
    M: Meet + Sync,
    X: Wait + Threads + Sync,
>(
    rt: &X,
    alloc: Global,
    recorder: &Recorder<D>,
    root: &mut RecordSeat<D>,
    lines: L,
    threads: u32,
    meet: &M,
) -> Result<Row<Answered<L::Cause>>, NoMemory>
where
    L::Cause: Send,
    requires seat { IsSeatAt recorder.now root.old }
    requires root { (origin : Booked D) × (view_of root.old ≡ root_of origin) }
    requires threads { (0 < threads) × (threads ≤ 16) }
    requires few { length (L.rest lines) < 2 ^ 30 }
    ensures seat { IsSameSeat root.old root.new }
    ensures outside { IsOutside root.new }
    ensures number { (view_of root.new).number ≡ 0 }
    ensures origin { (view_of root.new).origin ≡ (view_of root.old).origin }
    ensures mine { (view_of root.new).mine ≡ [] }
    ensures out { (view_of root.new).out ≡ 0 }
    ensures back { (origin : Booked D) → view_of root.old ≡ root_of origin → AreBack (recorder_of origin) (L.rest lines) threads (view_of root.new) }
    ensures answered { (origin : Booked D) → view_of root.old ≡ root_of origin → IfOk result (HaveAnswered (recorder_of origin) (L.rest lines) threads (view_of root.new).seen) }
{
    seats_have_their_calls::<D>();
    let mut told = Vec::with_capacity(alloc, threads as usize)?;
    let mut mates = recruited(alloc, recorder, root, lines, threads)?;
    work_all(
        rt,
        alloc,
        recorder.desk(),
        meet,
        mates.as_mut_slice(),
        threads,
    );
    let finished = all_finished(mates.as_slice());
    let count = lines_counted(mates.as_slice());
    take_back(recorder, root, VecDeque::from_vec(mates), &mut told);
    match count {
        Some(count) if finished => merged(alloc, told.as_mut_slice(), count),
        _ => Err(NoMemory),
    }
}
