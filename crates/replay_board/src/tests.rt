// Four slots in threads of their own, over a drawn plan.
ghost use Rattle.std.specs.Prelude.{◌≡◌, ◌+◌, ◌-◌, ◌<◌, ◌≤◌, [], IfSome};
ghost use Rattle.std.specs.Thread.{IsSync};
ghost use Rattle.replay_core.specs.Runs.{slot_at};
ghost use Rattle.replay_board.specs.Steps.{IsHolding};
ghost use Rattle.replay_board.specs.Seats.{desk_view, turns_of, slot_of, setup_seen, own_events, IsSlotSeat, IsRootSeat};
ghost use Rattle.replay_board.specs.Askers.{IsAsker, IsNewAsker};

use crate::{Asker, Board, BoardSeat};
use foz_words::{Key, NoMemory, Row};
use replay_core::{Core, Dep, Next, Plan, SlotState, Verdict};
use slot_turns::SlotTurns;
use std::alloc::Global;
use std::sync::Wait;
use std::thread::{Threads, join};

/// What a worker does with an item.
#[derive(Clone, Copy, Debug, PartialEq, Eq)]
enum Outcome {
    Code(u32),
    Dies,
}

/// Numbers that look drawn.
#[derive(Drop)]
struct Draws {
    seed: u64,
}

impl Draws {
    fn below(&mut self, limit: u32) -> u32 {
        self.seed = self
            .seed
            .wrapping_mul(6_364_136_223_846_793_005)
            .wrapping_add(1_442_695_040_888_963_407);
        ((self.seed >> 33) as u32) % limit.max(1)
    }
}

const ITEMS: u32 = 3_000;

const ABSENT: Dep = Dep::Absent(Key { tag: 4, hash: 9 });

/// A dependency of an item: rarely one that is absent or the item itself, and mostly an earlier item.
fn drawn_dep(draws: &mut Draws, item: u32) -> Dep {
    match draws.below(200) {
        0 => ABSENT,
        1 => Dep::Item(item),
        _ => Dep::Item(draws.below(item)),
    }
}

fn drawn_row(alloc: Global, draws: &mut Draws, item: u32) -> Result<Row<Dep>, NoMemory> {
    let mut row = Vec::new(alloc);
    for _dep in 0..draws.below(3) {
        row.push(drawn_dep(draws, item))?;
    }
    Ok(Row::from_vec(row))
}

/// A plan of so many items, none of which depends on a later one.
fn drawn_plan(alloc: Global, draws: &mut Draws, items: u32) -> Result<Plan, NoMemory> {
    let mut deps = Row::new(alloc);
    for item in 0..items {
        deps.push(drawn_row(alloc, draws, item)?)?;
    }
    Ok(Plan { deps })
}

fn drawn_outcomes(alloc: Global, draws: &mut Draws, items: u32) -> Result<Vec<Outcome>, NoMemory> {
    let mut outcomes = Vec::new(alloc);
    for _item in 0..items {
        outcomes.push(match draws.below(60) {
            0 => Outcome::Dies,
            1 => Outcome::Code(5),
            _ => Outcome::Code(0),
        })?;
    }
    Ok(outcomes)
}

/// The dependency is an earlier item that succeeded.
fn succeeded(dep: Dep, earlier: &[Option<Verdict>]) -> bool {
    match dep {
        Dep::Item(item) => earlier.get(item as usize) == Some(&Some(Verdict::Done(0))),
        Dep::Absent(_) => false,
    }
}

fn fate_of(deps: &[Dep], earlier: &[Option<Verdict>], outcome: Outcome) -> Verdict {
    let failing = deps.iter().position(|dep| !succeeded(*dep, earlier));
    match (failing, outcome) {
        (Some(place), _) => Verdict::Missing(u32::try_from(place).unwrap_or(u32::MAX)),
        (None, Outcome::Code(code)) => Verdict::Done(code),
        (None, Outcome::Dies) => Verdict::Blamed,
    }
}

/// What becomes of each item, by the plan and the outcomes alone, where none depends on a later one.
fn fates(
    alloc: Global,
    plan: &Plan,
    outcomes: &[Outcome],
) -> Result<Vec<Option<Verdict>>, NoMemory> {
    let mut fates = Vec::new(alloc);
    for (row, outcome) in plan.deps.as_slice().iter().zip(outcomes) {
        let fate = fate_of(row.as_slice(), fates.as_slice(), *outcome);
        fates.push(Some(fate))?;
    }
    Ok(fates)
}

/// The worker of a slot does with an item what the outcome says.
fn carry_out<R: Wait>(rt: &R, board: &Board, seat: &mut BoardSeat, outcome: Outcome)
    requires seat { IsSlotSeat board.now seat.old }
    requires turns { turns_of seat.old < 4294967290 }
    requires held { IsHolding (slot_at (own_events seat.old) (slot_of seat.old)) }
    ensures seat { IsSlotSeat board.now seat.new }
    ensures turns { turns_of seat.new ≤ turns_of seat.old + 2 }
    ensures idle { slot_at (own_events seat.new) (slot_of seat.new) ≡ SlotState.Idle }
{
    match outcome {
        Outcome::Code(code) => {
            board.reply(rt, seat, code);
            return;
        }
        Outcome::Dies => {
            board.death(rt, seat);
            board.restart(rt, seat);
            return;
        }
    }
}

fn outcome_of(outcomes: &[Outcome], item: u32) -> Outcome {
    match outcomes.get(item as usize) {
        Some(outcome) => *outcome,
        None => Outcome::Dies,
    }
}

/// One question of a slot, with what follows from its answer. Says whether all items are decided.
fn ask<R: Wait>(rt: &R, board: &Board, asker: &mut Asker, outcomes: &[Outcome]) -> bool
    requires asker { IsAsker board.now asker.old }
    requires turns { turns_of asker.old.seat < 4294967280 }
    requires idle { slot_at (own_events asker.old.seat) (slot_of asker.old.seat) ≡ SlotState.Idle }
    ensures asker { IsAsker board.now asker.new }
    ensures turns { turns_of asker.new.seat ≤ turns_of asker.old.seat + 3 }
    ensures idle { slot_at (own_events asker.new.seat) (slot_of asker.new.seat) ≡ SlotState.Idle }
{
    match board.next(rt, &mut asker.seat) {
        Next::Finished => return true,
        Next::Idle => {
            SlotTurns::wait_for_more(board, rt, asker);
            return false;
        }
        Next::Work { item } => {
            carry_out(rt, board, &mut asker.seat, outcome_of(outcomes, item));
            return false;
        }
    }
}

/// Runs a slot. Says whether it was told that all is decided, and never read fewer events than before.
fn work<R: Wait>(rt: &R, board: &Board, mut asker: Asker, outcomes: &[Outcome]) -> (BoardSeat, bool)
    requires { IsNewAsker board.now asker }
    ensures { IsSlotSeat board.now result.0 }
{
    let mut good = true;
    let mut last = 0;
    for turn in 0..1_000_000u32 {
        let _ = turn;
        let events = board.read(rt, &mut asker.reader).events;
        good = good && last <= events;
        last = events;
        if ask(rt, board, &mut asker, outcomes) {
            return (asker.into_seat(), good);
        }
    }
    (asker.into_seat(), false)
}

/// Two slots in two threads.
fn work_both<R: Threads + Wait + Sync>(
    rt: &R,
    board: &Board,
    one: Asker,
    two: Asker,
    outcomes: &[Outcome],
) -> (BoardSeat, BoardSeat, bool)
    requires one { IsNewAsker board.now one }
    requires two { IsNewAsker board.now two }
    ensures one { IsSlotSeat board.now result.0 }
    ensures two { IsSlotSeat board.now result.1 }
{
    let ((one, good), (two, fine)) = join(
        rt,
        || -> (BoardSeat, bool)
            requires { IsSync R.row × IsNewAsker board.now one }
            ensures { IsSlotSeat board.entry.now result.0 }
        { work(rt, board, one, outcomes) },
        || -> (BoardSeat, bool)
            requires { IsSync R.row × IsNewAsker board.now two }
            ensures { IsSlotSeat board.entry.now result.0 }
        { work(rt, board, two, outcomes) },
    );
    (one, two, good && fine)
}

/// The next slot, with its seat and a reader.
fn asker_for<R: Wait>(rt: &R, board: &Board, root: &mut BoardSeat, slot: u32) -> Asker
    requires root { IsRootSeat board.now root.old }
    requires turns { turns_of root.old < 100 }
    requires next { slot + 1 ≡ (desk_view root.old).made }
    requires inside { slot < (setup_seen root.old).slots }
    ensures root { IsRootSeat board.now root.new }
    ensures turns { turns_of root.new ≡ turns_of root.old + 1 }
    ensures made { (desk_view root.new).made ≡ (desk_view root.old).made + 1 }
    ensures out { (desk_view root.new).out ≡ (desk_view root.old).out + 1 }
    ensures setup { setup_seen root.new ≡ setup_seen root.old }
    ensures asker { IsNewAsker board.now result }
{
    let reader = board.reader(rt, root);
    Asker::new(board.seat_for(root, slot), reader)
}

fn take_back(board: &Board, root: &mut BoardSeat, seat: BoardSeat)
    requires root { IsRootSeat board.now root.old }
    requires seat { IsSlotSeat board.now seat }
    ensures root { IsRootSeat board.now root.new }
    ensures out { (desk_view root.new).out ≡ (desk_view root.old).out - 1 }
{
    board.join(root, seat);
}

/// A replay on four slots, and whether all went well in it.
fn replayed<R: Threads + Wait + Sync>(
    rt: &R,
    alloc: Global,
    core: Core,
    outcomes: &[Outcome],
) -> Option<(Core, bool)>
    requires fresh { core.events ≡ [] }
    requires slots { core.setup.slots ≡ 4 }
{
    let Ok((board, mut root)) = Board::new(alloc, core) else {
        return None;
    };
    let one = asker_for(rt, &board, &mut root, 0);
    let two = asker_for(rt, &board, &mut root, 1);
    let three = asker_for(rt, &board, &mut root, 2);
    let four = asker_for(rt, &board, &mut root, 3);
    let ((one, two, good), (three, four, fine)) = join(
        rt,
        || -> (BoardSeat, BoardSeat, bool)
            requires { IsSync R.row × IsNewAsker board one × IsNewAsker board two }
            ensures { IsSlotSeat board result.0 × IsSlotSeat board result.1 }
        { work_both(rt, &board, one, two, outcomes) },
        || -> (BoardSeat, BoardSeat, bool)
            requires { IsSync R.row × IsNewAsker board three × IsNewAsker board four }
            ensures { IsSlotSeat board result.0 × IsSlotSeat board result.1 }
        { work_both(rt, &board, three, four, outcomes) },
    );
    take_back(&board, &mut root, three);
    take_back(&board, &mut root, one);
    take_back(&board, &mut root, four);
    take_back(&board, &mut root, two);
    Some((board.close(root), good && fine))
}

fn core_over(alloc: Global, plan: Plan) -> Option<Core>
    ensures { IfSome result (λ core. (core.events ≡ []) × (core.setup.slots ≡ 4)) }
{
    if plan.fits() {
        Core::new(alloc, plan, 4).ok()
    } else {
        None
    }
}

fn has_verdicts(core: &Core, wanted: &[Option<Verdict>]) -> bool {
    core.verdicts() == wanted
}

/// The verdicts of a replay on four slots are these.
fn comes_out<R: Threads + Wait + Sync>(
    rt: &R,
    alloc: Global,
    plan: Plan,
    outcomes: &[Outcome],
    fates: &[Option<Verdict>],
) -> bool {
    let Some(core) = core_over(alloc, plan) else {
        return false;
    };
    match replayed(rt, alloc, core, outcomes) {
        Some((core, good)) => good && has_verdicts(&core, fates),
        None => false,
    }
}

fn fates_come_out<R: Threads + Wait + Sync>(
    rt: &R,
    alloc: Global,
    seed: u64,
) -> Result<bool, NoMemory> {
    let mut draws = Draws { seed };
    let outcomes = drawn_outcomes(alloc, &mut draws, ITEMS)?;
    let plan = drawn_plan(alloc, &mut draws, ITEMS)?;
    let fates = fates(alloc, &plan, outcomes.as_slice())?;
    Ok(comes_out(rt, alloc, plan, outcomes.as_slice(), fates.as_slice()))
}

#[test]
fn items_come_to_their_fates_on_four_threads(rt: HostRuntime) {
    for seed in 0..4u64 {
        let good = fates_come_out(&rt, rt.alloc(), seed).unwrap_or(false);
        assert!(rt; good, "seed {seed}");
    }
}
