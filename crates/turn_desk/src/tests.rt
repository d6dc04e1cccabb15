//! What contracts don't say: that threads at one desk run, and that all that they wrote comes out.
ghost use Rattle.std.specs.Prelude.{◌≡◌, ℕ, ◌+◌, ◌<◌, [], IfSome};
ghost use Rattle.std.specs.Thread.{IsSync};
ghost use Rattle.turn_desk.specs.Story.{root_of};
ghost use Rattle.turn_desk.specs.Seats.{view_of, IsSeatOf, IsSameSeat, IsOutside};

use crate::{Desk, Kept, Seat};
use std::alloc::Global;
use std::process::Abort;
use std::sync::Wait;
use std::test::Fail;
use std::thread::{Threads, join};

/// A note: who wrote it, in which of its turns.
#[derive(Clone, Copy, PartialEq, Eq, Debug)]
struct Line {
    seat: u32,
    turn: u32,
}

/// A diary that several threads write into.
#[derive(Drop)]
struct Diary {
    owner: u32,
    lines: Vec<Line>,
}

impl Kept for Diary {
    type Note = Line;

    type Origin = u32;

    ghost story = { λ d. d.lines.items };

    ghost origin = { λ d. d.owner };

    ghost number = { λ l. l.seat };
}

fn open(alloc: Global, owner: u32) -> Option<(Desk<Diary>, Seat<Diary>)>
    ensures desk { IfSome result (λ r. IsSeatOf r.0 r.1) }
    ensures root { IfSome result (λ r. view_of r.1 ≡ root_of owner) }
{
    let lines = Vec::new(alloc);
    Desk::new(alloc, Diary { owner, lines }).ok()
}

/// One turn, which writes one line.
fn write<R: Wait>(rt: &R, desk: &Desk<Diary>, seat: &mut Seat<Diary>)
    requires desk { IsSeatOf desk.now seat.old }
    requires outside { IsOutside seat.old }
    requires turns { (view_of seat.old).turns < 4294967294 }
    ensures same { IsSameSeat seat.old seat.new }
    ensures outside { IsOutside seat.new }
    ensures turns { (view_of seat.new).turns ≡ (view_of seat.old).turns + 1 }
{
    let mut diary = desk.enter(rt, seat);
    let _ = diary.lines.push(Line {
        seat: seat.number(),
        turn: seat.turns(),
    });
    desk.leave(seat, diary);
}

fn write_thousand<R: Wait>(rt: &R, desk: &Desk<Diary>, mut seat: Seat<Diary>) -> Seat<Diary>
    requires desk { IsSeatOf desk.now seat }
    requires outside { IsOutside seat }
    requires turns { (view_of seat).turns ≡ 0 }
    ensures same { IsSameSeat seat result }
    ensures outside { IsOutside result }
{
    for counter in 0..1000u32 {
        let _ = counter;
        write(rt, desk, &mut seat);
    }
    seat
}

/// Two threads.
fn write_both<R: Threads + Wait + Sync>(
    rt: &R,
    desk: &Desk<Diary>,
    one: Seat<Diary>,
    two: Seat<Diary>,
) -> (Seat<Diary>, Seat<Diary>)
    requires one { IsSeatOf desk.now one × IsOutside one × ((view_of one).turns ≡ 0) }
    requires two { IsSeatOf desk.now two × IsOutside two × ((view_of two).turns ≡ 0) }
    ensures { IsSameSeat one result.0 × IsOutside result.0 × IsSameSeat two result.1 × IsOutside result.1 }
{
    join(
        rt,
        || -> Seat<Diary>
            requires { IsSync R.row × IsSeatOf desk.now one × IsOutside one × ((view_of one).turns ≡ 0) }
            ensures { IsSameSeat one result × IsOutside result }
        { write_thousand(rt, desk, one) },
        || -> Seat<Diary>
            requires { IsSync R.row × IsSeatOf desk.now two × IsOutside two × ((view_of two).turns ≡ 0) }
            ensures { IsSameSeat two result × IsOutside result }
        { write_thousand(rt, desk, two) },
    )
}

/// What four seats and their root tell at the end, and the diary that they leave.
#[derive(Drop)]
struct Written {
    numbers: [u32; 4],
    // The root's number, its turns, how many seats are out, and how many were made.
    root: (u32, u32, u32, u32),
    diary: Diary,
}

/// Four seats write a thousand lines each, and are taken back in another order than they were made.
fn written_by_four<R: Threads + Wait + Sync>(rt: &R, alloc: Global) -> Option<Written> {
    let (desk, mut root) = open(alloc, 7)?;
    let one = desk.split(&mut root);
    let two = desk.split(&mut root);
    let three = desk.split(&mut root);
    let four = desk.split(&mut root);
    let ((one, two), (three, four)) = join(
        rt,
        || -> (Seat<Diary>, Seat<Diary>)
            requires { IsSync R.row × IsSeatOf desk one × IsOutside one × ((view_of one).turns ≡ 0) × IsSeatOf desk two × IsOutside two × ((view_of two).turns ≡ 0) }
            ensures { IsSameSeat one result.0 × IsOutside result.0 × IsSameSeat two result.1 × IsOutside result.1 }
        { write_both(rt, &desk, one, two) },
        || -> (Seat<Diary>, Seat<Diary>)
            requires { IsSync R.row × IsSeatOf desk three × IsOutside three × ((view_of three).turns ≡ 0) × IsSeatOf desk four × IsOutside four × ((view_of four).turns ≡ 0) }
            ensures { IsSameSeat three result.0 × IsOutside result.0 × IsSameSeat four result.1 × IsOutside result.1 }
        { write_both(rt, &desk, three, four) },
    );
    let numbers = [one.number(), two.number(), three.number(), four.number()];
    desk.join(&mut root, three);
    desk.join(&mut root, one);
    desk.join(&mut root, four);
    desk.join(&mut root, two);
    let told = (root.number(), root.turns(), root.out(), root.made());
    Some(Written {
        numbers,
        root: told,
        diary: desk.close(root),
    })
}

/// Each of the seats 1 to 4 wrote its turns 1 to 1,000 in order, and nobody else wrote.
fn each_turn_is_written_once(rt: &impl Abort, diary: &Diary) {
    let mut turns = [0u32; 5];
    for line in diary.lines.as_slice() {
        if line.seat < 5 {
            turns[line.seat as usize] = turns[line.seat as usize].saturating_add(1);
            assert_eq!(rt; line.turn, turns[line.seat as usize]);
        }
    }
    assert_eq!(rt; turns, [0, 1000, 1000, 1000, 1000]);
    assert_eq!(rt; diary.lines.len(), 4000);
}

fn four_have_written(rt: &impl Abort, written: &Written) {
    assert_eq!(rt; written.numbers, [1, 2, 3, 4]);
    assert_eq!(rt; written.root, (0, 0, 0, 5));
    each_turn_is_written_once(rt, &written.diary);
}

#[test]
fn four_seats_write_a_thousand_lines_each(rt: HostRuntime) -> Result<(), Fail> {
    match written_by_four(&rt, rt.alloc()) {
        Some(written) => four_have_written(&rt, &written),
        None => panic!(rt; "no memory"),
    }
    Ok(())
}

/// The diary of a desk that is closed at once.
fn unwritten(alloc: Global) -> Option<Diary> {
    let (desk, root) = open(alloc, 7)?;
    Some(desk.close(root))
}

fn nothing_is_written(rt: &impl Abort, diary: &Diary) {
    assert_eq!(rt; diary.owner, 7);
    assert!(rt; diary.lines.is_empty());
}

#[test]
fn a_desk_closed_at_once_gives_its_value_back(rt: HostRuntime) -> Result<(), Fail> {
    match unwritten(rt.alloc()) {
        Some(diary) => nothing_is_written(&rt, &diary),
        None => panic!(rt; "no memory"),
    }
    Ok(())
}
