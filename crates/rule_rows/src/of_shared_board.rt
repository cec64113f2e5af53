ghost use Rattle.std.specs.Prelude.{◌≡◌, pos, IfOk};
ghost use Rattle.shared_board.specs.Seating.{IsFirstSeat, IsSeatOf, plan_of};

use shared_board::{
    Board, BoardSeat, Closed, Entered, claim, close, enter, look, make_board, publish,
};
use sidb_units::Memory;
use std::alloc::Global;
use std::test::Fail;

#[test]
fn one_worker_steps_as_stated(rt: HostRuntime) -> Result<(), Fail> {
    let Ok((board, mut seats)) = make_board(rt.alloc(), 0, 1, 1, 1) else {
        panic!(rt; "no memory")
    };
    let seat = &mut seats[0];
    assert!(rt; look(&board, seat) == 1);
    assert!(rt; enter(&board, seat, 0) == Entered::Yes);
    assert!(rt; look(&board, seat) == 1);
    assert!(rt; enter(&board, seat, 0) == Entered::Spent);
    assert!(rt; claim(&board, seat) == Some(0));
    assert!(rt; claim(&board, seat) == None);
    publish(&board, seat, -5);
    assert!(rt; look(&board, seat) == -5);
    let Ok(closed) = close(rt.alloc(), board, seats) else {
        panic!(rt; "no memory")
    };
    assert!(rt;
        closed
            == Closed {
                bound: -5,
                entered: 2,
                claimed: 2
            }
    );
    Ok(())
}

/// A board of one prefix and one task, and its two seats.
fn two_seats(alloc: Global) -> Result<(Board, BoardSeat, BoardSeat), Memory>
    ensures first { IfOk result (λ r. IsFirstSeat r.0 r.1) }
    ensures second { IfOk result (λ r. IsFirstSeat r.0 r.2) }
    ensures plan { IfOk result (λ r. r.0.plan ≡ plan_of (pos 0) 1 1 2) }
{
    let (board, mut seats) = make_board(alloc, 0, 1, 1, 2)?;
    let Some(second) = seats.pop() else {
        return Err(Memory);
    };
    let Some(first) = seats.pop() else {
        return Err(Memory);
    };
    Ok((board, first, second))
}

/// The words of a round of two seats.
fn closed_by(
    alloc: Global,
    board: Board,
    first: BoardSeat,
    second: BoardSeat,
) -> Result<Closed, Memory>
    requires first { IsSeatOf board first }
    requires second { IsSeatOf board second }
    requires workers { board.plan.workers ≡ 2 }
{
    let mut seats = Vec::new(alloc);
    seats.push(first)?;
    seats.push(second)?;
    close(alloc, board, seats)
}

/// Two seats are made before any step, and each begins with what the opening seat saw; joined, they
/// give the sum of their counts, all their claims, and the least energy that one of them published.
#[test]
fn two_seats_are_made_and_joined(rt: HostRuntime) -> Result<(), Fail> {
    let (board, mut first, mut second) = two_seats(rt.alloc())?;
    assert!(rt; look(&board, &mut first) == 1);
    assert!(rt; look(&board, &mut second) == 1);
    assert!(rt; enter(&board, &mut first, 0) == Entered::Yes);
    publish(&board, &mut second, -5);
    assert!(rt; look(&board, &mut second) == -5);
    assert!(rt; enter(&board, &mut second, -6) == Entered::Spent);
    assert!(rt; look(&board, &mut first) == -5);
    publish(&board, &mut first, 7);
    assert!(rt; look(&board, &mut second) == -5);
    assert!(rt; claim(&board, &mut second) == Some(0));
    assert!(rt; claim(&board, &mut first) == None);
    let closed = closed_by(rt.alloc(), board, first, second)?;
    let wanted = Closed {
        bound: -5,
        entered: 2,
        claimed: 2,
    };
    assert!(rt; closed == wanted);
    Ok(())
}
