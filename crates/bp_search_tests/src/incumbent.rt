ghost use Rattle.std.specs.Prelude.{◌≡◌, ◌<◌, ◌≤◌, leb, false, [], ◌∷◌, ◌++◌, All, IfOk, length};
ghost use Rattle.bp_base.specs.Limits.{most_number, most_budget};
ghost use Rattle.bp_incumbent.specs.Board.{new_pass};
ghost use Rattle.bp_incumbent.specs.Tickets.{is_spent};

use bp_incumbent::*;
use std::alloc::Global;
use std::sync::atomic::{AtomicU64, Ordering};
use std::test::Fail;
use std::thread;
use std::thread::Threads;

// A board with two passes.
fn board_of_two(alloc: Global, side: u64, limit: u64) -> Result<(Board, Pass, Pass), Fail>
    requires { (side ≤ most_number) × (limit ≤ most_budget) }
    ensures board { IfOk result (λ r. (r.0.limit ≡ limit) × (r.0.passes ≡ 2)) }
    ensures passes { IfOk result (λ r. (r.1 ≡ new_pass r.0.id 1 side) × (r.2 ≡ new_pass r.0.id 2 side)) }
{
    let (board, mut passes) = Board::open(alloc, side, limit, 2)?;
    let Some(b) = passes.pop() else {
        unreachable!()
    };
    let Some(a) = passes.pop() else {
        unreachable!()
    };
    Ok((board, a, b))
}

// Each pass calls `side` before each of its draws.
fn load_and_draw(board: &Board, pass: &mut Pass) -> (u64, u64)
    requires { (pass.old.board ≡ board.now.id) × (is_spent board.now.limit pass.old.tickets ≡ false) }
    ensures { (pass.new.board ≡ pass.old.board) × (is_spent board.now.limit pass.new.tickets ≡ leb board.now.limit result.1) }
{
    let side = board.side(pass);
    (side, board.draw(pass))
}

#[test]
fn two_passes(rt: HostRuntime) -> Result<(), Fail> {
    let (board, mut a, mut b) = board_of_two(rt.alloc(), 10, 3)?;
    assert_eq!(rt; board.offer(&mut a, 7), 10);
    assert_eq!(rt; board.side(&mut b), 7);
    let first = load_and_draw(&board, &mut a);
    assert!(rt; first == (7, 0));
    let second = load_and_draw(&board, &mut b);
    assert!(rt; second == (7, 1));
    let third = load_and_draw(&board, &mut a);
    assert!(rt; third == (7, 2));
    let fourth = load_and_draw(&board, &mut b);
    assert!(rt; fourth == (7, 3));
    let note = board.note(&mut a);
    assert_eq!(rt; board.meet(&mut b, note), 7);
    let passes = Vec::from_array(rt.alloc(), [a, b])?;
    let closing = board.close(rt.alloc(), passes)?;
    assert_eq!(rt;
        closing,
        Closing {
            side: 7,
            tickets: 4
        }
    );
    Ok(())
}

#[test]
fn an_offer_and_a_halt_reach_another(rt: HostRuntime) -> Result<(), Fail> {
    let (board, mut a, mut b) = board_of_two(rt.alloc(), 10, 0)?;
    assert_eq!(rt; board.side(&mut b), 10);
    assert_eq!(rt; board.offer(&mut a, 6), 10);
    assert_eq!(rt; board.offer(&mut a, 8), 6);
    assert_eq!(rt; board.side(&mut b), 6);
    assert!(rt; !board.halted(&mut a));
    assert!(rt; !board.halted(&mut b));
    board.halt(&mut a);
    assert!(rt; board.halted(&mut b));
    assert!(rt; board.halted(&mut a));
    let passes = Vec::from_array(rt.alloc(), [a, b])?;
    let closing = board.close(rt.alloc(), passes)?;
    assert_eq!(rt;
        closing,
        Closing {
            side: 6,
            tickets: 0
        }
    );
    Ok(())
}

// One worker's turn: it loads, offers, loads, draws, and keeps its ticket at its place.
fn turn(board: &Board, pass: &mut Pass, place: usize, drawn: &[AtomicU64; 4])
    requires { (pass.old.board ≡ board.now.id) × (pass.old.tickets ≡ []) × (place < 4) }
    ensures { pass.new.board ≡ pass.old.board }
{
    board.side(pass);
    board.offer(pass, 9 - place as u64);
    board.side(pass);
    let ticket = board.draw(pass);
    drawn[place].store(ticket, Ordering::SeqCst);
}

// Four workers, each in a thread of its own.
fn four_turns<R: Threads + Sync>(rt: &R, board: &Board, passes: &mut [Pass], drawn: &[AtomicU64; 4])
    requires { All (λ p. (p.board ≡ board.now.id) × (p.tickets ≡ [])) passes.old × (length passes.old ≡ 4) }
    ensures { All (λ p. p.board ≡ board.now.id) passes.new × (length passes.new ≡ 4) }
{
    thread::for_each_mut(rt, passes, 4, &|k, pass| turn(board, pass, k, drawn));
}

#[test]
fn four_threads(rt: HostRuntime) -> Result<(), Fail> {
    let (board, mut passes) = Board::open(rt.alloc(), 100, 10, 4)?;
    let drawn = [
        AtomicU64::new(9),
        AtomicU64::new(9),
        AtomicU64::new(9),
        AtomicU64::new(9),
    ];
    four_turns(&rt, &board, passes.as_mut_slice(), &drawn);
    let closing = board.close(rt.alloc(), passes)?;
    assert_eq!(rt;
        closing,
        Closing {
            side: 6,
            tickets: 4
        }
    );
    let mut tickets = [0; 4];
    for k in 0..4 {
        tickets[k] = drawn[k].load(Ordering::SeqCst);
    }
    tickets.sort_unstable();
    assert_eq!(rt; tickets, [0, 1, 2, 3]);
    Ok(())
}
