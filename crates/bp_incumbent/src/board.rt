//! The board and its calls. None takes a handle, so none can wait for another.
ghost use Rattle.std.specs.Prelude.{◌≡◌, ℕ, ◌+◌, ◌-◌, ◌<◌, ◌≤◌, true, false, leb, [], ◌++◌, map, length, All, IfOk, slice_index_or};
ghost use Rattle.std.specs.List.{flat_map, Contains, Any, range_with_len};
ghost use Rattle.bp_base.specs.Bags.{AreSame};
ghost use Rattle.bp_base.specs.Limits.{most_number, most_budget, most_hands};
ghost use Rattle.bp_incumbent.specs.Side.{IsLeast, IsKnown};
ghost use Rattle.bp_incumbent.specs.Tickets.{is_spent};
ghost use Rattle.bp_incumbent.specs.Board.{PassView, new_pass, saw, offered, drew, halted, read_halt, noted, met, IsCarried};
ghost use Rattle.bp_incumbent.specs.Seats.{board_of, IsDealing, HasTaken};

use crate::halt::{HaltKey, HaltRule, HaltTable};
use crate::pass::{Note, Pass};
use crate::seats::Seats;
use crate::side::{SideKey, SideRule, SideTable};
use crate::tickets::{TicketKey, TicketRule, TicketTable};
use bp_base::NoMemory;
use std::alloc::Global;
use std::marker::Model;

/// The best side found, the next ticket and a halt, which workers share.
#[derive(Drop)]
pub struct Board {
    pub(crate) side: SideTable,
    pub(crate) tickets: TicketTable,
    pub(crate) halt: HaltTable,
}

impl Model for Board {
    ghost use Rattle.bp_incumbent.specs.Board.{BoardView};

    ghost Value = { BoardView };

    ghost use Rattle.bp_incumbent.specs.Boards.{board_view, IsBoard};

    ghost view = { board_view };

    ghost invariant = { IsBoard };
}

/// What a board ended with: the best side, in grid units, and how many tickets were drawn.
#[derive(Clone, Copy, Debug, PartialEq, Eq)]
pub struct Closing {
    pub side: u64,
    pub tickets: u64,
}

impl Board {
    /// A board with this side, in grid units, and its passes, numbered from 1 on. A pass is spent once it draws a ticket at or above the limit.
    pub fn open(
        alloc: Global,
        side: u64,
        limit: u64,
        passes: u64,
    ) -> Result<(Board, Vec<Pass>), NoMemory>
        requires side { side ≤ most_number }
        requires limit { limit ≤ most_budget }
        requires passes { (0 < passes) × (passes ≤ most_hands) }
        ensures board { IfOk result (λ r. (r.0.opening ≡ side) × (r.0.limit ≡ limit) × (r.0.passes ≡ passes)) }
        ensures count { IfOk result (λ r. length r.1.items ≡ passes) }
        ensures passes { IfOk result (λ r. (k : ℕ) (d : PassView) → k < passes → slice_index_or r.1.items k d ≡ new_pass r.0.id (k + 1) side) }
    {
        let mut all = Vec::with_capacity(alloc, passes as usize)?;
        let (board, mut seats) = Board::lay(alloc, side, limit, passes)?;
        for k in 0..passes {
            all.push_reserved(Pass::deal(&board, &mut seats, k + 1, side));
        }
        Ok((board, all))
    }

    // The three tables, and the seats that stand for all passes.
    fn lay(alloc: Global, side: u64, limit: u64, passes: u64) -> Result<(Board, Seats), NoMemory>
        requires limit { limit ≤ most_budget }
        requires passes { (0 < passes) × (passes ≤ most_hands) }
        ensures board { IfOk result (λ r. (r.0.opening ≡ side) × (r.0.limit ≡ limit) × (r.0.passes ≡ passes)) }
        ensures seats { IfOk result (λ r. (board_of r.1 ≡ r.0.id) × IsDealing 1 passes side r.1) }
    {
        let (side_table, side_seat) = SideTable::of_words(
            alloc,
            &[side],
            &SideKey {
                opening: side,
                passes,
            },
        )?;
        let (ticket_table, ticket_seat) = TicketTable::of_words(
            alloc,
            &[0],
            &TicketKey { limit, passes },
        )?;
        let (halt_table, halt_seat) = HaltTable::of_words(alloc, &[0], &HaltKey { passes })?;
        let board = Board {
            side: side_table,
            tickets: ticket_table,
            halt: halt_table,
        };
        let seats = Seats {
            side: side_seat,
            tickets: ticket_seat,
            halt: halt_seat,
        };
        Ok((board, seats))
    }

    /// Loads the best side. It is at most each side that this pass has seen or offered. The pass is fresh then.
    pub fn side(&self, pass: &mut Pass) -> u64
        requires { pass.old.board ≡ self.now.id }
        ensures least { All (λ y. result ≤ y) (pass.old.seen ++ pass.old.offers) }
        ensures pass { pass.new ≡ saw pass.old result }
    {
        let side = SideRule::load(&self.side.shared, &mut pass.seats.side);
        pass.last = side;
        pass.fresh = true;
        side
    }

    /// Offers a side, in grid units, and gives the best side before it, which is at most each side that this pass has seen or offered.
    pub fn offer(&self, pass: &mut Pass, side: u64) -> u64
        requires { pass.old.board ≡ self.now.id }
        ensures least { All (λ y. result ≤ y) (pass.old.seen ++ pass.old.offers) }
        ensures pass { pass.new ≡ offered pass.old side result }
    {
        SideRule::lower(&self.side.shared, &mut pass.seats.side, side)
    }

    /// Draws the next ticket, beside which the pass keeps what its last call of `side` gave. The pass isn't fresh then, and it is spent where the ticket is at or above the limit.
    pub fn draw(&self, pass: &mut Pass) -> u64
        requires board { pass.old.board ≡ self.now.id }
        requires unspent { is_spent self.now.limit pass.old.tickets ≡ false }
        requires fresh { pass.old.fresh ≡ true }
        ensures rises { All (λ t. t.number < result) pass.old.tickets }
        ensures seen { Contains pass.old.seen pass.old.last }
        ensures spent { is_spent self.now.limit pass.new.tickets ≡ leb self.now.limit result }
        ensures pass { pass.new ≡ drew pass.old result }
    {
        let ticket = TicketRule::draw(&self.tickets.shared, &mut pass.seats.tickets, pass.last);
        pass.fresh = false;
        ticket
    }

    /// Tells all passes to stop.
    pub fn halt(&self, pass: &mut Pass)
        requires { pass.old.board ≡ self.now.id }
        ensures { pass.new ≡ halted pass.old }
    {
        HaltRule::set(&self.halt.shared, &mut pass.seats.halt);
    }

    /// Whether halt is set, which it always is where this pass has halted.
    pub fn halted(&self, pass: &mut Pass) -> bool
        requires { pass.old.board ≡ self.now.id }
        ensures own { pass.old.halted ≡ true → result ≡ true }
        ensures pass { pass.new ≡ read_halt pass.old result }
    {
        HaltRule::load(&self.halt.shared, &mut pass.seats.halt) != 0
    }

    /// A note of what the pass has seen and offered, for another pass to meet.
    pub fn note(&self, pass: &mut Pass) -> Note
        requires { pass.old.board ≡ self.now.id }
        ensures note { result ≡ noted pass.old }
        ensures pass { pass.new ≡ pass.old }
    {
        Note {
            side: SideRule::copy(&self.side.shared, &mut pass.seats.side),
        }
    }

    /// Takes a note in, and loads the best side. It is at most each side that this pass or the noted one had seen or offered.
    pub fn meet(&self, pass: &mut Pass, note: Note) -> u64
        requires { (pass.old.board ≡ self.now.id) × (note.side ≡ self.now.id.side) }
        ensures least { All (λ y. result ≤ y) ((pass.old.seen ++ note.seen) ++ pass.old.offers) }
        ensures pass { pass.new ≡ met pass.old note.seen result }
    {
        let Note { side } = note;
        SideRule::join(&self.side.shared, &mut pass.seats.side, side);
        SideRule::load(&self.side.shared, &mut pass.seats.side)
    }

    /// Ends the board, once all its passes are back. The side is the least of the opening side and all offers, and the tickets are the numbers below `tickets`, each once. Each side that a pass has seen is the opening side or was offered, so none is below the last side, and halt was read as set only where some pass has halted.
    pub fn close(self, alloc: Global, passes: Vec<Pass>) -> Result<Closing, NoMemory>
        requires { All (λ p. p.board ≡ self.id) passes.items × (length passes.items ≡ self.passes) }
        ensures side { IfOk result (λ c. IsLeast c.side self.opening (flat_map (λ p. p.offers) passes.items)) }
        ensures tickets { IfOk result (λ c. AreSame (map (λ t. t.number) (flat_map (λ p. p.tickets) passes.items)) (range_with_len 0 c.tickets)) }
        ensures seen { IfOk result (λ _. All (λ p. All (IsKnown self.opening (flat_map (λ p. p.offers) passes.items)) p.seen) passes.items) }
        ensures none_below { IfOk result (λ c. All (λ p. All (λ y. c.side ≤ y) p.seen) passes.items) }
        ensures carried { IfOk result (λ _. All IsCarried passes.items) }
        ensures halt { IfOk result (λ _. Any (λ p. p.halt_read ≡ true) passes.items → Any (λ p. p.halted ≡ true) passes.items) }
    {
        // Joining seats takes no memory.
        let _ = alloc;
        let seats = gather(&self, passes);
        let Board {
            side: side_table,
            tickets: ticket_table,
            halt: halt_table,
        } = self;
        let side = SideRule::close(side_table, seats.side);
        let tickets = TicketRule::close(ticket_table, seats.tickets);
        HaltRule::close(halt_table, seats.halt);
        Ok(Closing { side, tickets })
    }
}

// The seats of all passes, joined.
fn gather(board: &Board, mut passes: Vec<Pass>) -> Seats
    requires { All (λ p. p.board ≡ board.now.id) passes.items × (0 < length passes.items) }
    ensures board { board_of result ≡ board.now.id }
    ensures taken { HasTaken result [] passes.items }
{
    let Some(first) = passes.pop() else {
        unreachable!()
    };
    let Pass { mut seats, .. } = first;
    while let Some(pass) = passes.pop() {
        let Pass { seats: other, .. } = pass;
        seats.join(board, other);
    }
    seats
}

fn moves<T: Send>(_: &T) {}

fn shares<T: Sync>(_: &T) {}

// A pass and a note may go to another thread, and a board may be shared by threads.
fn crosses(board: &Board, pass: &Pass, note: &Note) {
    shares(board);
    moves(board);
    moves(pass);
    moves(note);
}
