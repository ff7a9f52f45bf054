//! A seat on each table of a board.
ghost use Rattle.std.specs.Prelude.{◌≡◌, ℕ, suc, ◌+◌, [], ◌∷◌};
ghost use Rattle.bp_incumbent.specs.Side as side;
ghost use Rattle.bp_incumbent.specs.Tickets as tickets;
ghost use Rattle.bp_incumbent.specs.Halt as halt;
ghost use Rattle.bp_incumbent.specs.Seats.{board_of};

use crate::board::Board;
use crate::halt::{HaltRule, HaltSeat};
use crate::side::{SideRule, SideSeat};
use crate::tickets::{TicketRule, TicketSeat};

#[derive(Drop)]
pub struct Seats {
    pub side: SideSeat,
    pub tickets: TicketSeat,
    pub halt: HaltSeat,
}

impl Seats {
    /// Cuts the first number off.
    pub fn deal(&mut self, board: &Board) -> Seats
        requires { board_of self.old ≡ board.now.id }
        ensures board { (board_of self.new ≡ board_of self.old) × (board_of result ≡ board_of self.old) }
        ensures side { (self.new.side.me ≡ (side.dealt_rest self.old.side.me.0, self.old.side.me.1)) × (result.side.me ≡ (side.dealt_one self.old.side.me.0, [])) }
        ensures tickets { (self.new.tickets.me ≡ (tickets.dealt_rest self.old.tickets.me.0, self.old.tickets.me.1)) × (result.tickets.me ≡ (tickets.dealt_one self.old.tickets.me.0, [])) }
        ensures halt { (self.new.halt.me ≡ (halt.dealt_rest self.old.halt.me.0, self.old.halt.me.1)) × (result.halt.me ≡ (halt.dealt_one self.old.halt.me.0, [])) }
    {
        Seats {
            side: SideRule::deal(&board.side.shared, &mut self.side),
            tickets: TicketRule::deal(&board.tickets.shared, &mut self.tickets),
            halt: HaltRule::deal(&board.halt.shared, &mut self.halt),
        }
    }

    /// Takes other seats in.
    pub fn join(&mut self, board: &Board, other: Seats)
        requires board { (board_of self.old ≡ board.now.id) × (board_of other ≡ board.now.id) }
        requires no_slots { (other.side.me.1 ≡ []) × (other.tickets.me.1 ≡ []) × (other.halt.me.1 ≡ []) }
        ensures board { board_of self.new ≡ board_of self.old }
        ensures side { self.new.side.me ≡ (side.both self.old.side.me.0 other.side.me.0, self.old.side.me.1) }
        ensures tickets { self.new.tickets.me ≡ (tickets.both self.old.tickets.me.0 other.tickets.me.0, self.old.tickets.me.1) }
        ensures halt { self.new.halt.me ≡ (halt.both self.old.halt.me.0 other.halt.me.0, self.old.halt.me.1) }
    {
        let Seats {
            side,
            tickets,
            halt,
        } = other;
        SideRule::join(&board.side.shared, &mut self.side, side);
        TicketRule::join(&board.tickets.shared, &mut self.tickets, tickets);
        HaltRule::join(&board.halt.shared, &mut self.halt, halt);
    }
}
