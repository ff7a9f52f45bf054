//! The tickets table: one word, the next ticket.
ghost use Rattle.std.specs.Prelude.{◌≡◌, ℕ, ◌≤◌, [], map, length};
ghost use Rattle.std.specs.List.{range_with_len};
ghost use Rattle.bp_base.specs.Bags.{AreSame};
ghost use Rattle.bp_base.specs.Limits.{most_budget, most_hands};
ghost use Rattle.bp_incumbent.specs.Tickets.{with_ticket, NamesUnspent, IsAbove, dealt_rest, dealt_one, both, tickets_of};

use atomic_table::{Join, Play, Seat, Shared, Split, Table, TableRule};
use std::alloc::Global;
use std::collections::LinkedList;
use std::marker::{Brand, PhantomData};

// What the table is told once: from which ticket on a pass is spent, and how many passes there are.
#[derive(Drop)]
pub struct TicketKey {
    pub limit: u64,
    pub passes: u64,
}

/// A ticket, and the side that the last load before it gave. Contracts speak of it; no value of it is made.
pub struct Ticket {
    pub number: u64,
    pub side: u64,
}

// A pass by its number, and its tickets. No value of it is made.
pub struct Drawn {
    pub number: u64,
    pub tickets: LinkedList<Ticket>,
}

// What a seat knows: the passes that it stands for. No value of it is made.
pub struct TicketView {
    pub passes: LinkedList<Drawn>,
}

pub struct TicketRule;

impl TableRule<(), TicketView, TicketKey> for TicketRule {
    ghost use Rattle.bp_incumbent.specs.Tickets.{TicketHolds, dealt};

    ghost holds = { TicketHolds };

    ghost first = { dealt };
}

// The side that a step carries. Each call picks it, for the proof alone.
pub trait Carries {
    ghost side: { ℕ };
}

impl Carries for Brand {
    ghost side = { 0 };
}

// A fetch_add draws a ticket.
pub struct Draws<C> {
    of: PhantomData<C>,
}

impl<C: Carries> Play<(), TicketView> for Draws<C> {
    ghost use Rattle.bp_incumbent.specs.Tickets.{Drew};

    ghost then = { λ _ me found after. Drew me found C.side after };
}

// The first number is cut off.
pub struct Deals;

impl Split<TicketView> for Deals {
    ghost use Rattle.bp_incumbent.specs.Tickets.{dealt_rest, dealt_one};

    ghost left = { dealt_rest };

    ghost right = { dealt_one };
}

pub struct Adds;

impl Join<TicketView> for Adds {
    ghost use Rattle.bp_incumbent.specs.Tickets.{both, none};

    ghost both = { both };

    ghost spent = { none };
}

pub type TicketSeat = Seat<(), TicketView>;

pub type TicketShared = Shared<(), TicketView, TicketKey, TicketRule>;

pub type TicketTable = Table<(), TicketView, TicketKey, TicketRule, Global>;

fn draw_with<C: Carries>(table: &TicketShared, seat: &mut TicketSeat, side: u64) -> u64
    requires table { (seat.old.table_id ≡ table.now.table_id) × (table.now.table_id.words ≡ 1) × (table.now.key.limit ≤ most_budget) × (table.now.key.passes ≤ most_hands) }
    requires seat { NamesUnspent table.now.key.limit seat.old.me.0 }
    requires side { side ≡ C.side }
    ensures seat { (seat.new.table_id ≡ seat.old.table_id) × (seat.new.me ≡ (with_ticket seat.old.me.0 result C.side, seat.old.me.1)) }
    ensures rises { IsAbove result seat.old.me.0 }
{
    table.fetch_add::<Draws<C>>(seat, 0, 1)
}

impl TicketRule {
    /// A fetch_add of the word. It gives the word as it was, which is the ticket, and the side is kept beside it.
    pub fn draw(table: &TicketShared, seat: &mut TicketSeat, side: u64) -> u64
        requires table { (seat.old.table_id ≡ table.now.table_id) × (table.now.table_id.words ≡ 1) × (table.now.key.limit ≤ most_budget) × (table.now.key.passes ≤ most_hands) }
        requires seat { NamesUnspent table.now.key.limit seat.old.me.0 }
        ensures seat { (seat.new.table_id ≡ seat.old.table_id) × (seat.new.me ≡ (with_ticket seat.old.me.0 result side, seat.old.me.1)) }
        ensures rises { IsAbove result seat.old.me.0 }
    {
        draw_with::<Brand>(table, seat, side)
    }

    /// Cuts the first number off.
    pub fn deal(table: &TicketShared, seat: &mut TicketSeat) -> TicketSeat
        requires { (seat.old.table_id ≡ table.now.table_id) × (table.now.table_id.words ≡ 1) }
        ensures seat { (seat.new.table_id ≡ seat.old.table_id) × (seat.new.me ≡ (dealt_rest seat.old.me.0, seat.old.me.1)) }
        ensures result { (result.table_id ≡ seat.old.table_id) × (result.me ≡ (dealt_one seat.old.me.0, [])) }
    {
        table.split_seat::<Deals>(seat)
    }

    /// Takes another seat in.
    pub fn join(table: &TicketShared, seat: &mut TicketSeat, other: TicketSeat)
        requires { (seat.old.table_id ≡ table.now.table_id) × (other.table_id ≡ table.now.table_id) × (other.me.1 ≡ []) × (table.now.table_id.words ≡ 1) }
        ensures { (seat.new.table_id ≡ seat.old.table_id) × (seat.new.me ≡ (both seat.old.me.0 other.me.0, seat.old.me.1)) }
    {
        table.join_seat::<Adds>(seat, other);
    }

    /// The last word, where the seat stands for all passes.
    pub fn close(table: TicketTable, seat: TicketSeat) -> u64
        requires table { (seat.table_id ≡ table.shared.table_id) × (table.shared.table_id.words ≡ 1) × (table.shared.table_id.slots ≡ 0) }
        requires all { length seat.me.0.passes ≡ table.shared.key.passes }
        ensures once { AreSame (map (λ t. t.number) (tickets_of seat.me.0)) (range_with_len 0 result) }
    {
        let closed = table.close_with(seat);
        let word = closed.word(0);
        closed.free();
        word
    }
}
