//! The side table: one word, the best side found.
ghost use Rattle.std.specs.Prelude.{◌≡◌, ◌≤◌, [], All, length};
ghost use Rattle.bp_incumbent.specs.Side.{sides_of, offers_of, with_offer, with_seen, NamesOne, IsLeast, IsKnown, dealt_rest, dealt_one, noted, both};

use atomic_table::{Join, Play, Seat, Shared, Split, Table, TableRule};
use std::alloc::Global;
use std::collections::LinkedList;

// What the table is told once: the opening side, and how many passes there are.
#[derive(Drop)]
pub struct SideKey {
    pub opening: u64,
    pub passes: u64,
}

// A pass by its number, and what it offered. No value of it is made.
pub struct Offers {
    pub number: u64,
    pub sides: LinkedList<u64>,
}

// What a seat knows: the passes that it stands for, and the sides that they have seen. No value of it is made.
pub struct SideView {
    pub passes: LinkedList<Offers>,
    pub seen: LinkedList<u64>,
}

pub struct SideRule;

impl TableRule<(), SideView, SideKey> for SideRule {
    ghost use Rattle.bp_incumbent.specs.Side.{SideHolds, dealt};

    ghost holds = { SideHolds };

    ghost first = { dealt };
}

// A load tells the word.
pub struct Loads;

impl Play<(), SideView> for Loads {
    ghost use Rattle.bp_incumbent.specs.Side.{Loaded};

    ghost then = { λ _ me found after. Loaded me found after };
}

// A fetch_min offers its operand.
pub struct Lowers;

impl Play<(), SideView> for Lowers {
    ghost use Rattle.bp_incumbent.specs.Side.{Lowered};

    ghost then = { λ step me found after. Lowered me step.first found after };
}

// The first number is cut off.
pub struct Deals;

impl Split<SideView> for Deals {
    ghost use Rattle.bp_incumbent.specs.Side.{dealt_rest, dealt_one};

    ghost left = { dealt_rest };

    ghost right = { dealt_one };
}

// What was seen and offered is copied.
pub struct Copies;

impl Split<SideView> for Copies {
    ghost use Rattle.bp_incumbent.specs.Side.{noted};

    ghost left = { λ v. v };

    ghost right = { noted };
}

pub struct Adds;

impl Join<SideView> for Adds {
    ghost use Rattle.bp_incumbent.specs.Side.{both, none};

    ghost both = { both };

    ghost spent = { none };
}

pub type SideSeat = Seat<(), SideView>;

pub type SideShared = Shared<(), SideView, SideKey, SideRule>;

pub type SideTable = Table<(), SideView, SideKey, SideRule, Global>;

impl SideRule {
    /// A load of the word.
    pub fn load(table: &SideShared, seat: &mut SideSeat) -> u64
        requires { (seat.old.table_id ≡ table.now.table_id) × (table.now.table_id.words ≡ 1) }
        ensures seat { (seat.new.table_id ≡ seat.old.table_id) × (seat.new.me ≡ (with_seen seat.old.me.0 result, seat.old.me.1)) }
        ensures least { All (λ y. result ≤ y) (sides_of seat.old.me.0) }
    {
        table.load::<Loads>(seat, 0)
    }

    /// A fetch_min of the word. It gives the word as it was.
    pub fn lower(table: &SideShared, seat: &mut SideSeat, side: u64) -> u64
        requires { (seat.old.table_id ≡ table.now.table_id) × (table.now.table_id.words ≡ 1) × NamesOne seat.old.me.0 }
        ensures seat { (seat.new.table_id ≡ seat.old.table_id) × (seat.new.me ≡ (with_seen (with_offer seat.old.me.0 side) result, seat.old.me.1)) }
        ensures least { All (λ y. result ≤ y) (sides_of seat.old.me.0) }
    {
        table.fetch_min::<Lowers>(seat, 0, side)
    }

    /// Cuts the first number off.
    pub fn deal(table: &SideShared, seat: &mut SideSeat) -> SideSeat
        requires { (seat.old.table_id ≡ table.now.table_id) × (table.now.table_id.words ≡ 1) }
        ensures seat { (seat.new.table_id ≡ seat.old.table_id) × (seat.new.me ≡ (dealt_rest seat.old.me.0, seat.old.me.1)) }
        ensures result { (result.table_id ≡ seat.old.table_id) × (result.me ≡ (dealt_one seat.old.me.0, [])) }
    {
        table.split_seat::<Deals>(seat)
    }

    /// A seat that knows what this one has seen and offered.
    pub fn copy(table: &SideShared, seat: &mut SideSeat) -> SideSeat
        requires { (seat.old.table_id ≡ table.now.table_id) × (table.now.table_id.words ≡ 1) }
        ensures seat { (seat.new.table_id ≡ seat.old.table_id) × (seat.new.me ≡ seat.old.me) }
        ensures result { (result.table_id ≡ seat.old.table_id) × (result.me ≡ (noted seat.old.me.0, [])) }
    {
        table.split_seat::<Copies>(seat)
    }

    /// Takes another seat in.
    pub fn join(table: &SideShared, seat: &mut SideSeat, other: SideSeat)
        requires { (seat.old.table_id ≡ table.now.table_id) × (other.table_id ≡ table.now.table_id) × (other.me.1 ≡ []) × (table.now.table_id.words ≡ 1) }
        ensures { (seat.new.table_id ≡ seat.old.table_id) × (seat.new.me ≡ (both seat.old.me.0 other.me.0, seat.old.me.1)) }
    {
        table.join_seat::<Adds>(seat, other);
    }

    /// The last word, where the seat stands for all passes.
    pub fn close(table: SideTable, seat: SideSeat) -> u64
        requires table { (seat.table_id ≡ table.shared.table_id) × (table.shared.table_id.words ≡ 1) × (table.shared.table_id.slots ≡ 0) }
        requires all { length seat.me.0.passes ≡ table.shared.key.passes }
        ensures least { IsLeast result table.shared.key.opening (offers_of seat.me.0) }
        ensures seen { All (IsKnown table.shared.key.opening (offers_of seat.me.0)) seat.me.0.seen }
    {
        let closed = table.close_with(seat);
        let word = closed.word(0);
        closed.free();
        word
    }
}
