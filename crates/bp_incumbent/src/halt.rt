//! The halt table: one word, which is set once a pass has halted.
ghost use Rattle.std.specs.Prelude.{◌≡◌, ◌<◌, [], length};
ghost use Rattle.bp_incumbent.specs.Halt.{with_read, with_halt, NamesOne, halts_in, reads_in, dealt_rest, dealt_one, both};

use atomic_table::{Join, Play, Seat, Shared, Split, Table, TableRule};
use std::alloc::Global;
use std::collections::LinkedList;

// What the table is told once: how many passes there are.
#[derive(Drop)]
pub struct HaltKey {
    pub passes: u64,
}

// A pass by its number, whether it has halted, and whether it has read halt as set. No value of it is made.
pub struct Halts {
    pub number: u64,
    pub halted: bool,
    pub was_read: bool,
}

// What a seat knows: the passes that it stands for. No value of it is made.
pub struct HaltView {
    pub passes: LinkedList<Halts>,
}

pub struct HaltRule;

impl TableRule<(), HaltView, HaltKey> for HaltRule {
    ghost use Rattle.bp_incumbent.specs.Halt.{HaltHolds, dealt};

    ghost holds = { HaltHolds };

    ghost first = { dealt };
}

// A load tells the word.
pub struct Loads;

impl Play<(), HaltView> for Loads {
    ghost use Rattle.bp_incumbent.specs.Halt.{Loaded};

    ghost then = { λ _ me found after. Loaded me found after };
}

// A fetch_or sets the word.
pub struct Sets;

impl Play<(), HaltView> for Sets {
    ghost use Rattle.bp_incumbent.specs.Halt.{Halted};

    ghost then = { λ _ me found after. Halted me found after };
}

// The first number is cut off.
pub struct Deals;

impl Split<HaltView> for Deals {
    ghost use Rattle.bp_incumbent.specs.Halt.{dealt_rest, dealt_one};

    ghost left = { dealt_rest };

    ghost right = { dealt_one };
}

pub struct Adds;

impl Join<HaltView> for Adds {
    ghost use Rattle.bp_incumbent.specs.Halt.{both, none};

    ghost both = { both };

    ghost spent = { none };
}

pub type HaltSeat = Seat<(), HaltView>;

pub type HaltShared = Shared<(), HaltView, HaltKey, HaltRule>;

pub type HaltTable = Table<(), HaltView, HaltKey, HaltRule, Global>;

impl HaltRule {
    /// A load of the word.
    pub fn load(table: &HaltShared, seat: &mut HaltSeat) -> u64
        requires { (seat.old.table_id ≡ table.now.table_id) × (table.now.table_id.words ≡ 1) × NamesOne seat.old.me.0 }
        ensures seat { (seat.new.table_id ≡ seat.old.table_id) × (seat.new.me ≡ (with_read seat.old.me.0 result, seat.old.me.1)) }
        ensures own { 0 < halts_in seat.old.me.0 → 0 < result }
    {
        table.load::<Loads>(seat, 0)
    }

    /// A fetch_or of the word.
    pub fn set(table: &HaltShared, seat: &mut HaltSeat)
        requires { (seat.old.table_id ≡ table.now.table_id) × (table.now.table_id.words ≡ 1) × NamesOne seat.old.me.0 }
        ensures seat { (seat.new.table_id ≡ seat.old.table_id) × (seat.new.me ≡ (with_halt seat.old.me.0, seat.old.me.1)) }
    {
        table.fetch_or::<Sets>(seat, 0, 1);
    }

    /// Cuts the first number off.
    pub fn deal(table: &HaltShared, seat: &mut HaltSeat) -> HaltSeat
        requires { (seat.old.table_id ≡ table.now.table_id) × (table.now.table_id.words ≡ 1) }
        ensures seat { (seat.new.table_id ≡ seat.old.table_id) × (seat.new.me ≡ (dealt_rest seat.old.me.0, seat.old.me.1)) }
        ensures result { (result.table_id ≡ seat.old.table_id) × (result.me ≡ (dealt_one seat.old.me.0, [])) }
    {
        table.split_seat::<Deals>(seat)
    }

    /// Takes another seat in.
    pub fn join(table: &HaltShared, seat: &mut HaltSeat, other: HaltSeat)
        requires { (seat.old.table_id ≡ table.now.table_id) × (other.table_id ≡ table.now.table_id) × (other.me.1 ≡ []) × (table.now.table_id.words ≡ 1) }
        ensures { (seat.new.table_id ≡ seat.old.table_id) × (seat.new.me ≡ (both seat.old.me.0 other.me.0, seat.old.me.1)) }
    {
        table.join_seat::<Adds>(seat, other);
    }

    /// Ends the table, where the seat stands for all passes.
    pub fn close(table: HaltTable, seat: HaltSeat)
        requires table { (seat.table_id ≡ table.shared.table_id) × (table.shared.table_id.words ≡ 1) × (table.shared.table_id.slots ≡ 0) }
        requires all { length seat.me.0.passes ≡ table.shared.key.passes }
        ensures read { 0 < reads_in seat.me.0 → 0 < halts_in seat.me.0 }
    {
        table.close_with(seat).free();
    }
}
