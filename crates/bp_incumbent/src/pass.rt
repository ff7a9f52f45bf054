//! Passes and notes: what one worker holds of a board.
ghost use Rattle.std.specs.Prelude.{◌≡◌, ℕ, suc, ◌+◌};
ghost use Rattle.bp_incumbent.specs.Board.{new_pass};
ghost use Rattle.bp_incumbent.specs.Seats.{board_of, IsDealing};

use crate::board::Board;
use crate::seats::Seats;
use crate::side::SideSeat;
use std::marker::Model;

/// A place at a board. One worker at a time has it, and no two have the same number.
#[derive(Drop)]
pub struct Pass {
    pub(crate) number: u64,
    pub(crate) last: u64,
    pub(crate) fresh: bool,
    pub(crate) seats: Seats,
}

impl Model for Pass {
    ghost use Rattle.bp_incumbent.specs.Board.{PassView};

    ghost Value = { PassView };

    ghost use Rattle.bp_incumbent.specs.Passes.{pass_view, IsPass};

    ghost view = { pass_view };

    ghost invariant = { IsPass };
}

/// What a pass had seen and offered when the note was made.
#[derive(Drop)]
pub struct Note {
    pub(crate) side: SideSeat,
}

impl Model for Note {
    ghost use Rattle.bp_incumbent.specs.Board.{NoteView};

    ghost Value = { NoteView };

    ghost use Rattle.bp_incumbent.specs.Notes.{note_view, IsNote};

    ghost view = { note_view };

    ghost invariant = { IsNote };
}

impl Pass {
    // The pass of this number, which is cut off the seats of those that are left.
    pub(crate) fn deal(board: &Board, left: &mut Seats, number: u64, opening: u64) -> Pass
        requires board { board_of left.old ≡ board.now.id }
        requires left { (n : ℕ) × IsDealing number (suc n) opening left.old }
        ensures board { board_of left.new ≡ board_of left.old }
        ensures left { (n : ℕ) → IsDealing number (suc n) opening left.old → IsDealing (number + 1) n opening left.new }
        ensures pass { result ≡ new_pass board.now.id number opening }
    {
        Pass {
            number,
            last: opening,
            fresh: false,
            seats: left.deal(board),
        }
    }
}
