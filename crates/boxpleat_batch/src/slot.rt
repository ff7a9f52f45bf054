// A place for each piece, and the text of what stands in them.
ghost use Rattle.std.specs.Prelude.{◌≡◌, List, ◌++◌, codes, map, IfOk, OnOk};
ghost use Rattle.std.specs.List.{AllZip};
ghost use Rattle.boxpleat_batch.specs.declared.reply.Told.{Told as AnyTold};
ghost use Rattle.boxpleat_batch.specs.Slots.{HasTold, empty_slot, told_from};

use crate::pieces::Piece;
use crate::reply::{Told, add_reply};
use bp_base::{Failed, NoMemory};
use bp_engine::Text;
use bp_text::put;
use std::alloc::Global;

/// A piece and its reply, which is wanting before it is made and where memory ran out.
#[derive(Drop)]
pub struct Slot {
    pub piece: Piece,
    pub reply: Option<Told>,
}

// A slot for each piece, in order.
pub fn slots_for(alloc: Global, pieces: &[Piece]) -> Result<Vec<Slot>, NoMemory>
    ensures { IfOk result (λ v. v.items ≡ map empty_slot pieces.now) }
{
    let mut slots = Vec::with_capacity(alloc, pieces.len())?;
    for piece in pieces {
        slots.push(Slot {
            piece: *piece,
            reply: None,
        })?;
    }
    Ok(slots)
}

// The text of all replies, where none is wanting.
pub fn text_of_all(alloc: Global, slots: &[Slot]) -> Result<Vec<u8>, NoMemory>
    ensures { IfOk result (λ v. (told : List AnyTold) × AllZip HasTold slots.now told × (v.items ≡ told_from 1 told ++ codes "batch end\n")) }
{
    let mut text = Text::new(alloc);
    for (k, slot) in slots.iter().enumerate() {
        let Some(told) = &slot.reply else {
            return Err(NoMemory);
        };
        add_reply(&mut text, k as u64 + 1, told)?;
    }
    add_end(&mut text)?;
    Ok(text.bytes)
}

fn add_end(text: &mut Text) -> Result<(), NoMemory>
    ensures { OnOk result (text.new.bytes.items ≡ text.old.bytes.items ++ codes "batch end\n") }
{
    match put(text, b"batch end\n") {
        Ok(()) => Ok(()),
        Err(Failed) => Err(NoMemory),
    }
}
