// The pieces of a batch's input.
ghost use Rattle.std.specs.Prelude.{◌≡◌, ◌≤◌, ◌<◌, [], ◌∷◌, ◌++◌, All, length, map, IfErr, IfOk, OnOk};
ghost use Rattle.boxpleat_batch.specs.declared.pieces.Uncut.TheVariants.{NoMemory as NoRoom};
ghost use Rattle.boxpleat_batch.specs.Pieces.{IsWithin, bytes_at, is_mark, most_pieces, pieces_of};

use bp_base::NoMemory;
use bp_text::line;
use std::alloc::Global;

// The most pieces of a batch.
const MOST_PIECES: usize = 200;

/// A piece goes from a place in the input to before another.
#[derive(Clone, Copy, Debug, PartialEq, Eq)]
pub struct Piece {
    pub from: usize,
    pub to: usize,
}

/// Why an input isn't cut.
#[derive(Clone, Copy, Debug, PartialEq, Eq)]
pub enum Uncut {
    TooManyPieces,
    NoMemory,
}

impl From<NoMemory> for Uncut {
    ghost from_gives = { λ _ e. e ≡ NoRoom };

    fn from(_: NoMemory) -> Self {
        Uncut::NoMemory
    }
}

// The pieces of the input, in order.
pub fn cut(alloc: Global, bytes: &[u8]) -> Result<Vec<Piece>, Uncut>
    ensures pieces { IfOk result (λ v. map (bytes_at bytes.now) v.items ≡ pieces_of bytes.now) }
    ensures within { IfOk result (λ v. All (IsWithin (length bytes.now)) v.items) }
    ensures few { IfOk result (λ v. length v.items ≤ most_pieces) }
    ensures many { IfErr result (λ e. e ≡ Uncut.TooManyPieces → most_pieces < length (pieces_of bytes.now)) }
{
    let mut pieces = Vec::new(alloc);
    let mut from = 0;
    let mut at = 0;
    while let Some(here) = line(bytes, at) {
        let next = here.next as usize;
        if is_mark(&bytes[at as usize..next]) {
            if pieces.len() + 1 >= MOST_PIECES {
                return Err(Uncut::TooManyPieces);
            }
            let to = at as usize;
            add(&mut pieces, Piece { from, to })?;
            from = next;
        }
        at = here.next;
    }
    let to = bytes.len();
    add(&mut pieces, Piece { from, to })?;
    Ok(pieces)
}

fn add(pieces: &mut Vec<Piece>, piece: Piece) -> Result<(), Uncut>
    ensures ok { OnOk result (pieces.new.items ≡ pieces.old.items ++ piece ∷ []) }
    ensures err { IfErr result (λ e. e ≡ Uncut.NoMemory) }
{
    match pieces.push(piece) {
        Ok(()) => Ok(()),
        Err(_) => Err(Uncut::NoMemory),
    }
}

// Whether the line, with its LF where it has one, is `%`, with or without CR.
fn is_mark(line: &[u8]) -> bool
    ensures { result ≡ is_mark line.now }
{
    line == b"%\n".as_slice()
        || line == b"%\r\n".as_slice()
        || line == b"%".as_slice()
        || line == b"%\r".as_slice()
}
