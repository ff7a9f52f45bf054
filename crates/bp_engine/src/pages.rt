// `help` and `version`: pages that are constants.
ghost use Rattle.std.specs.Prelude.{◌≡◌};
ghost use Rattle.bp_base.specs.Causes.{Rose};
ghost use Rattle.bp_engine.specs.Pages.{Shows};
ghost use Rattle.bp_engine.specs.Texts.{MayWrite};

use crate::Status;
use bp_base::{Failed, Sink};
use bp_text::put;

/// The page of help.
pub const HELP: &[u8; 3290] =
    b"boxpleat: the smallest sheet for a box-pleated figure, with a proof that no smaller one will do

A figure is a tree: a line for each edge, with the upper node's name, the lower node's name and the length.

boxpleat solve [--budget B] [--strip W] [--fold FILE]
    reads a tree from standard input and writes a certificate: side, points, and lemmas that prove the bound
    --budget B     how many lemmas the search may learn, 1 to 1000000; without it 100000
    --strip W      the least height of a sheet of width W, 0 to 999999; without it the side of a square
    --fold FILE    writes a FOLD file too, with the outlines of flaps and rivers; of squares alone
boxpleat verify --tree FILE
    reads the tree from FILE and a certificate from standard input; writes yes with side and bound, or no with the reason
boxpleat design [--budget B] [--strip W] [--fold FILE] [--workers N] [--replay SEED] [--steady Q]
    reads a tree from standard input and writes a design: side, points, and a proof by cases
    --budget B     how many branches the search may examine, 1 to 200000; without it 50000
    --strip W, --fold FILE    as of solve
    --workers N    how many hands search, 1 to 16; without it 4
    --replay SEED  the hands take turns by numbers drawn from SEED, 0 to 4294967295; without it they run on threads
    --steady Q     of all placements of the least side the one whose list of coordinates is least, the same at each run;
                   finding it may examine Q paths, 1 to 10000000
boxpleat check --tree FILE
    reads the tree from FILE and a design from standard input; writes yes with side and bound, or no with the reason
boxpleat revise --tree FILE [--budget B]
    reads the tree from FILE and a design of a tree with the same nodes and other lengths from standard input; keeps what still
    holds of its proof, searches the rest, and writes a design of the tree
    --budget B     as of design
boxpleat contours
    reads a design or a certificate from standard input and writes the outlines of what each flap and river takes of the sheet
boxpleat pieces
    reads a design or a certificate from standard input and writes the connected pieces and the holes of each flap and river
boxpleat picture
    reads a design or a certificate from standard input and writes an SVG picture of it
boxpleat rewrite
    reads a design of version 1 or 2 from standard input and writes it in version 2
boxpleat made N SEED
    writes a tree with N leaves, 2 to 16, that is drawn from SEED, 0 to 4294967295
boxpleat trial N SEED
    designs that tree, and writes a summary in three lines
boxpleat help
boxpleat version

Statuses, with what stands on the error output:
    0  done
    1  the tree, design or certificate is none: its first fault, with the line
    2  the words are not those of a command
    3  the budget was spent: what is written is right, and the least side lies between bound and side
    4  an input could not be read
    5  an output could not be written
    6  no memory; nothing was written
    7  the answer is no; the reason stands on the output
    8  not built
    9  finding the steady placement would take more than its Q paths; nothing was written
    10 the tree has other nodes, parents or names than the design that was read; nothing was written
";

/// The name and the version.
pub const VERSION: &[u8; 15] = b"boxpleat 1.0.0\n";

// Writes a page.
pub fn show<K: Sink>(page: &[u8], out: &mut K) -> Status
    ensures shows { Shows page.now (K.held out.old) (K.held out.new) result }
    ensures unwritten { (MayWrite result → ⊥) → out.new ≡ out.old }
    ensures ends { MayWrite result }
    ensures write { result ≡ Status.WriteFault → Rose (K.faults out.old) (K.faults out.new) }
{
    match put(out, page) {
        Ok(()) => Status::Done,
        Err(Failed) => Status::WriteFault,
    }
}
