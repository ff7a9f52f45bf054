// Revisions of stars.
ghost use Rattle.std.specs.Prelude.{◌≤◌, length, IfOk};
ghost use Rattle.bp_document.specs.Ranges.{IsDocument};
ghost use Rattle.bp_check.specs.Checks.{Checks};
ghost use Rattle.bp_revise.specs.Keep.{AreOfOneShape};

use bp_base::{Failed, MemSink, NoMemory, Tree};
use bp_check::{Verdict, check};
use bp_document::{Document, read_document, write_document};
use bp_revise::{are_of_one_shape, revise};
use bp_tree::read_tree;
use std::alloc::Global;
use std::test::Fail;

// The text of the revision of a document for a tree. It checks.
fn revised(alloc: Global, document: &[u8], tree: &[u8], budget: u64) -> Result<Vec<u8>, Fail> {
    let Ok(tree) = read_tree(alloc, tree) else {
        return Err(Fail::from("no tree"));
    };
    let Ok(old) = read_document(alloc, document) else {
        return Err(Fail::from("no document"));
    };
    match check(alloc, &old.tree, &old)? {
        Verdict::Yes => {}
        Verdict::No(_) => return Err(Fail::from("no design")),
    }
    if !are_of_one_shape(&old.tree, &tree) {
        return Err(Fail::from("other shape"));
    }
    let new = revise_read(alloc, &tree, old, budget)?;
    match check(alloc, &tree, &new)? {
        Verdict::Yes => written(alloc, &new),
        Verdict::No(_) => Err(Fail::from("no revision")),
    }
}

// What was read has room for its proof, and a sheet that is narrow enough.
fn revise_read(alloc: Global, tree: &Tree, old: Document, budget: u64) -> Result<Document, NoMemory>
    requires checks { Checks old.tree old }
    requires ranges { IsDocument old }
    requires shape { AreOfOneShape old.tree tree.now }
    ensures { IfOk result (λ D. IsDocument D) }
{
    revise(alloc, tree, old, budget)
}

fn written(alloc: Global, document: &Document) -> Result<Vec<u8>, Fail>
    requires { IsDocument document.now }
{
    let mut sink = MemSink::new(alloc, 16_777_216, 4096, Vec::new(alloc))?;
    match write_document(document, &mut sink) {
        Ok(()) => Ok(sink.bytes),
        Err(Failed) => Err(Fail::from("no text")),
    }
}

const TWO: &[u8] =
    b"boxpleat 1\nedges 2\nedge c p 3\nedge c q 4\nside 7\nbound 7\npoint p 0 0\npoint q 0 7\nfloor 7 7 1 2\nproof none\nend\n";

const TWO_LONGER: &[u8] =
    b"boxpleat 2\nsheet square\nedges 2\nedge c p 3\nedge c q 5\nside 8\nbound 8\npoint p 0 0\npoint q 0 8\nfloor 8 8 1 2\nproof none\nend\n";

#[test]
fn longer_flap(rt: HostRuntime) -> Result<(), Fail> {
    let alloc = rt.alloc();
    let text = revised(alloc, TWO, b"c p 3\nc q 5\n", 50_000)?;
    assert_eq!(rt; text.as_slice(), TWO_LONGER);
    let back = revised(alloc, text.as_slice(), b"c p 3\nc q 4\n", 1)?;
    let two = revised(alloc, TWO, b"c p 3\nc q 4\n", 1)?;
    assert_eq!(rt; back.as_slice(), two.as_slice());
    Ok(())
}

// A tree has the shape of its own document alone.
#[test]
fn other_shapes(rt: HostRuntime) -> Result<(), Fail> {
    let alloc = rt.alloc();
    let Ok(old) = read_document(alloc, TWO) else {
        return Err(Fail::from("no document"));
    };
    let trees: [(&[u8], bool); 4] = [
        (b"c p 1\nc q 1\n", true),
        (b"c p 3\nc r 4\n", false),
        (b"c p 3\nc q 4\nc r 4\n", false),
        (STAR, false),
    ];
    for (text, same) in trees {
        let Ok(tree) = read_tree(alloc, text) else {
            return Err(Fail::from("no tree"));
        };
        assert_eq!(&rt; are_of_one_shape(&old.tree, &tree), same);
    }
    Ok(())
}

const STAR: &[u8] = b"c p 2\nc q 2\nc r 2\nc s 1\nc t 1\n";

const BARE: &[u8] =
    b"boxpleat 2\nsheet square\nedges 5\nedge c p 2\nedge c q 2\nedge c r 2\nedge c s 1\nedge c t 1\nside 6\nbound 4\npoint p 0 0\npoint q 0 4\npoint r 4 0\npoint s 3 3\npoint t 3 5\nfloor 2 4 1 2 3 4 5\nproof none\nend\n";

const WHOLE: &[u8] =
    b"boxpleat 2\nsheet square\nedges 5\nedge c p 2\nedge c q 2\nedge c r 2\nedge c s 1\nedge c t 1\nside 5\nbound 5\npoint p 0 0\npoint q 0 4\npoint r 4 0\npoint s 3 3\npoint t 3 5\nfloor 2 4 1 2 3 4 5\nproof 257\n0 split 1 2\n1 split 1 3\n";

const SPENT: &[u8] =
    b"boxpleat 2\nsheet square\nedges 5\nedge c p 2\nedge c q 2\nedge c r 2\nedge c s 1\nedge c t 1\nside 5\nbound 4\npoint p 0 0\npoint q 0 4\npoint r 4 0\npoint s 3 3\npoint t 3 5\nfloor 2 4 1 2 3 4 5\nproof 2\n0 split 1 2\n1 open x 1 2\nend\n";

// Without a proof all is searched, as far as the budget goes; a whole proof is kept.
#[test]
fn same_star(rt: HostRuntime) -> Result<(), Fail> {
    let alloc = rt.alloc();
    let spent = revised(alloc, BARE, STAR, 1)?;
    assert_eq!(rt; spent.as_slice(), SPENT);
    let whole = revised(alloc, spent.as_slice(), STAR, 50_000)?;
    assert!(rt; whole.starts_with(WHOLE));
    let again = revised(alloc, whole.as_slice(), STAR, 1)?;
    assert_eq!(rt; again.as_slice(), whole.as_slice());
    Ok(())
}

const TURNED: &[u8] =
    b"boxpleat 2\nsheet square\nedges 5\nedge c p 2\nedge c q 2\nedge c r 2\nedge c s 1\nedge c t 1\nside 5\nbound 4\npoint p 0 0\npoint q 4 0\npoint r 0 4\npoint s 3 3\npoint t 5 3\nfloor 2 4 1 2 3 4 5\nproof none\nend\n";

const TURNED_SPENT: &[u8] =
    b"boxpleat 2\nsheet square\nedges 5\nedge c p 2\nedge c q 2\nedge c r 2\nedge c s 1\nedge c t 1\nside 5\nbound 4\npoint p 0 0\npoint q 4 0\npoint r 0 4\npoint s 3 3\npoint t 5 3\nfloor 2 4 1 2 3 4 5\nproof 2\n0 split 1 2\n1 open x 1 2\nend\n";

// Old points that need no more than the opening are the start, those of an opening that is turned too.
#[test]
fn old_points(rt: HostRuntime) -> Result<(), Fail> {
    let alloc = rt.alloc();
    let text = revised(alloc, TURNED, STAR, 1)?;
    assert_eq!(rt; text.as_slice(), TURNED_SPENT);
    Ok(())
}

const BARE_STRIP: &[u8] =
    b"boxpleat 2\nsheet strip 4\nedges 5\nedge c p 2\nedge c q 2\nedge c r 2\nedge c s 1\nedge c t 1\nside 6\nbound 4\npoint p 0 0\npoint q 4 0\npoint r 0 4\npoint s 3 3\npoint t 3 5\nfloor 4 4 1 2 3\nproof none\nend\n";

const WHOLE_STRIP: &[u8] =
    b"boxpleat 2\nsheet strip 4\nedges 5\nedge c p 2\nedge c q 2\nedge c r 2\nedge c s 1\nedge c t 1\nside 5\nbound 5\npoint p 0 0\npoint q 4 0\npoint r 0 4\npoint s 3 3\npoint t 3 5\nfloor 4 4 1 2 3\nproof ";

// A strip stays as wide as it was.
#[test]
fn strip(rt: HostRuntime) -> Result<(), Fail> {
    let alloc = rt.alloc();
    let whole = revised(alloc, BARE_STRIP, STAR, 200_000)?;
    assert!(rt; whole.starts_with(WHOLE_STRIP));
    let again = revised(alloc, whole.as_slice(), STAR, 1)?;
    assert_eq!(rt; again.as_slice(), whole.as_slice());
    Ok(())
}

// The lines of side and bound.
fn ends_of(text: &[u8]) -> &[u8] {
    let from = place_of(text, b"\nside ");
    let to = place_of(text, b"\npoint ");
    if from < to { &text[from..to] } else { b"" }
}

fn place_of(text: &[u8], word: &[u8]) -> usize
    ensures { result ≤ length text.now }
{
    for k in 0..text.len() {
        if text[k..].starts_with(word) {
            return k;
        }
    }
    text.len()
}

// Whatever is kept, the side and the bound are those of a search from nothing, where the budget is enough. With the last flap longer the
// last two are no twins any more, and their splits have other children.
#[test]
fn other_lengths(rt: HostRuntime) -> Result<(), Fail> {
    let alloc = rt.alloc();
    let trees: [&[u8]; 5] = [
        b"c p 2\nc q 2\nc r 2\nc s 1\nc t 2\n",
        b"c p 2\nc q 2\nc r 2\nc s 2\nc t 2\n",
        b"c p 3\nc q 2\nc r 2\nc s 1\nc t 1\n",
        b"c p 2\nc q 2\nc r 1\nc s 1\nc t 1\n",
        b"c p 4\nc q 4\nc r 4\nc s 2\nc t 2\n",
    ];
    for bare in [BARE, BARE_STRIP] {
        let whole = revised(alloc, bare, STAR, 200_000)?;
        for tree in trees {
            let kept = revised(alloc, whole.as_slice(), tree, 200_000)?;
            let anew = revised(alloc, bare, tree, 200_000)?;
            assert_eq!(&rt; ends_of(kept.as_slice()), ends_of(anew.as_slice()));
        }
    }
    Ok(())
}
