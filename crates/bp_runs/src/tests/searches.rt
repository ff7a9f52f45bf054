// `design` where the opening is above the floor.
use super::{NONE, check, leave, leave_by};
use bp_base::HoldGate;
use bp_check::{Verdict, check as check_document};
use bp_document::read_document;
use bp_tree::read_tree;
use std::alloc::Global;
use std::process::Abort;
use std::str;
use std::test::Fail;
use std::thread::Threads;

pub const STAR: &str = "c p 2\nc q 2\nc r 2\nc s 1\nc t 1\n";

// The proof is the tree of all branches that the opening's side leaves open.
pub const WHOLE: &str =
    "boxpleat 2\nsheet square\nedges 5\nedge c p 2\nedge c q 2\nedge c r 2\nedge c s 1\nedge c t 1\nside 5\nbound 5\npoint p 0 0\npoint q 0 4\npoint r 4 0\npoint s 3 3\npoint t 3 5\nfloor 2 4 1 2 3 4 5\nproof 257\n0 split 1 2\n1 split 1 3\n2 split 2 3\n3 walk x 1 2 3\n3 walk x 1 3 2\n3 split 1 4\n4 split 1 5\n5 split 2 4\n6 walk x 1 2 4\n6 walk x 1 4 2\n6 split 2 5\n7 walk x 1 2 5\n7 walk x 1 5 2\n7 split 3 4\n8 walk x 1 3 4\n8 walk x 1 4 3\n8 walk y 2 3 4\n8 walk y 2 4 3\n7 walk y 5 2 3\n6 walk y 4 2 3\n5 walk x 5 1 2\n5 split 2 4\n6 walk x 1 2 4\n6 walk x 1 4 2\n6 split 3 4\n7 walk x 1 3 4\n7 walk x 1 4 3\n7 walk y 2 3 4\n7 walk y 2 4 3\n6 walk y 4 2 3\n5 split 2 4\n6 walk x 1 2 4\n6 walk x 1 4 2\n6 split 3 4\n7 walk x 1 3 4\n7 walk x 1 4 3\n7 walk y 2 3 4\n7 walk y 2 4 3\n6 walk y 4 2 3\n4 walk x 4 1 2\n4 split 1 5\n5 split 2 5\n6 walk x 1 2 5\n6 walk x 1 5 2\n6 split 3 5\n7 walk x 1 3 5\n7 walk x 1 5 3\n7 walk y 2 3 5\n7 walk y 2 5 3\n6 walk y 5 2 3\n5 walk x 5 1 2\n5 split 4 5\n6 split 3 5\n7 walk x 1 3 5\n7 walk x 4 5 3\n7 walk y 2 3 5\n7 walk y 1 5 3\n6 walk y 1 4 5\n5 walk y 5 1 4\n4 split 4 5\n5 split 2 5\n6 walk x 1 2 5\n6 walk x 4 5 2\n6 split 1 5\n7 split 3 5\n8 walk x 1 3 5\n8 walk x 1 5 3\n8 walk y 2 3 5\n8 walk y 2 5 3\n7 walk x 4 5 1 2\n7 walk y 4 1 5\n7 walk y 2 5 1\n6 walk y 5 2 3\n5 split 1 5\n6 split 2 5\n7 walk x 1 2 5\n7 walk x 1 5 2\n7 split 3 5\n8 walk x 1 3 5\n8 walk x 1 5 3\n8 walk y 2 3 5\n8 walk y 2 5 3\n7 walk y 4 5 2 3\n6 walk x 5 1 2\n6 walk y 4 1 5\n6 walk y 4 5 1\n3 split 1 4\n4 split 1 5\n5 split 3 4\n6 walk x 1 3 4\n6 walk x 1 4 3\n6 split 2 4\n7 walk x 1 2 4\n7 walk x 1 4 2\n7 walk y 3 2 4\n7 walk y 3 4 2\n6 walk y 4 3 2\n5 walk x 5 1 2\n5 split 3 4\n6 walk x 1 3 4\n6 walk x 1 4 3\n6 split 2 4\n7 walk x 1 2 4\n7 walk x 1 4 2\n7 walk y 3 2 4\n7 walk y 3 4 2\n6 walk y 4 3 2\n5 split 3 4\n6 walk x 1 3 4\n6 walk x 1 4 3\n6 split 2 4\n7 walk x 1 2 4\n7 walk x 1 4 2\n7 walk y 3 2 4\n7 walk y 3 4 2\n6 walk y 4 3 2\n4 walk x 4 1 2\n4 split 1 5\n5 split 3 5\n6 walk x 1 3 5\n6 walk x 1 5 3\n6 split 2 5\n7 walk x 1 2 5\n7 walk x 1 5 2\n7 walk y 3 2 5\n7 walk y 3 5 2\n6 walk y 5 3 2\n5 walk x 5 1 2\n5 split 4 5\n6 split 2 5\n7 walk x 1 2 5\n7 walk x 4 5 2\n7 walk y 3 2 5\n7 walk y 1 5 2\n6 walk y 1 4 5\n5 walk y 5 1 4\n4 split 4 5\n5 split 3 5\n6 walk x 1 3 5\n6 walk x 4 5 3\n6 split 1 5\n7 split 2 5\n8 walk x 1 2 5\n8 walk x 1 5 2\n8 walk y 3 2 5\n8 walk y 3 5 2\n7 walk x 4 5 1 2\n7 walk y 4 1 5\n7 walk y 3 5 1\n6 walk y 5 3 2\n5 split 1 5\n6 split 2 5\n7 walk x 1 2 5\n7 walk x 1 5 2\n7 walk y 3 2 5\n7 walk y 4 5 2\n6 walk x 5 1 2\n6 walk y 4 1 5\n6 walk y 4 5 1\n2 walk x 3 1 2\n2 split 1 4\n3 split 1 5\n4 split 2 4\n5 walk x 1 2 4\n5 walk x 1 4 2\n5 split 2 5\n6 walk x 1 2 5\n6 walk x 1 5 2\n6 split 4 5\n7 walk x 1 4 5\n7 walk y 2 4 5\n6 walk y 5 2 4\n5 split 4 5\n6 walk x 1 4 5\n6 split 2 5\n7 walk x 1 2 5\n7 walk x 1 5 2\n7 walk y 4 2 5\n7 walk y 4 5 2\n4 walk x 5 1 2\n4 split 2 4\n5 walk x 1 2 4\n5 walk x 1 4 2\n5 split 3 5\n6 split 4 5\n7 walk x 1 4 5\n7 walk y 2 4 5\n6 split 3 4\n7 walk x 5 3 4\n7 walk x 1 4 3\n7 walk y 1 3 4\n7 walk y 2 4 3\n6 walk y 1 3 5\n6 walk y 1 5 3\n5 split 3 5\n6 split 2 5\n7 walk x 1 2 5\n7 walk x 3 5 2\n7 walk y 4 2 5\n7 walk y 1 5 2\n6 split 2 3\n7 walk x 1 2 3\n7 walk x 5 3 2\n7 walk y 4 2 3\n7 walk y 1 3 2\n6 walk y 1 3 5\n6 walk y 1 5 3\n4 walk y 5 1 3\n3 walk x 4 1 2\n3 split 1 5\n4 split 2 5\n5 walk x 1 2 5\n5 walk x 1 5 2\n5 split 3 4\n6 split 4 5\n7 walk x 3 4 5\n7 walk y 1 4 5\n6 split 3 5\n7 walk x 4 3 5\n7 walk x 1 5 3\n7 walk y 1 3 5\n7 walk y 2 5 3\n6 walk y 1 3 4\n6 walk y 1 4 3\n5 split 3 4\n6 split 2 4\n7 walk x 1 2 4\n7 walk x 3 4 2\n7 walk y 5 2 4\n7 walk y 1 4 2\n6 split 2 3\n7 walk x 1 2 3\n7 walk x 4 3 2\n7 walk y 5 2 3\n7 walk y 1 3 2\n6 walk y 1 3 4\n6 walk y 1 4 3\n4 walk x 5 1 2\n4 split 3 4\n5 split 3 5\n6 split 4 5\n7 walk x 3 4 5\n7 walk y 1 4 5\n6 walk x 5 3 4\n6 walk y 1 3 5\n6 walk y 1 5 3\n5 split 4 5\n6 split 3 5\n7 walk x 4 3 5\n7 walk x 4 5 3\n7 walk y 1 3 5\n7 walk y 1 5 3\n6 walk y 1 4 5\n5 walk y 1 3 4\n5 walk y 1 4 3\n4 walk y 5 1 3\n3 walk y 4 1 3\nend\n";

pub const SPENT: &str =
    "boxpleat 2\nsheet square\nedges 5\nedge c p 2\nedge c q 2\nedge c r 2\nedge c s 1\nedge c t 1\nside 5\nbound 4\npoint p 0 0\npoint q 0 4\npoint r 4 0\npoint s 3 3\npoint t 3 5\nfloor 2 4 1 2 3 4 5\nproof 2\n0 split 1 2\n1 open x 1 2\nend\n";

pub const BEETLE: &str =
    "thorax front 3\nfront antenna_l 4\nfront antenna_r 4\nfront head 2\nthorax leg1 6\nthorax leg2 6\nthorax leg3 6\nthorax leg4 6\nthorax leg5 6\nthorax leg6 6\nthorax abdomen 5\n";

#[test]
fn star_is_searched(rt: HostRuntime) -> Result<(), Fail> {
    let rows = [
        ("design --workers 1", STAR, 0, WHOLE, ""),
        ("design --workers 2", STAR, 0, WHOLE, ""),
        ("design --workers 4", STAR, 0, WHOLE, ""),
        ("design --workers 16", STAR, 0, WHOLE, ""),
    ];
    check(&rt, rt.alloc(), &rows)
}

// Neither of two workers gives up waiting for the other, so two threads met, and the second examined a branch.
#[test]
fn two_workers_meet(rt: HostRuntime) -> Result<(), Fail> {
    let gate = HoldGate::new();
    let line = "design --workers 2";
    let left = leave_by(&rt, rt.alloc(), line, STAR.as_bytes(), b"", NONE, &gate)?;
    assert_eq!(rt; left.number, 0);
    assert_eq!(rt; left.out.as_slice(), WHOLE.as_bytes());
    assert!(rt; !gate.gave_up());
    Ok(())
}

#[test]
fn star_is_given_up(rt: HostRuntime) -> Result<(), Fail> {
    let told = "gave up: side 5 bound 4\n";
    let rows = [
        ("design --budget 1 --workers 1", STAR, 3, SPENT, told),
        ("design --budget 1 --workers 2", STAR, 3, SPENT, told),
        ("design --budget 1 --workers 4", STAR, 3, SPENT, told),
        ("design --budget 1 --workers 16", STAR, 3, SPENT, told),
    ];
    check(&rt, rt.alloc(), &rows)
}

// Whether `check` answers yes for the document's text and the tree's.
fn is_right(alloc: Global, tree: &[u8], text: &[u8]) -> Result<bool, Fail> {
    let Ok(tree) = read_tree(alloc, tree) else {
        return Err(Fail::from("no tree"));
    };
    let Ok(document) = read_document(alloc, text) else {
        return Err(Fail::from("no document"));
    };
    Ok(check_document(alloc, &tree, &document)? == Verdict::Yes)
}

pub const STRIP: &str =
    "boxpleat 2\nsheet strip 4\nedges 5\nedge c p 2\nedge c q 2\nedge c r 2\nedge c s 1\nedge c t 1\nside 5\nbound 5\npoint p 0 0\npoint q 4 0\npoint r 0 4\npoint s 3 3\npoint t 3 5\nfloor 4 4 1 2 3\nproof 715\n0 split 1 2\n1 split 1 3\n2 split 2 3\n3 walk x 1 2 3\n3 walk x 1 3 2\n3 split 1 4\n4 split 1 5\n5 split 2 4\n6 walk x 1 2 4\n6 walk x 1 4 2\n6 split 2 5\n7 walk x 1 2 5\n7 walk x 1 5 2\n7 split 3 4\n8 walk x 1 3 4\n8 walk x 1 4 3\n8 walk y 2 3 4\n8 walk y 2 4 3\n7 walk y 5 2 3\n6 walk y 4 2 3\n5 walk x 5 1 2\n5 split 2 4\n6 walk x 1 2 4\n6 walk x 1 4 2\n6 split 3 4\n7 walk x 1 3 4\n7 walk x 1 4 3\n7 walk y 2 3 4\n7 walk y 2 4 3\n6 walk y 4 2 3\n5 split 2 4\n6 walk x 1 2 4\n6 walk x 1 4 2\n6 split 3 4\n7 walk x 1 3 4\n7 walk x 1 4 3\n7 walk y 2 3 4\n7 walk y 2 4 3\n6 walk y 4 2 3\n4 walk x 4 1 2\n4 split 1 5\n5 split 2 5\n6 walk x 1 2 5\n6 walk x 1 5 2\n6 split 3 5\n7 walk x 1 3 5\n7 walk x 1 5 3\n7 walk y 2 3 5\n7 walk y 2 5 3\n6 walk y 5 2 3\n5 walk x 5 1 2\n5 split 4 5\n6 split 3 5\n7 walk x 1 3 5\n7 walk x 4 5 3\n7 walk y 2 3 5\n7 walk y 1 5 3\n6 walk y 1 4 5\n5 walk y 5 1 4\n4 split 4 5\n5 split 2 5\n6 walk x 1 2 5\n6 walk x 4 5 2\n6 split 1 5\n7 split 3 5\n8 walk x 1 3 5\n8 walk x 1 5 3\n8 walk y 2 3 5\n8 walk y 2 5 3\n7 walk x 4 5 1 2\n7 walk y 4 1 5\n7 walk y 2 5 1\n6 walk y 5 2 3\n5 split 1 5\n6 split 2 5\n7 walk x 1 2 5\n7 walk x 1 5 2\n7 split 3 5\n8 walk x 1 3 5\n8 walk x 1 5 3\n8 walk y 2 3 5\n8 walk y 2 5 3\n7 walk y 4 5 2 3\n6 walk x 5 1 2\n6 walk y 4 1 5\n6 walk y 4 5 1\n3 split 1 4\n4 split 1 5\n5 split 3 4\n6 walk x 1 3 4\n6 walk x 1 4 3\n6 split 2 4\n7 walk x 1 2 4\n7 walk x 1 4 2\n7 walk y 3 2 4\n7 walk y 3 4 2\n6 walk y 4 3 2\n5 walk x 5 1 2\n5 split 3 4\n6 walk x 1 3 4\n6 walk x 1 4 3\n6 split 2 4\n7 walk x 1 2 4\n7 walk x 1 4 2\n7 walk y 3 2 4\n7 walk y 3 4 2\n6 walk y 4 3 2\n5 split 3 4\n6 walk x 1 3 4\n6 walk x 1 4 3\n6 split 2 4\n7 walk x 1 2 4\n7 walk x 1 4 2\n7 walk y 3 2 4\n7 walk y 3 4 2\n6 walk y 4 3 2\n4 walk x 4 1 2\n4 split 1 5\n5 split 3 5\n6 walk x 1 3 5\n6 walk x 1 5 3\n6 split 2 5\n7 walk x 1 2 5\n7 walk x 1 5 2\n7 walk y 3 2 5\n7 walk y 3 5 2\n6 walk y 5 3 2\n5 walk x 5 1 2\n5 split 4 5\n6 split 2 5\n7 walk x 1 2 5\n7 walk x 4 5 2\n7 walk y 3 2 5\n7 walk y 1 5 2\n6 walk y 1 4 5\n5 walk y 5 1 4\n4 split 4 5\n5 split 3 5\n6 walk x 1 3 5\n6 walk x 4 5 3\n6 split 1 5\n7 split 2 5\n8 walk x 1 2 5\n8 walk x 1 5 2\n8 walk y 3 2 5\n8 walk y 3 5 2\n7 walk x 4 5 1 2\n7 walk y 4 1 5\n7 walk y 3 5 1\n6 walk y 5 3 2\n5 split 1 5\n6 split 2 5\n7 walk x 1 2 5\n7 walk x 1 5 2\n7 walk y 3 2 5\n7 walk y 4 5 2\n6 walk x 5 1 2\n6 walk y 4 1 5\n6 walk y 4 5 1\n2 walk x 3 1 2\n2 split 1 4\n3 split 1 5\n4 split 2 4\n5 walk x 1 2 4\n5 walk x 1 4 2\n5 split 2 5\n6 walk x 1 2 5\n6 walk x 1 5 2\n6 split 4 5\n7 walk x 1 4 5\n7 walk y 2 4 5\n6 walk y 5 2 4\n5 split 4 5\n6 walk x 1 4 5\n6 split 2 5\n7 walk x 1 2 5\n7 walk x 1 5 2\n7 walk y 4 2 5\n7 walk y 4 5 2\n4 walk x 5 1 2\n4 split 2 4\n5 walk x 1 2 4\n5 walk x 1 4 2\n5 split 3 5\n6 split 4 5\n7 walk x 1 4 5\n7 walk y 2 4 5\n6 split 3 4\n7 walk x 5 3 4\n7 walk x 1 4 3\n7 walk y 1 3 4\n7 walk y 2 4 3\n6 walk y 1 3 5\n6 walk y 1 5 3\n5 split 3 5\n6 split 2 5\n7 walk x 1 2 5\n7 walk x 3 5 2\n7 walk y 4 2 5\n7 walk y 1 5 2\n6 split 2 3\n7 walk x 1 2 3\n7 walk x 5 3 2\n7 walk y 4 2 3\n7 walk y 1 3 2\n6 walk y 1 3 5\n6 walk y 1 5 3\n4 walk y 5 1 3\n3 walk x 4 1 2\n3 split 1 5\n4 split 2 5\n5 walk x 1 2 5\n5 walk x 1 5 2\n5 split 3 4\n6 split 4 5\n7 walk x 3 4 5\n7 walk y 1 4 5\n6 split 3 5\n7 walk x 4 3 5\n7 walk x 1 5 3\n7 walk y 1 3 5\n7 walk y 2 5 3\n6 walk y 1 3 4\n6 walk y 1 4 3\n5 split 3 4\n6 split 2 4\n7 walk x 1 2 4\n7 walk x 3 4 2\n7 walk y 5 2 4\n7 walk y 1 4 2\n6 split 2 3\n7 walk x 1 2 3\n7 walk x 4 3 2\n7 walk y 5 2 3\n7 walk y 1 3 2\n6 walk y 1 3 4\n6 walk y 1 4 3\n4 walk x 5 1 2\n4 split 3 4\n5 split 3 5\n6 split 4 5\n7 walk x 3 4 5\n7 walk y 1 4 5\n6 walk x 5 3 4\n6 walk y 1 3 5\n6 walk y 1 5 3\n5 split 4 5\n6 split 3 5\n7 walk x 4 3 5\n7 walk x 4 5 3\n7 walk y 1 3 5\n7 walk y 1 5 3\n6 walk y 1 4 5\n5 walk y 1 3 4\n5 walk y 1 4 3\n4 walk y 5 1 3\n3 walk y 4 1 3\n2 split 3 4\n3 split 2 4\n4 walk x 1 2 4\n4 walk x 3 4 2\n4 split 3 5\n5 split 2 5\n6 walk x 1 2 5\n6 walk x 3 5 2\n6 split 4 5\n7 walk x 3 4 5\n7 walk y 2 4 5\n6 walk y 5 2 4\n5 walk x 5 3 4\n5 split 1 5\n6 split 4 5\n7 walk x 3 4 5\n7 walk y 2 4 5\n6 walk x 5 1 2\n6 walk y 3 1 5\n6 walk y 3 5 1\n5 walk y 5 3 1\n4 split 3 5\n5 split 4 5\n6 walk x 3 4 5\n6 split 2 5\n7 walk x 1 2 5\n7 walk x 3 5 2\n7 walk y 4 2 5\n7 walk y 4 5 2\n5 walk x 5 3 4\n5 split 1 5\n6 split 2 5\n7 walk x 1 2 5\n7 walk x 1 5 2\n7 walk y 4 2 5\n7 walk y 3 5 2\n6 walk x 5 1 2\n6 walk y 3 1 5\n6 walk y 3 5 1\n5 walk y 5 3 1\n3 split 2 3\n4 walk x 1 2 3\n4 walk x 4 3 2\n4 walk y 2 3 1\n4 split 4 5\n5 split 3 5\n6 walk x 4 3 5\n6 walk x 4 5 3\n6 split 1 5\n7 split 2 5\n8 walk x 1 2 5\n8 walk x 1 5 2\n8 walk y 3 2 5\n8 walk y 3 5 2\n7 walk x 4 5 1 2\n7 walk y 3 1 5\n7 walk y 3 5 1\n6 walk y 5 3 1\n5 split 1 5\n6 split 2 5\n7 walk x 1 2 5\n7 walk x 1 5 2\n7 walk y 3 2 5\n7 walk y 4 5 2\n6 walk x 5 1 2\n6 walk y 3 1 5\n6 walk y 4 5 1\n3 split 1 4\n4 split 3 5\n5 split 2 5\n6 walk x 1 2 5\n6 walk x 3 5 2\n6 split 4 5\n7 walk x 1 4 5\n7 walk y 3 4 5\n6 split 2 4\n7 walk x 1 2 4\n7 walk x 1 4 2\n7 walk y 5 2 4\n7 walk y 3 4 2\n5 split 2 3\n6 walk x 1 2 3\n6 walk x 5 3 2\n6 walk y 2 3 1\n6 split 2 4\n7 walk x 1 2 4\n7 walk x 1 4 2\n7 walk y 3 2 4\n7 walk y 3 4 2\n5 split 1 5\n6 split 4 5\n7 walk x 1 4 5\n7 walk y 3 4 5\n6 walk x 5 1 2\n6 walk y 3 1 5\n6 walk y 3 5 1\n5 walk y 5 3 1\n4 walk x 4 1 2\n4 walk y 3 1 4\n4 walk y 3 4 1\n3 walk y 4 3 1\n1 split 1 3\n2 split 1 4\n3 split 1 5\n4 split 3 4\n5 walk x 1 3 4\n5 walk x 1 4 3\n5 split 3 5\n6 walk x 1 3 5\n6 walk x 1 5 3\n6 split 4 5\n7 walk x 1 4 5\n7 walk y 3 4 5\n6 walk y 5 3 4\n5 split 4 5\n6 walk x 1 4 5\n6 split 3 5\n7 walk x 1 3 5\n7 walk x 1 5 3\n7 walk y 4 3 5\n7 walk y 4 5 3\n4 walk x 5 1 3\n4 split 2 5\n5 split 3 4\n6 walk x 1 3 4\n6 walk x 1 4 3\n6 split 4 5\n7 walk x 1 4 5\n7 walk y 3 4 5\n6 split 3 5\n7 walk x 1 3 5\n7 walk x 2 5 3\n7 walk y 4 3 5\n7 walk y 1 5 3\n5 split 3 4\n6 walk x 1 3 4\n6 walk x 1 4 3\n6 split 2 4\n7 walk x 5 2 4\n7 walk x 1 4 2\n7 walk y 1 2 4\n7 walk y 3 4 2\n6 split 2 3\n7 walk x 5 2 3\n7 walk x 1 3 2\n7 walk y 1 2 3\n7 walk y 4 3 2\n5 walk y 1 2 5\n5 walk y 1 5 2\n4 walk y 5 1 2\n3 walk x 4 1 3\n3 split 1 5\n4 split 2 4\n5 split 3 5\n6 walk x 1 3 5\n6 walk x 1 5 3\n6 split 4 5\n7 walk x 2 4 5\n7 walk y 1 4 5\n6 split 3 4\n7 walk x 1 3 4\n7 walk x 2 4 3\n7 walk y 5 3 4\n7 walk y 1 4 3\n5 split 3 5\n6 walk x 1 3 5\n6 walk x 1 5 3\n6 split 2 5\n7 walk x 4 2 5\n7 walk x 1 5 2\n7 walk y 1 2 5\n7 walk y 3 5 2\n6 split 2 3\n7 walk x 4 2 3\n7 walk x 1 3 2\n7 walk y 1 2 3\n7 walk y 5 3 2\n5 walk y 1 2 4\n5 walk y 1 4 2\n4 walk x 5 1 3\n4 split 2 4\n5 split 2 5\n6 split 4 5\n7 walk x 2 4 5\n7 walk y 1 4 5\n6 walk x 5 2 4\n6 walk y 1 2 5\n6 walk y 1 5 2\n5 split 4 5\n6 split 2 5\n7 walk x 4 2 5\n7 walk x 4 5 2\n7 walk y 1 2 5\n7 walk y 1 5 2\n6 walk y 1 4 5\n5 walk y 1 2 4\n5 walk y 1 4 2\n4 walk y 5 1 2\n3 walk y 4 1 2\n2 split 3 4\n3 split 1 4\n4 walk x 3 1 4\n4 walk x 3 4 1\n4 split 3 5\n5 split 1 5\n6 walk x 3 1 5\n6 walk x 3 5 1\n6 split 4 5\n7 walk x 3 4 5\n7 walk y 1 4 5\n6 walk y 5 1 2\n5 walk x 5 3 1\n5 split 2 5\n6 split 4 5\n7 walk x 3 4 5\n7 walk y 1 4 5\n6 split 2 4\n7 walk x 5 2 4\n7 walk x 3 4 2\n7 walk y 1 2 4\n7 walk y 1 4 2\n6 walk y 1 2 5\n6 walk y 3 5 2\n5 split 2 3\n6 walk x 2 3 1\n6 split 2 4\n7 walk x 3 2 4\n7 walk x 3 4 2\n7 walk y 1 2 4\n7 walk y 1 4 2\n6 walk y 1 2 3\n6 walk y 5 3 2\n4 walk y 4 1 2\n3 walk x 4 3 1\n3 split 2 4\n4 split 3 5\n5 split 1 5\n6 walk x 3 1 5\n6 walk x 3 5 1\n6 split 4 5\n7 walk x 2 4 5\n7 walk y 3 4 5\n6 walk y 5 1 2\n5 walk x 5 3 1\n5 split 2 5\n6 split 4 5\n7 walk x 2 4 5\n7 walk y 3 4 5\n6 walk x 5 2 4\n6 walk y 1 2 5\n6 walk y 3 5 2\n5 walk y 5 3 4\n4 split 3 5\n5 split 1 5\n6 walk x 3 1 5\n6 walk x 3 5 1\n6 split 2 5\n7 walk x 4 2 5\n7 walk x 3 5 2\n7 walk y 1 2 5\n7 walk y 1 5 2\n6 walk y 5 1 2\n5 walk x 5 3 1\n5 split 4 5\n6 split 2 5\n7 walk x 4 2 5\n7 walk x 4 5 2\n7 walk y 1 2 5\n7 walk y 3 5 2\n6 walk y 3 4 5\n5 walk y 5 3 4\n4 walk y 1 2 4\n4 walk y 3 4 2\n3 split 2 3\n4 walk x 2 3 1\n4 split 4 5\n5 split 1 5\n6 walk x 3 1 5\n6 walk x 4 5 1\n6 split 2 5\n7 walk x 3 2 5\n7 walk x 4 5 2\n7 walk y 1 2 5\n7 walk y 1 5 2\n6 walk y 5 1 2\n5 split 3 5\n6 split 1 5\n7 walk x 3 1 5\n7 walk x 3 5 1\n7 split 2 5\n8 walk x 3 2 5\n8 walk x 3 5 2\n8 walk y 1 2 5\n8 walk y 1 5 2\n7 walk y 4 5 1 2\n6 walk x 5 3 1\n6 walk y 4 3 5\n6 walk y 4 5 3\n4 walk y 1 2 3\n4 walk y 4 3 2\n2 split 2 3\n3 split 1 4\n4 split 1 5\n5 split 4 5\n6 walk x 1 4 5\n6 split 3 5\n7 walk x 2 3 5\n7 walk x 1 5 3\n7 walk y 1 3 5\n7 walk y 4 5 3\n5 walk x 5 1 4\n5 split 2 5\n6 split 3 5\n7 walk x 2 3 5\n7 walk x 2 5 3\n7 walk y 1 3 5\n7 walk y 1 5 3\n6 walk x 5 2 3\n6 walk y 1 2 5\n6 walk y 1 5 2\n5 walk y 5 1 2\n4 split 4 5\n5 split 1 5\n6 walk x 4 1 5\n6 walk x 4 5 1\n6 split 2 5\n7 split 3 5\n8 walk x 2 3 5\n8 walk x 2 5 3\n8 walk y 1 3 5\n8 walk y 1 5 3\n7 walk x 4 5 2 3\n7 walk y 1 2 5\n7 walk y 1 5 2\n6 walk y 5 1 2\n5 split 2 5\n6 split 1 5\n7 walk x 4 1 5\n7 walk x 2 5 1\n7 split 3 5\n8 walk x 2 3 5\n8 walk x 2 5 3\n8 walk y 1 3 5\n8 walk y 1 5 3\n7 walk y 4 5 1 2\n6 walk x 5 2 3\n6 walk y 1 2 5\n6 walk y 4 5 2\n4 split 1 5\n5 split 2 4\n6 split 3 4\n7 walk x 2 3 4\n7 walk x 2 4 3\n7 walk y 1 3 4\n7 walk y 1 4 3\n6 walk x 4 2 3\n6 walk y 1 2 4\n6 walk y 1 4 2\n5 split 2 4\n6 split 3 4\n7 walk x 2 3 4\n7 walk x 2 4 3\n7 walk y 1 3 4\n7 walk y 1 4 3\n6 walk x 4 2 3\n6 walk y 1 2 4\n6 walk y 1 4 2\n5 split 2 4\n6 split 2 5\n7 split 3 4\n8 walk x 2 3 4\n8 walk x 2 4 3\n8 walk y 1 3 4\n8 walk y 1 4 3\n7 walk x 5 2 3\n7 walk y 1 2 5\n7 walk y 1 5 2\n6 walk x 4 2 3\n6 walk y 1 2 4\n6 walk y 1 4 2\n5 walk y 5 1 2\n4 walk y 4 1 2\n3 split 1 4\n4 split 1 5\n5 split 4 5\n6 walk x 1 4 5\n6 split 2 5\n7 walk x 3 2 5\n7 walk x 1 5 2\n7 walk y 1 2 5\n7 walk y 4 5 2\n5 walk x 5 1 4\n5 split 3 5\n6 split 2 5\n7 walk x 3 2 5\n7 walk x 3 5 2\n7 walk y 1 2 5\n7 walk y 1 5 2\n6 walk x 5 3 2\n6 walk y 1 3 5\n6 walk y 1 5 3\n5 walk y 5 1 2\n4 split 4 5\n5 split 1 5\n6 walk x 4 1 5\n6 walk x 4 5 1\n6 split 2 5\n7 walk x 3 2 5\n7 walk x 4 5 2\n7 walk y 1 2 5\n7 walk y 1 5 2\n6 walk y 5 1 2\n5 split 3 5\n6 split 1 5\n7 walk x 4 1 5\n7 walk x 3 5 1\n7 split 2 5\n8 walk x 3 2 5\n8 walk x 3 5 2\n8 walk y 1 2 5\n8 walk y 1 5 2\n7 walk y 4 5 1 2\n6 walk x 5 3 2\n6 walk y 1 3 5\n6 walk y 4 5 3\n4 split 1 5\n5 split 3 4\n6 split 2 4\n7 walk x 3 2 4\n7 walk x 3 4 2\n7 walk y 1 2 4\n7 walk y 1 4 2\n6 walk x 4 3 2\n6 walk y 1 3 4\n6 walk y 1 4 3\n5 split 3 4\n6 split 2 4\n7 walk x 3 2 4\n7 walk x 3 4 2\n7 walk y 1 2 4\n7 walk y 1 4 2\n6 walk x 4 3 2\n6 walk y 1 3 4\n6 walk y 1 4 3\n5 split 3 4\n6 split 2 4\n7 walk x 3 2 4\n7 walk x 3 4 2\n7 walk y 1 2 4\n7 walk y 1 4 2\n6 walk x 4 3 2\n6 walk y 1 3 4\n6 walk y 1 4 3\n5 walk y 5 1 2\n4 walk y 4 1 2\n3 walk y 1 2 3\n3 walk y 1 3 2\n2 walk y 3 1 2\nend\n";

#[test]
fn strip_is_searched(rt: HostRuntime) -> Result<(), Fail> {
    let one = "design --strip 4 --budget 200000 --workers 1";
    let four = "design --strip 4 --budget 200000 --workers 4";
    let rows = [(one, STAR, 0, STRIP, ""), (four, STAR, 0, STRIP, "")];
    check(&rt, rt.alloc(), &rows)
}

#[test]
fn documents_are_right(rt: HostRuntime) -> Result<(), Fail> {
    let alloc = rt.alloc();
    assert!(rt; is_right(alloc, STAR.as_bytes(), WHOLE.as_bytes())?);
    assert!(rt; is_right(alloc, STAR.as_bytes(), SPENT.as_bytes())?);
    assert!(rt; is_right(alloc, STAR.as_bytes(), STRIP.as_bytes())?);
    Ok(())
}

#[test]
fn beetle(rt: HostRuntime) -> Result<(), Fail> {
    let alloc = rt.alloc();
    let left = leave(&rt, alloc, "design", BEETLE.as_bytes(), b"", NONE)?;
    assert!(rt; left.number == 0 || left.number == 3);
    assert!(rt; str::from_utf8(&left.out)?.contains("\nfloor 12 24 1 4 5 6 7 8 9\n"));
    assert!(rt; is_right(alloc, BEETLE.as_bytes(), &left.out)?);
    Ok(())
}
