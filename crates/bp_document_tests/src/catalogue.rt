use bp_base::{Failed, MemSink};
use bp_catalogue::{Catalogue, copied};
use bp_document::{read_document, write_document};
use bp_samples::tree;
use std::test::Fail;

fn moves<T: Send>(_: &T) {}

#[test]
fn an_open_catalogue(rt: HostRuntime) -> Result<(), Fail> {
    let alloc = rt.alloc();
    let catalogue = Catalogue::open(alloc)?;
    moves(&catalogue);
    let star = tree(alloc, &[0, 0, 0], &[0, 1, 1])?;
    assert!(rt; catalogue.find(alloc, &star, 1000)?.is_none());
    Ok(())
}

const SPENT: &[u8] =
    b"boxpleat 2\nsheet square\nedges 5\nedge c p 2\nedge c q 2\nedge c r 2\nedge c s 1\nedge c t 1\nside 5\nbound 4\npoint p 0 0\npoint q 0 4\npoint r 4 0\npoint s 3 3\npoint t 3 5\nfloor 2 4 1 2 3 4 5\nproof 2\n0 split 1 2\n1 open x 1 2\nend\n";

#[test]
fn a_copy(rt: HostRuntime) -> Result<(), Fail> {
    let alloc = rt.alloc();
    let Ok(document) = read_document(alloc, SPENT) else {
        return Err(Fail::from("no document"));
    };
    let copy = copied(alloc, &document)?;
    drop(document);
    let mut sink = MemSink::new(alloc, 4096, 4096, Vec::new(alloc))?;
    match write_document(&copy, &mut sink) {
        Ok(()) => {}
        Err(Failed) => return Err(Fail::from("no text")),
    }
    assert!(rt; sink.bytes.as_slice() == SPENT);
    Ok(())
}
