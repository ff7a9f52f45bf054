use bp_base::Tree;
use bp_made::*;
use std::process::Abort;
use std::test::Fail;

// Whether the tree has these parents and lengths, and its nodes are named by their numbers.
fn compare(rt: &impl Abort, tree: &Tree, parents: &[u64], lengths: &[u64]) {
    assert!(rt; tree.parents() == parents);
    assert!(rt; tree.lengths() == lengths);
    for (k, name) in tree.names().iter().enumerate() {
        let text = name.bytes();
        assert!(rt; text.len() == if k < 10 { 2 } else { 3 });
        assert_eq!(rt; text[0], b'n');
        assert_eq!(rt; u64::from(text[text.len() - 1]), k as u64 % 10 + 48);
    }
}

#[test]
fn made(rt: HostRuntime) -> Result<(), Fail> {
    let alloc = rt.alloc();
    let small = made_tree(alloc, 3, 1)?;
    compare(&rt, &small, &[0, 0, 0, 0], &[0, 9, 8, 2]);
    let least = made_tree(alloc, 2, 4_294_967_295)?;
    compare(&rt, &least, &[0, 0, 0], &[0, 9, 9]);
    let great = made_tree(alloc, 16, 7)?;
    compare(
        &rt,
        &great,
        &[
            0, 0, 0, 2, 2, 0, 2, 0, 3, 3, 9, 9, 2, 11, 11, 9, 13, 13, 3, 5, 5, 1, 1, 9,
        ],
        &[
            0, 8, 6, 4, 6, 4, 3, 9, 3, 9, 8, 2, 8, 1, 9, 4, 9, 5, 6, 6, 5, 9, 7, 2,
        ],
    );
    law_of_made();
    Ok(())
}
