// Each helper once.
use bp_base::{Chain, Choice};
use bp_samples::*;
use std::test::Fail;

#[test]
fn samples(rt: HostRuntime) -> Result<(), Fail> {
    let alloc = rt.alloc();
    let star = tree(alloc, &[0, 0, 0], &[0, 2, 3])?;
    assert_eq!(rt; star.parents(), [0, 0, 0].as_slice());
    assert_eq!(rt; star.lengths(), [0, 2, 3].as_slice());
    assert!(rt; star.names()[2].bytes() == b"c".as_slice());
    let steps = [step(1, 2, Choice::Left), step(1, 3, Choice::Above)];
    let path = path_of(alloc, 3, &steps)?;
    assert_eq!(rt; path.len(), 2);
    assert_eq!(rt; path.at(1), steps[1]);
    assert!(rt; path_of(alloc, 2, &steps).is_err());
    let chain = Chain::new(alloc, &[2, 1]).ok_or("no chain")?;
    assert_eq!(rt; leaves_of(alloc, &chain)?.as_slice(), [2, 1].as_slice());
    Ok(())
}
