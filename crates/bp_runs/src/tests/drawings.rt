// `design` with a drawing.
use super::{Faults, Left, NONE, leave};
use std::alloc::Global;
use std::process::Abort;
use std::test::Fail;
use std::thread::Threads;

const STAR: &str = "c p 1\nc q 1\nc r 1\nc s 1\n";

const DOCUMENT: &str =
    "boxpleat 2\nsheet square\nedges 4\nedge c p 1\nedge c q 1\nedge c r 1\nedge c s 1\nside 2\nbound 2\npoint p 0 0\npoint q 0 2\npoint r 2 0\npoint s 2 2\nfloor 2 2 1 2 3 4\nproof none\nend\n";

const DRAWING: &str =
    "{\"file_spec\":1.1,\"file_creator\":\"boxpleat\",\"file_classes\":[\"singleModel\"],\"frame_classes\":[\"creasePattern\"],\"frame_attributes\":[\"2D\"],\"frame_unit\":\"unit\",\"vertices_coords\":[[0,0],[1,0],[2,0],[0,1],[1,1],[2,1],[0,2],[1,2],[2,2]],\"edges_vertices\":[[0,1],[0,3],[1,2],[1,4],[2,5],[3,4],[3,6],[4,5],[4,7],[5,8],[6,7],[7,8]],\"edges_assignment\":[\"B\",\"B\",\"B\",\"U\",\"B\",\"U\",\"B\",\"U\",\"U\",\"B\",\"B\",\"B\"]}\n";

const FLAPS: &str =
    "{\"file_spec\":1.1,\"file_creator\":\"boxpleat\",\"file_classes\":[\"singleModel\"],\"frame_classes\":[\"creasePattern\"],\"frame_attributes\":[\"2D\"],\"frame_unit\":\"unit\",\"vertices_coords\":[[0,0],[3,0],[7,0],[0,3],[3,3],[4,3],[0,7],[4,7],[7,7]],\"edges_vertices\":[[0,1],[0,3],[1,2],[1,4],[2,8],[3,4],[3,6],[4,5],[5,7],[6,7],[7,8]],\"edges_assignment\":[\"B\",\"B\",\"B\",\"U\",\"B\",\"U\",\"B\",\"U\",\"U\",\"B\",\"B\"]}\n";

fn drawn<R: Threads + Sync>(
    rt: &R,
    alloc: Global,
    tree: &str,
    faults: Faults,
) -> Result<Left, Fail> {
    leave(
        rt,
        alloc,
        "design --fold file",
        tree.as_bytes(),
        b"",
        faults,
    )
}

#[test]
fn draws_regions(rt: HostRuntime) -> Result<(), Fail> {
    let alloc = rt.alloc();
    let star = drawn(&rt, alloc, STAR, NONE)?;
    assert_eq!(rt; star.number, 0);
    assert_eq!(rt; star.out.as_slice(), DOCUMENT.as_bytes());
    assert_eq!(rt; star.fold.as_slice(), DRAWING.as_bytes());
    let flaps = drawn(&rt, alloc, "c p 3\nc q 4\n", NONE)?;
    assert_eq!(rt; flaps.number, 0);
    assert_eq!(rt; flaps.fold.as_slice(), FLAPS.as_bytes());
    Ok(())
}

fn fail<R: Abort + Threads + Sync>(
    rt: &R,
    alloc: Global,
    faults: Faults,
    out: &[u8],
    fold: &[u8],
) -> Result<(), Fail> {
    let left = drawn(rt, alloc, STAR, faults)?;
    assert_eq!(rt; left.number, 5);
    assert_eq!(rt; left.out.as_slice(), out);
    assert_eq!(rt; left.fold.as_slice(), fold);
    assert_eq!(rt; left.err.as_slice(), b"write fault\n".as_slice());
    Ok(())
}

// What so many calls of a sink take, 16 bytes each.
fn front(text: &str, calls: usize) -> &[u8] {
    let bytes = text.as_bytes();
    bytes.get(..calls.saturating_mul(16)).unwrap_or(bytes)
}

// Each call of `out` fails, then each of `fold`. Nothing of the drawing is written before the whole document.
#[test]
fn faults_of_writing(rt: HostRuntime) -> Result<(), Fail> {
    let alloc = rt.alloc();
    for calls in 0..DOCUMENT.len().div_ceil(16) {
        let out = Faults {
            write: calls as u64 + 1,
            ..NONE
        };
        fail(&rt, alloc, out, front(DOCUMENT, calls), b"")?;
    }
    for calls in 0..DRAWING.len().div_ceil(16) {
        let fold = Faults {
            draw: calls as u64 + 1,
            ..NONE
        };
        let text = front(DRAWING, calls);
        fail(&rt, alloc, fold, DOCUMENT.as_bytes(), text)?;
    }
    Ok(())
}
