ghost use Rattle.std.specs.Prelude.{IfOk};
ghost use Rattle.bp_base.specs.Tree.{IsEdge};
ghost use Rattle.bp_picture.specs.Outlines.{AreOutlines, IsOutline};

use bp_base::{NoMemory, Sequence};
use bp_contour::{Loop, contours};
use bp_regions::Regions;
use std::alloc::Global;

/// The contours of an edge.
#[derive(Debug, Drop)]
pub struct Outline {
    pub loops: Sequence<Loop>,
}

/// The contours of all edges, by rising numbers.
pub fn outlines(alloc: Global, regions: &Regions) -> Result<Vec<Outline>, NoMemory>
    ensures { IfOk result (λ v. AreOutlines regions.now v.items) }
{
    let mut outlines = Vec::new(alloc);
    for edge in 1..regions.tree().parents().len() as u64 {
        let outline = outline_of(alloc, regions, edge)?;
        outlines.push(outline)?;
    }
    Ok(outlines)
}

fn outline_of(alloc: Global, regions: &Regions, edge: u64) -> Result<Outline, NoMemory>
    requires { IsEdge regions.now.tree edge }
    ensures { IfOk result (λ o. IsOutline regions.now edge o) }
{
    let loops = contours(alloc, regions, edge)?;
    Ok(Outline {
        loops: Sequence::from_vec(loops),
    })
}
