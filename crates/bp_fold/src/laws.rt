// The law of drawings.
ghost use Rattle.std.specs.Prelude.{◌≡◌};
ghost use Rattle.bp_fold.specs.declared.drawing.Drawing.{Drawing as AnyDrawing};
ghost use Rattle.bp_fold.specs.Drawings.{IsDrawing};

use bp_regions::Regions;

/// Regions have only one drawing.
pub fn law_of_drawings(regions: &Regions)
    ensures { (D E : AnyDrawing) → IsDrawing regions.now D → IsDrawing regions.now E → D ≡ E }
{}
