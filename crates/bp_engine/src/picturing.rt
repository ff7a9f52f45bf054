// `picture`: the layout of a document that checks.
ghost use Rattle.std.specs.Prelude.{◌≡◌, ◌≤◌, IfOk};
ghost use Rattle.bp_base.specs.declared.point.Sheet.TheVariants.{Square};
ghost use Rattle.bp_base.specs.Limits.{most_number};
ghost use Rattle.bp_metric.specs.Valid.{Valid};
ghost use Rattle.bp_picture.specs.Pictures.{IsPicture};

use crate::text::Text;
use bp_base::{Failed, NoMemory, Placement};
use bp_metric::Metric;
use bp_picture::{outlines, write_picture};
use bp_regions::Regions;
use std::alloc::Global;

// The picture of a placement, its bound and its regions.
pub fn layout_text(
    alloc: Global,
    metric: &Metric,
    placement: &Placement,
    bound: u64,
    regions: &Regions,
) -> Result<Vec<u8>, NoMemory>
    requires side { placement.now.side ≤ most_number }
    requires valid { Valid metric.now.tree Square 1 placement.now.side placement.now.points }
    requires regions { regions.now ≡ record { tree = metric.now.tree; side = placement.now.side; points = placement.now.points } }
    ensures { IfOk result (λ v. IsPicture (record { tree = metric.now.tree; side = placement.now.side; points = placement.now.points }) bound v.items) }
{
    let found = outlines(alloc, regions)?;
    let mut text = Text::new(alloc);
    match write_picture(metric, placement, bound, &found, &mut text) {
        Ok(()) => Ok(text.bytes),
        Err(Failed) => Err(NoMemory),
    }
}
