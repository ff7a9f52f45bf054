// The cuts of an axis: 0, the side and the ends of all balls.
ghost use Rattle.std.specs.Prelude.{◌≡◌, ◌≤◌, ◌++◌, ◌∷◌, [], ℕ, IfOk, OnOk, All};
ghost use Rattle.std.specs.List.{flat_map};
ghost use Rattle.bp_base.specs.Limits.{most_number};
ghost use Rattle.bp_regions.specs.Balls.{IsSmallBall, AreEnds, along, ends_of};

use crate::ball::Ball;
use bp_base::{Axis, NoMemory, Point};
use std::alloc::Global;

// The rising list of 0, the side and the ends of the balls on the axis.
pub fn cuts_of(alloc: Global, side: u64, balls: &[Ball], axis: Axis) -> Result<Vec<u64>, NoMemory>
    requires balls { All IsSmallBall balls.now }
    ensures { IfOk result (λ v. AreEnds side axis balls.now v.items) }
{
    let mut cuts = ends_of(alloc, side, balls, axis)?;
    cuts.sort()?;
    cuts.dedup();
    Ok(cuts)
}

// These numbers in any order, some of them often.
fn ends_of(alloc: Global, side: u64, balls: &[Ball], axis: Axis) -> Result<Vec<u64>, NoMemory>
    requires balls { All IsSmallBall balls.now }
    ensures { IfOk result (λ v. v.items ≡ 0 ∷ side ∷ flat_map (ends_of side axis) balls.now) }
{
    let mut ends = Vec::from_array(alloc, [0, side])?;
    for ball in balls {
        add_ends(&mut ends, side, *ball, axis)?;
    }
    Ok(ends)
}

// Adds where the ball begins and ends on the axis, as far as it lies on the sheet.
fn add_ends(ends: &mut Vec<u64>, side: u64, ball: Ball, axis: Axis) -> Result<(), NoMemory>
    requires ball { IsSmallBall ball }
    ensures { OnOk result (ends.new.items ≡ ends.old.items ++ ends_of side axis ball) }
{
    if ball.radius > 0 {
        let at = along(ball.at, axis);
        ends.push(at.saturating_sub(ball.radius).min(side))?;
        ends.push((at + ball.radius).min(side))?;
    }
    Ok(())
}

fn along(point: Point, axis: Axis) -> u64
    ensures { result ≡ along axis point }
{
    match axis {
        Axis::X => point.x,
        Axis::Y => point.y,
    }
}
