// Beginnings of a search, events that are lawful and not, and whole runs.
ghost use Rattle.std.specs.Prelude.{◌≡◌, ◌≤◌, IfOk, MatchOption};
ghost use Rattle.bp_base.specs.Limits.{most_budget, most_hands};
ghost use Rattle.bp_metric.specs.Metric.{IsSheet};
ghost use Rattle.bp_machine.specs.Facts.{HasFacts};

use bp_base::{ListSchedule, NoMemory, Schedule, Settled, Sheet};
use bp_floor::floor;
use bp_machine::*;
use bp_metric::Metric;
use bp_opening::open;
use bp_samples::tree;
use std::alloc::Global;
use std::process::Abort;
use std::test::Fail;

// The metric of the star of lengths 2, 2, 2, 1, 1.
fn star(alloc: Global, sheet: Sheet) -> Result<Metric, NoMemory>
    requires { IsSheet sheet }
{
    let star = tree(alloc, &[0; 6], &[0, 2, 2, 2, 1, 1])?;
    Metric::on(alloc, &star, sheet)
}

// The beginning of three hands; none where the opening meets the floor.
fn begun(alloc: Global, metric: &Metric) -> Result<Option<State>, NoMemory>
    ensures metric { IfOk result (λ found. MatchOption found (1 ≤ 1) (λ S. S.metric ≡ metric.now)) }
    ensures facts { IfOk result (λ found. MatchOption found (1 ≤ 1) (λ S. HasFacts metric.now.tree metric.now.sheet S)) }
{
    let opening = open(alloc, metric)?;
    let least = floor(alloc, metric)?;
    if least.side >= opening.side {
        return Ok(None);
    }
    let state = State::open(alloc, metric, opening, least.side, 3, 50)?;
    Ok(Some(state))
}

#[test]
fn beginnings(rt: HostRuntime) -> Result<(), Fail> {
    let alloc = rt.alloc();
    let rows = [
        (Sheet::Square, true),
        (Sheet::Strip { width: 4 }, true),
        (Sheet::Strip { width: 5 }, false),
    ];
    for (sheet, begins) in rows {
        let metric = star(alloc, sheet)?;
        assert_eq!(rt; begun(alloc, &metric)?.is_some(), begins);
    }
    Ok(())
}

// Takes these steps, each of which is lawful or not.
fn takes(
    rt: &impl Abort,
    alloc: Global,
    metric: &Metric,
    state: &mut State,
    events: &[(Event, Took)],
) -> Result<(), NoMemory>
    requires metric { state.old.metric ≡ metric.now }
    requires facts { HasFacts metric.now.tree metric.now.sheet state.old }
{
    for (event, took) in events {
        assert_eq!(rt; state.step(alloc, metric, *event)?, *took);
    }
    Ok(())
}

#[test]
fn events(rt: HostRuntime) -> Result<(), Fail> {
    let alloc = rt.alloc();
    let metric = star(alloc, Sheet::Square)?;
    let rows = [
        // hand 1 is ready, with the root in its deque
        (Event::Pop { hand: 1 }, Took::Unlawful),
        (Event::Steal { hand: 1, from: 2 }, Took::Unlawful),
        (Event::Draw { hand: 1 }, Took::Unlawful),
        (Event::Examine { hand: 1 }, Took::Unlawful),
        (Event::Offer { hand: 1 }, Took::Unlawful),
        (Event::Push { hand: 1 }, Took::Unlawful),
        (Event::Keep { hand: 1 }, Took::Unlawful),
        (Event::Leave { hand: 1 }, Took::Unlawful),
        (Event::Load { hand: 0 }, Took::Unlawful),
        (Event::Load { hand: 4 }, Took::Unlawful),
        (Event::Load { hand: 1 }, Took::Done),
        (Event::Load { hand: 1 }, Took::Unlawful),
        // hand 2 steals it, and splits the pair of leaves 1 and 2, which allows one choice
        (Event::Load { hand: 2 }, Took::Done),
        (Event::Pop { hand: 2 }, Took::Done),
        (Event::Steal { hand: 2, from: 1 }, Took::Unlawful),
        (Event::Steal { hand: 2, from: 2 }, Took::Unlawful),
        (Event::Steal { hand: 2, from: 3 }, Took::Done),
        (Event::Steal { hand: 2, from: 1 }, Took::Done),
        (Event::Draw { hand: 2 }, Took::Done),
        (Event::Draw { hand: 2 }, Took::Unlawful),
        (Event::Examine { hand: 2 }, Took::Done),
        (Event::Examine { hand: 2 }, Took::Unlawful),
        (Event::Push { hand: 2 }, Took::Done),
        (Event::Push { hand: 2 }, Took::Unlawful),
        // it splits the pair of leaves 1 and 3, which allows three
        (Event::Load { hand: 2 }, Took::Done),
        (Event::Pop { hand: 2 }, Took::Done),
        (Event::Draw { hand: 2 }, Took::Done),
        (Event::Examine { hand: 2 }, Took::Done),
        (Event::Push { hand: 2 }, Took::Done),
        (Event::Keep { hand: 2 }, Took::Done),
        (Event::Push { hand: 2 }, Took::Done),
        (Event::Keep { hand: 2 }, Took::Unlawful),
        // hand 1 finds its deque empty, and steals a child
        (Event::Pop { hand: 1 }, Took::Done),
        (Event::Steal { hand: 1, from: 2 }, Took::Done),
        (Event::Leave { hand: 1 }, Took::Unlawful),
    ];
    match begun(alloc, &metric)? {
        None => assert!(rt; false),
        Some(mut state) => takes(&rt, alloc, &metric, &mut state, &rows)?,
    }
    Ok(())
}

// What a run ends with; none where the opening meets the floor.
fn ends<Q: Schedule>(
    alloc: Global,
    metric: &Metric,
    hands: u64,
    budget: u64,
    schedule: &mut Q,
) -> Result<Option<Settled>, NoMemory>
    requires hands { (1 ≤ hands) × (hands ≤ most_hands) }
    requires budget { (1 ≤ budget) × (budget ≤ most_budget) }
{
    let opening = open(alloc, metric)?;
    let least = floor(alloc, metric)?;
    if least.side >= opening.side {
        return Ok(None);
    }
    let found = run_schedule(alloc, metric, opening, least.side, hands, budget, schedule)?;
    Ok(Some(found))
}

// The run ends with this side. It examined as many as it made records of, all of them where nothing is left.
fn comes_to(rt: &impl Abort, found: Option<Settled>, side: u64, budget: u64) {
    match found {
        None => assert!(rt; false),
        Some(found) => {
            assert_eq!(rt; found.side, side);
            assert_eq!(rt; found.records.len() as u64, found.examined);
            assert!(rt; found.examined == budget || found.left.len() == 0);
        }
    }
}

// The same by the draws from the seed 5.
fn seeded(
    alloc: Global,
    metric: &Metric,
    hands: u64,
    budget: u64,
) -> Result<Option<Settled>, NoMemory>
    requires hands { (1 ≤ hands) × (hands ≤ most_hands) }
    requires budget { (1 ≤ budget) × (budget ≤ most_budget) }
{
    let opening = open(alloc, metric)?;
    let least = floor(alloc, metric)?;
    if least.side >= opening.side {
        return Ok(None);
    }
    let found = run_seeded(alloc, metric, opening, least.side, hands, budget, 5)?;
    Ok(Some(found))
}

#[test]
fn seeded_runs(rt: HostRuntime) -> Result<(), Fail> {
    let alloc = rt.alloc();
    let square = star(alloc, Sheet::Square)?;
    let strip = star(alloc, Sheet::Strip { width: 4 })?;
    let rows = [
        (&square, 50_000, 1),
        (&square, 50_000, 2),
        (&square, 50_000, 4),
        (&square, 50_000, 16),
        (&square, 20, 4),
        (&strip, 50_000, 4),
    ];
    for (metric, budget, hands) in rows {
        let found = seeded(alloc, metric, hands, budget)?;
        comes_to(&rt, found, 5, budget);
    }
    Ok(())
}

#[test]
fn listed_runs(rt: HostRuntime) -> Result<(), Fail> {
    let alloc = rt.alloc();
    let square = star(alloc, Sheet::Square)?;
    let mut schedule = ListSchedule {
        numbers: vec![in alloc; 1, 0, 3, 2, 5, 1]?,
        at: 0,
    };
    for hands in [1, 2, 4, 16] {
        let found = ends(alloc, &square, hands, 50_000, &mut schedule)?;
        comes_to(&rt, found, 5, 50_000);
    }
    Ok(())
}
