// A kept proof taken apart, so that its open branches can be searched.
ghost use Rattle.std.specs.Prelude.{◌≡◌, ◌++◌, ◌∷◌, [], map, OnOk};
ghost use Rattle.bp_metric.specs.Records.{paths_left};
ghost use Rattle.bp_metric.specs.Refutation.{Fits};
ghost use Rattle.bp_join.specs.Joined.{node_of};
ghost use Rattle.bp_written.specs.Told.{IsOfPairs};
ghost use Rattle.bp_revise.specs.Apart.{examined, nodes_below, open_paths};

use bp_base::{NoMemory, Path, Record, RecordKind, Refutation, Sequence, Step, Task};
use bp_branch::extended;
use bp_metric::Metric;
use bp_pairs::allowed;
use std::alloc::Global;

/// The nodes of a proof: a record for each split and each closed leaf, and a task for each open one.
#[derive(Drop)]
pub struct Parts {
    pub records: Sequence<Record>,
    pub left: Sequence<Task>,
}

/// Adds the nodes of a refutation that fits the path, each at its own path. The records and tasks are given this bound.
pub fn take_apart(
    alloc: Global,
    metric: &Metric,
    refutation: &Refutation,
    bound: u64,
    path: &Path,
    parts: &mut Parts,
) -> Result<(), NoMemory>
    requires fits { Fits metric.now.tree metric.now.sheet refutation.now path.now }
    requires pairs { IsOfPairs metric.now.tree path.now }
    ensures records { OnOk result (map (node_of metric.now.tree metric.now.sheet) parts.new.records ≡ map (node_of metric.now.tree metric.now.sheet) parts.old.records ++ examined (nodes_below metric.now.tree metric.now.sheet refutation.now path.now)) }
    ensures left { OnOk result (paths_left parts.new.left ≡ paths_left parts.old.left ++ open_paths (nodes_below metric.now.tree metric.now.sheet refutation.now path.now)) }
{
    let _leaves = metric.leaves();
    match refutation {
        Refutation::Split { pair, children } => {
            let kind = RecordKind::Split { pair: *pair };
            add_record(alloc, path, kind, bound, parts)?;
            let choices = allowed(metric, *pair);
            let children = children.as_slice();
            for k in 0..choices.count() {
                let choice = choices.at(k);
                let step = Step {
                    pair: *pair,
                    choice,
                };
                let below = extended(alloc, path, step)?;
                take_apart(alloc, metric, &children[k as usize], bound, &below, parts)?;
            }
            Ok(())
        }
        Refutation::Closed { claim } => {
            let kind = RecordKind::Closed {
                claim: claim.copy(),
            };
            add_record(alloc, path, kind, bound, parts)
        }
        Refutation::Open { .. } => {
            let path = path.copy(alloc)?;
            parts.left.push(Task { path, bound })?;
            Ok(())
        }
    }
}

fn add_record(
    alloc: Global,
    path: &Path,
    kind: RecordKind,
    bound: u64,
    parts: &mut Parts,
) -> Result<(), NoMemory>
    ensures { OnOk result (parts.new ≡ record { records = parts.old.records ++ (record { path = path.now; kind = kind; ticket = 0; given = bound; bound = bound }) ∷ []; left = parts.old.left }) }
{
    let path = path.copy(alloc)?;
    parts.records.push(Record {
        path,
        kind,
        ticket: 0,
        given: bound,
        bound,
    })?;
    Ok(())
}
