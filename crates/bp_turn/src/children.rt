// The children of a split.
ghost use Rattle.std.specs.Prelude.{◌≡◌, ◌<◌, ◌++◌, [], length, map, OnErr, OnOk};
ghost use Rattle.bp_base.specs.Limits.{most_steps};
ghost use Rattle.bp_base.specs.Path.{IsSmallPair};
ghost use Rattle.bp_pairs.specs.Sets.{choices_of};
ghost use Rattle.bp_turn.specs.Turns.{child};

use bp_base::{NoMemory, Pair, Path, Sequence, Step, Task};
use bp_branch::extended;
use bp_pairs::ChoiceSet;
use std::alloc::Global;

/// Makes the children of a split, one for each choice in order. After NoMemory there are none.
pub fn make_children(
    alloc: Global,
    children: &mut Sequence<Task>,
    path: &Path,
    bound: u64,
    pair: Pair,
    choices: ChoiceSet,
) -> Result<(), NoMemory>
    requires room { length path.now < most_steps }
    requires pair { IsSmallPair pair }
    requires empty { children.old ≡ [] }
    ensures ok { OnOk result (children.new ≡ map (child path.now bound pair) (choices_of choices)) }
    ensures err { OnErr result (children.new ≡ []) }
{
    let made = push_children(alloc, children, path, bound, pair, choices);
    if made.is_err() {
        empty(children);
    }
    made
}

fn push_children(
    alloc: Global,
    children: &mut Sequence<Task>,
    path: &Path,
    bound: u64,
    pair: Pair,
    choices: ChoiceSet,
) -> Result<(), NoMemory>
    requires room { length path.now < most_steps }
    requires pair { IsSmallPair pair }
    requires empty { children.old ≡ [] }
    ensures { OnOk result (children.new ≡ map (child path.now bound pair) (choices_of choices)) }
{
    for k in 0..choices.count() {
        let step = Step {
            pair,
            choice: choices.at(k),
        };
        let path = extended(alloc, path, step)?;
        children.push(Task { path, bound })?;
    }
    Ok(())
}

fn empty(tasks: &mut Sequence<Task>)
    ensures { tasks.new ≡ [] }
{
    while tasks.len() > 0 {
        let _task = tasks.pop();
    }
}
