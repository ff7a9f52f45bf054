ghost use Rattle.std.specs.Prelude.{◌≡◌, ◌<◌, [], ◌∷◌, length, IfOk};
ghost use Rattle.bp_base.specs.Path.{IsSmallPair};
ghost use Rattle.bp_base.specs.Tree.{IsTree};

use bp_base::*;
use sqlite_items::Items;
use std::alloc::Global;
use std::fmt::Debug;
use std::process::Abort;
use std::test::Fail;
use std::thread;
use std::thread::Threads;

fn moves<T: Send>(_: &T) {}

fn shares<T: Sync>(_: &T) {}

// The proof of a function grows with each `assert_eq!` in it, and that of a drop in place with all that the value holds, branch by branch.
// So both are called here.
fn is<T: Copy + PartialEq + Debug>(rt: &impl Abort, value: T, wanted: T) {
    assert_eq!(rt; value, wanted);
}

// The value goes between threads, and then it is dropped.
fn goes<T: Send + Sync + Drop>(value: T) {
    moves(&value);
    shares(&value);
    drop(value);
}

fn numbers(alloc: Global, items: &[u64]) -> Result<Vec<u64>, Fail>
    ensures { IfOk result (λ v. v.items ≡ items.now) }
{
    Ok(Vec::from_slice(alloc, items)?)
}

fn step(i: u64, j: u64, choice: Choice) -> Step
    ensures { result ≡ record { pair = record { i = i; j = j }; choice = choice } }
{
    Step {
        pair: Pair { i, j },
        choice,
    }
}

fn walk(alloc: Global, leaves: &[u64]) -> Result<Claim, Fail> {
    let chain = Chain::new(alloc, leaves).ok_or("no chain")?;
    Ok(Claim::Walk {
        axis: Axis::X,
        chain,
    })
}

fn is_name(rt: &impl Abort, bytes: &[u8], wanted: bool) {
    let name = Name::new(bytes);
    is(rt, (bytes, name.is_some()), (bytes, wanted));
    if let Some(name) = name {
        is(rt, name.bytes(), bytes);
        moves(&name);
        shares(&name);
    }
}

#[test]
fn names(rt: HostRuntime) {
    let long = [b'a'; 33];
    is_name(&rt, b"a", true);
    is_name(&rt, b"_", true);
    is_name(&rt, b"-", true);
    is_name(&rt, b"Z9_-z0", true);
    is_name(&rt, &long[..32], true);
    is_name(&rt, b"", false);
    is_name(&rt, &long, false);
    is_name(&rt, b"a b", false);
    is_name(&rt, b"a\n", false);
    is_name(&rt, b"@", false);
    is_name(&rt, b"[", false);
    is_name(&rt, b"\xc3\xa4", false);
    is(&rt, Name::new(b"ab") == Name::new(b"ab"), true);
    is(&rt, Name::new(b"ab") == Name::new(b"a"), false);
}

fn has_leaves(rt: &impl Abort, chain: &Chain, leaves: &[u64]) {
    is(rt, chain.len(), leaves.len() as u64);
    for k in 0..chain.len() {
        is(rt, Some(chain.at(k)), leaves.get(k as usize).copied());
    }
}

fn is_chain(rt: &impl Abort, alloc: Global, leaves: &[u64], wanted: bool) {
    let chain = Chain::new(alloc, leaves);
    is(rt, (leaves, chain.is_some()), (leaves, wanted));
    if let Some(chain) = chain {
        has_leaves(rt, &chain, leaves);
        goes(chain);
    }
}

#[test]
fn chains(rt: HostRuntime) {
    let alloc = rt.alloc();
    let long = [7u64; 33];
    is_chain(&rt, alloc, &[3, 1, 2], true);
    is_chain(&rt, alloc, &[0, 999_999_999], true);
    is_chain(&rt, alloc, &long[..32], true);
    is_chain(&rt, alloc, &[], false);
    is_chain(&rt, alloc, &long, false);
    is_chain(&rt, alloc, &[1, 1_000_000_000], false);
}

#[test]
fn paths(rt: HostRuntime) -> Result<(), Fail> {
    let alloc = rt.alloc();
    let mut path = Path::empty(alloc);
    let result = on_path(&rt, alloc, &mut path);
    moves(&path);
    shares(&path);
    goes(Task { path, bound: 5 });
    result
}

fn on_path(rt: &impl Abort, alloc: Global, path: &mut Path) -> Result<(), Fail>
    requires { path.old ≡ [] }
{
    let first = step(1, 2, Choice::Left);
    let last = step(31, 32, Choice::Above);
    path.push(first)?;
    path.push(last)?;
    is(rt, (path.len(), path.at(0), path.at(1)), (2, first, last));
    let kept = path.copy(alloc)?;
    let result = beside(rt, alloc, path, &kept, last);
    drop(kept);
    result
}

// The path goes on without its last step, beside a copy that keeps it.
fn beside(
    rt: &impl Abort,
    alloc: Global,
    path: &mut Path,
    kept: &Path,
    last: Step,
) -> Result<(), Fail>
    requires path { 0 < length path.old }
    requires kept { 1 < length kept.now }
{
    is(rt, (path.pop(), path.len()), (last, 1));
    is(rt, (kept.len(), kept.at(1)), (2, last));
    push_all(path)?;
    have_in_common(rt, alloc, path, kept)?;
    assert!(rt; path.len() == 117 && path.at(116) == step(1, 31, Choice::Above));
    Ok(())
}

fn push_all(path: &mut Path) -> Result<(), Fail> {
    for j in 3..32 {
        for choice in [Choice::Left, Choice::Right, Choice::Below, Choice::Above] {
            push(path, step(1, j, choice))?;
        }
    }
    Ok(())
}

fn push(path: &mut Path, step: Step) -> Result<(), Fail>
    requires { IsSmallPair step.pair }
{
    if path.len() < MOST_STEPS {
        path.push(step)?;
    }
    Ok(())
}

// Paths that have one step in common, where the second has two.
fn have_in_common(rt: &impl Abort, alloc: Global, path: &Path, kept: &Path) -> Result<(), Fail> {
    is(rt, path.common(kept), 1);
    is(rt, path.common(path), path.len());
    let empty = Path::empty(alloc);
    is(rt, path.common(&empty), 0);
    drop(empty);
    if path.len() < MOST_STEPS {
        let longer = path.extended(alloc, step(30, 31, Choice::Below))?;
        goes_on(rt, path, &longer);
        drop(longer);
    }
    Ok(())
}

// The second has one step more.
fn goes_on(rt: &impl Abort, path: &Path, longer: &Path) {
    is(rt, longer.len(), path.len().saturating_add(1));
    is(rt, longer.common(path), path.len());
    is(rt, path.common(longer), path.len());
}

fn of_three(rt: &impl Abort, sequence: &mut Sequence<u64>) -> Result<(), Fail>
    requires { sequence.old ≡ [] }
{
    sequence.push(4u64)?;
    sequence.push(5)?;
    sequence.push(6)?;
    sequence.set(1, 50);
    is(rt, sequence.as_slice(), &[4, 50, 6]);
    is(rt, (sequence.pop(), sequence.len()), (Some(6), 2));
    moves(sequence);
    shares(sequence);
    Ok(())
}

#[test]
fn sequences(rt: HostRuntime) -> Result<(), Fail> {
    let mut sequence = Sequence::new(rt.alloc());
    of_three(&rt, &mut sequence)?;
    let mut items = sequence.into_vec();
    items.push(7)?;
    let sequence = Sequence::from_vec(items);
    is(&rt, sequence.as_slice(), &[4, 50, 7]);
    drop(sequence);
    Ok(())
}

fn named(text: &[u8]) -> Result<Name, Fail>
    ensures { IfOk result (λ name. name ≡ text.now) }
{
    match Name::new(text) {
        Some(name) => Ok(name),
        None => Err(Fail::from("no name")),
    }
}

fn two_leaves(alloc: Global, names: &[Name]) -> Result<Tree, Fail>
    requires { IsTree (record { parents = 0 ∷ 0 ∷ 0 ∷ []; lengths = 0 ∷ 1 ∷ 1000 ∷ []; names = names.now }) }
{
    let parents = numbers(alloc, &[0, 0, 0])?;
    let lengths = numbers(alloc, &[0, 1, 1000])?;
    let names = Vec::from_slice(alloc, names)?;
    Ok(Tree::of(parents, lengths, names))
}

fn has_two_leaves(rt: &impl Abort, tree: &Tree, names: &[Name]) {
    is(rt, tree.parents(), &[0, 0, 0]);
    is(rt, tree.lengths(), &[0, 1, 1000]);
    is(rt, tree.names() == names, true);
}

#[test]
fn trees(rt: HostRuntime) -> Result<(), Fail> {
    let names = [named(b"r")?, named(b"a")?, named(b"b")?];
    let tree = two_leaves(rt.alloc(), &names)?;
    let kept = tree.copy(rt.alloc());
    goes(tree);
    let kept = kept?;
    has_two_leaves(&rt, &kept, &names);
    drop(kept);
    Ok(())
}

fn record(alloc: Global) -> Result<Record, Fail> {
    let claim = walk(alloc, &[1, 2])?;
    Ok(Record {
        path: Path::empty(alloc),
        kind: RecordKind::Closed { claim },
        ticket: 1,
        given: 5,
        bound: 5,
    })
}

fn least(alloc: Global) -> Result<Least, Fail> {
    let claim = walk(alloc, &[1, 2])?;
    Ok(Least {
        xs: Sequence::from_vec(numbers(alloc, &[0, 3])?),
        ys: Sequence::new(alloc),
        forced: 3,
        claim,
    })
}

fn of_one<T: Drop>(alloc: Global, item: T) -> Result<Sequence<T>, Fail> {
    let mut sequence = Sequence::new(alloc);
    sequence.push(item)?;
    Ok(sequence)
}

fn settled(alloc: Global) -> Result<Settled, Fail> {
    let records = of_one(alloc, record(alloc)?)?;
    Ok(Settled {
        records,
        left: Sequence::new(alloc),
        side: 5,
        points: Sequence::new(alloc),
        examined: 1,
    })
}

#[test]
fn records(rt: HostRuntime) -> Result<(), Fail> {
    let alloc = rt.alloc();
    goes(record(alloc)?);
    goes(least(alloc)?);
    goes(settled(alloc)?);
    goes(Floor {
        m: 2,
        leaves: Sequence::from_vec(numbers(alloc, &[1, 2])?),
        side: 2,
    });
    goes(Placement {
        side: 5,
        points: Sequence::new(alloc),
    });
    Ok(())
}

fn push_children(alloc: Global, children: &mut Items<Refutation>) -> Result<(), Fail> {
    let claim = walk(alloc, &[1])?;
    children.push(Refutation::Open { claim })?;
    let claim = walk(alloc, &[1, 3])?;
    children.push(Refutation::Closed { claim })?;
    Ok(())
}

fn is_split(rt: &impl Abort, refutation: &Refutation) {
    match refutation {
        Refutation::Split { pair, children } => {
            is(rt, *pair, Pair { i: 1, j: 2 });
            is(rt, children.len(), 2);
        }
        _ => assert!(rt; false),
    }
}

#[test]
fn refutations(rt: HostRuntime) -> Result<(), Fail> {
    let mut children = Items::new(rt.alloc());
    let result = push_children(rt.alloc(), &mut children);
    let refutation = Refutation::Split {
        pair: Pair { i: 1, j: 2 },
        children,
    };
    if result.is_ok() {
        is_split(&rt, &refutation);
    }
    goes(refutation);
    result
}

// A source of pieces of 3 bytes, whose call of this number fails.
fn seven(alloc: Global, failing: u64) -> Result<MemSource, Fail> {
    Ok(MemSource {
        bytes: Vec::from_slice(alloc, b"abcdefg")?,
        at: 0,
        most: 3,
        calls: 0,
        fails: numbers(alloc, &[failing])?,
        faults: 0,
    })
}

fn reads_piece(rt: &impl Abort, source: &mut MemSource, wanted: Result<u64, Failed>, bytes: &[u8]) {
    let mut buffer = [b'.'; 4];
    is(rt, source.read(&mut buffer), wanted);
    is(rt, buffer.as_slice(), bytes);
}

fn reads_in_pieces(rt: &impl Abort, source: &mut MemSource) {
    reads_piece(rt, source, Ok(3), b"abc.");
    reads_piece(rt, source, Err(Failed), b"....");
    reads_piece(rt, source, Ok(3), b"def.");
    reads_piece(rt, source, Ok(1), b"g...");
    reads_piece(rt, source, Ok(0), b"....");
    is(rt, (source.at, source.calls, source.faults), (7, 5, 1));
    moves(source);
}

fn reads_quietly(rt: &impl Abort, source: &mut QuietSource) {
    let mut buffer = [0; 4];
    is(rt, source.read(&mut buffer), Ok(4));
    is(rt, source.read(&mut buffer), Ok(1));
    is(rt, buffer.as_slice(), b"ebcd");
    is(rt, source.read(&mut buffer), Ok(0));
    moves(source);
}

#[test]
fn memory_source(rt: HostRuntime) -> Result<(), Fail> {
    let mut source = seven(rt.alloc(), 2)?;
    reads_in_pieces(&rt, &mut source);
    drop(source);
    let bytes = Vec::from_slice(rt.alloc(), b"abcde")?;
    let mut quiet = QuietSource { bytes, at: 0 };
    reads_quietly(&rt, &mut quiet);
    drop(quiet);
    Ok(())
}

// What reading seven bytes gives, of which a call may fail.
fn whole(alloc: Global, failing: u64, most: u64) -> Result<Result<Vec<u8>, ReadError>, Fail> {
    let mut source = seven(alloc, failing)?;
    let whole = read_whole(alloc, &mut source, most);
    drop(source);
    Ok(whole)
}

fn reads(rt: &impl Abort, alloc: Global, most: u64, wanted: &[u8]) -> Result<(), Fail> {
    let whole = whole(alloc, 9, most)?;
    assert!(rt;
        matches!(&whole, Ok(bytes) if bytes.as_slice() == wanted),
        "{most}"
    );
    drop(whole);
    Ok(())
}

#[test]
fn read_to_end_or_limit(rt: HostRuntime) -> Result<(), Fail> {
    let alloc = rt.alloc();
    reads(&rt, alloc, 9, b"abcdefg")?;
    reads(&rt, alloc, 7, b"abcdefg")?;
    reads(&rt, alloc, 4, b"abcd")?;
    reads(&rt, alloc, 0, b"")?;
    let failed = whole(alloc, 2, 9)?;
    assert!(rt; matches!(&failed, Err(ReadError::Failed)));
    drop(failed);
    Ok(())
}

fn writes_in_pieces(rt: &impl Abort, sink: &mut MemSink) {
    is(rt, sink.write(b"ab"), Ok(2));
    is(rt, sink.write(b"cd"), Err(Failed));
    is(rt, sink.write(b"c"), Ok(1));
    is(rt, sink.write(b"defghi"), Ok(3));
    is(rt, sink.write(b"g"), Err(Failed));
    is(rt, sink.bytes.as_slice() == b"abcdef".as_slice(), true);
    is(rt, (sink.calls, sink.faults), (5, 2));
    moves(sink);
}

fn counts(rt: &impl Abort) {
    let mut count = CountSink {
        length: u64::MAX - 3,
    };
    is(rt, count.write(b"ab"), Ok(2));
    is(rt, count.length, u64::MAX - 1);
    is(rt, count.write(b"ab"), Ok(2));
    is(rt, count.length, u64::MAX);
    moves(&count);
}

#[test]
fn memory_sink(rt: HostRuntime) -> Result<(), Fail> {
    let fails = numbers(rt.alloc(), &[2])?;
    let mut sink = MemSink::new(rt.alloc(), 6, 4, fails)?;
    writes_in_pieces(&rt, &mut sink);
    drop(sink);
    counts(&rt);
    let gate = OpenGate;
    gate.pass(1, 0);
    goes(gate);
    Ok(())
}

fn list_turns(rt: &impl Abort, list: &mut ListSchedule) {
    is(rt, turn_of(list, 4), 3);
    is(rt, turn_of(list, 2), 0);
    is(rt, turn_of(list, 16), 15);
    is(rt, turn_of(list, 3), 0);
    is(rt, turn_of(list, 1), 0);
    moves(list);
}

fn seed_turns(rt: &impl Abort) {
    let mut seed = SeedSchedule { state: 1 };
    is(rt, turn_of(&mut seed, 100_000), 16_838);
    is(rt, turn_of(&mut seed, 100_000), 5_758);
    is(rt, turn_of(&mut seed, 3), 0);
    is(rt, turn_of(&mut seed, 16), 11);
    moves(&seed);
}

#[test]
fn schedules(rt: HostRuntime) -> Result<(), Fail> {
    let numbers = numbers(rt.alloc(), &[7, 2, u64::MAX])?;
    let mut list = ListSchedule { numbers, at: 0 };
    list_turns(&rt, &mut list);
    drop(list);
    seed_turns(&rt);
    let mut state = u64::from(u32::MAX);
    is(&rt, draw(&mut state), 15929);
    law_of_turns();
    Ok(())
}

fn turn_of<Q: Schedule>(schedule: &mut Q, live: u64) -> u64 {
    if live == 0 { 0 } else { schedule.turn(live) }
}

// Both hands pass, each in a thread of its own.
fn both_pass<R: Threads + Sync>(rt: &R, gate: &HoldGate, hands: &mut [u64]) {
    thread::for_each_mut(
        rt,
        hands,
        2,
        &|_, hand| {
            for records in 0..4 {
                gate.pass(*hand, records);
            }
        },
    );
}

#[test]
fn hold_gate(rt: HostRuntime) {
    let together = HoldGate::new();
    both_pass(&rt, &together, &mut [1, 2]);
    is(&rt, together.gave_up(), false);
    together.pass(1, 0);
    together.pass(2, 1);
    is(&rt, together.gave_up(), false);
    goes(together);
}

// One thread makes the passes of all hands: those of hands that aren't held, and then one that is.
#[test]
fn hold_gate_alone(rt: HostRuntime) {
    let alone = HoldGate::new();
    alone.pass(2, 0);
    alone.pass(3, 1);
    alone.pass(0, 1);
    is(&rt, alone.gave_up(), false);
    alone.pass(2, 1);
    is(&rt, alone.gave_up(), true);
    alone.pass(1, 0);
    alone.pass(2, 2);
}
