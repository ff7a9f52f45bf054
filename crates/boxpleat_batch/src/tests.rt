// Rows of `run_batch`. Its words have rows of their own, beside the code that reads them.
use crate::batch::run_batch;
use crate::status::BatchStatus;
use bp_base::{Gate, HoldGate, MemSink, MemSource, OpenGate, Tree};
use bp_catalogue::Catalogue;
use bp_tree::read_tree;
use std::alloc::Global;
use std::fmt::Debug;
use std::process::Abort;
use std::sync::{Mutex, Wait};
use std::test::Fail;
use std::thread::Threads;

// What a batch leaves: its status's number, what it wrote, and what is left of its input.
#[derive(Drop)]
struct Left {
    number: u8,
    out: Vec<u8>,
    err: Vec<u8>,
    unread: u64,
}

// Which calls of the input, of the output and of the error output fail.
#[derive(Clone, Copy)]
struct Faults {
    read: u64,
    write: u64,
    tell: u64,
}

const NONE: Faults = Faults {
    read: 0,
    write: 0,
    tell: 0,
};

// The three streams of a batch.
#[derive(Drop)]
struct Streams {
    input: MemSource,
    out: MemSink,
    err: MemSink,
}

fn input(alloc: Global, bytes: &[u8], failing: u64) -> Result<MemSource, Fail> {
    let bytes = Vec::from_slice(alloc, bytes)?;
    let fails = vec![in alloc; failing]?;
    Ok(MemSource {
        bytes,
        at: 0,
        most: 4096,
        calls: 0,
        fails,
        faults: 0,
    })
}

fn sink(alloc: Global, room: u64, failing: u64) -> Result<MemSink, Fail> {
    let fails = vec![in alloc; failing]?;
    Ok(MemSink::new(alloc, room, 16, fails)?)
}

// The proof of a function grows with each `assert_eq!` in it, and that of a drop in place with all that the value holds, branch by branch.
// So both are called in this file.
fn is<T: Copy + PartialEq + Debug>(rt: &impl Abort, value: T, wanted: T) {
    assert_eq!(rt; value, wanted);
}

fn both<A: Drop, B: Drop>(first: A, second: Result<B, Fail>) -> Result<(A, B), Fail> {
    Ok((first, second?))
}

fn open_streams(alloc: Global, bytes: &[u8], faults: Faults) -> Result<Streams, Fail> {
    let out = sink(alloc, 65_536, faults.write)?;
    let (out, err) = both(out, sink(alloc, 256, faults.tell))?;
    let ((out, err), input) = both((out, err), input(alloc, bytes, faults.read))?;
    Ok(Streams { input, out, err })
}

fn push_words(alloc: Global, words: &mut Vec<String>, line: &str) -> Result<(), Fail> {
    for word in line.split(' ') {
        if !word.is_empty() {
            words.push(String::from_str(alloc, word)?)?;
        }
    }
    Ok(())
}

fn left_by(status: BatchStatus, streams: Streams) -> Left {
    let Streams { input, out, err } = streams;
    let unread = input.bytes.len() as u64 - input.at;
    drop(input);
    Left {
        number: status.number(),
        out: out.bytes,
        err: err.bytes,
        unread,
    }
}

fn leave_words<R: Threads + Wait + Sync, G: Gate + Sync>(
    rt: &R,
    alloc: Global,
    words: &[String],
    bytes: &[u8],
    faults: Faults,
    shared: &Mutex<Catalogue>,
    gate: &G,
) -> Result<Left, Fail> {
    let mut streams = open_streams(alloc, bytes, faults)?;
    let status = run_batch(
        rt,
        alloc,
        words,
        &mut streams.input,
        &mut streams.out,
        &mut streams.err,
        shared,
        gate,
    );
    Ok(left_by(status, streams))
}

fn leave_with<R: Threads + Wait + Sync, G: Gate + Sync>(
    rt: &R,
    alloc: Global,
    line: &str,
    bytes: &[u8],
    faults: Faults,
    shared: &Mutex<Catalogue>,
    gate: &G,
) -> Result<Left, Fail> {
    let mut words = Vec::new(alloc);
    let left = match push_words(alloc, &mut words, line) {
        Ok(()) => leave_words(rt, alloc, &words, bytes, faults, shared, gate),
        Err(fail) => Err(fail),
    };
    drop(words);
    left
}

fn leave<R: Threads + Wait + Sync>(
    rt: &R,
    alloc: Global,
    line: &str,
    bytes: &[u8],
    faults: Faults,
) -> Result<Left, Fail> {
    let shared = Mutex::new(Catalogue::open(alloc)?);
    let left = leave_with(rt, alloc, line, bytes, faults, &shared, &OpenGate);
    drop(shared);
    left
}

// What a batch of these pieces leaves.
fn leave_pieces<R: Threads + Wait + Sync>(
    rt: &R,
    alloc: Global,
    line: &str,
    pieces: &[&str],
    faults: Faults,
) -> Result<Left, Fail> {
    let bytes = joined(alloc, pieces)?;
    let left = leave(rt, alloc, line, &bytes, faults);
    drop(bytes);
    left
}

const PAIR: &str = "c p 1\nc q 1\n";

const PAIR_DESIGN: &str =
    "boxpleat 2\nsheet square\nedges 2\nedge c p 1\nedge c q 1\nside 2\nbound 2\npoint p 0 0\npoint q 0 2\nfloor 2 2 1 2\nproof none\nend\n";

const STAR: &str = "c p 2\nc q 2\nc r 2\nc s 1\nc t 1\n";

const STAR_SPENT: &str =
    "boxpleat 2\nsheet square\nedges 5\nedge c p 2\nedge c q 2\nedge c r 2\nedge c s 1\nedge c t 1\nside 5\nbound 4\npoint p 0 0\npoint q 0 4\npoint r 4 0\npoint s 3 3\npoint t 3 5\nfloor 2 4 1 2 3 4 5\nproof 2\n0 split 1 2\n1 open x 1 2\nend\n";

const NO_LENGTH: &str = "1\ntree: line 1: BadLength\n";

const ONE_WORD: &str = "1\ntree: line 3: WordCount\n";

const NOTHING: &str = "1\ntree: line 0: Empty\n";

fn push_reply(
    alloc: Global,
    text: &mut Vec<u8>,
    number: usize,
    parts: [&str; 2],
) -> Result<(), Fail> {
    let head = format!(in alloc; "reply {number} ")?;
    text.extend_from_slice(head.as_bytes())?;
    for part in parts {
        text.extend_from_slice(part.as_bytes())?;
    }
    Ok(())
}

fn push_replies(alloc: Global, text: &mut Vec<u8>, letters: &str) -> Result<(), Fail> {
    for (k, letter) in letters.bytes().enumerate() {
        let parts = match letter {
            b'P' => ["0\n", PAIR_DESIGN],
            b'S' => ["3\n", STAR_SPENT],
            b'L' => [NO_LENGTH, ""],
            b'W' => [ONE_WORD, ""],
            _ => [NOTHING, ""],
        };
        push_reply(alloc, text, k + 1, parts)?;
    }
    text.extend_from_slice(b"batch end\n")?;
    Ok(())
}

// The text in which `P` stands for the reply with the design of two leaves of length 1, `S` for one with the design of the star that has
// spent its budget, `L` for one that tells a bad length in line 1, `W` for one that
// tells a wrong number of words in line 3, and `E` for one that tells an empty tree.
fn replies(alloc: Global, letters: &str) -> Result<Vec<u8>, Fail> {
    let mut text = Vec::new(alloc);
    push_replies(alloc, &mut text, letters)?;
    Ok(text)
}

// The batch ended with this number, its output holds these replies, and it has read all and told nothing.
fn is_answered(
    rt: &impl Abort,
    alloc: Global,
    left: &Left,
    line: &str,
    letters: &str,
) -> Result<(), Fail> {
    let wanted = replies(alloc, letters)?;
    is(rt, (line, letters, left.number), (line, letters, 0));
    let (out, wanted) = (left.out.as_slice(), wanted.as_slice());
    is(rt, (line, letters, out), (line, letters, wanted));
    is(rt, (left.unread, left.err.is_empty()), (0, true));
    Ok(())
}

fn is_output(rt: &impl Abort, left: &Left, wanted: &[u8]) {
    is(rt, left.out.as_slice(), wanted);
}

fn answers<R: Abort + Threads + Wait + Sync>(
    rt: &R,
    alloc: Global,
    line: &str,
    pieces: &[&str],
    letters: &str,
) -> Result<(), Fail> {
    let left = leave_pieces(rt, alloc, line, pieces, NONE)?;
    let result = is_answered(rt, alloc, &left, line, letters);
    drop(left);
    result
}

fn joined(alloc: Global, pieces: &[&str]) -> Result<Vec<u8>, Fail> {
    let mut bytes = Vec::new(alloc);
    for piece in pieces {
        bytes.extend_from_slice(piece.as_bytes())?;
    }
    Ok(bytes)
}

// The words, the pieces of the input, and the replies by their letters.
const BATCHES: [(&str, &[&str], &str); 14] = [
    ("", &[PAIR, "%\n", "c p 0\n", "%\n", PAIR], "PLP"),
    ("--workers=3", &[PAIR, "%\n", "c p 0\n", "%\n", PAIR], "PLP"),
    (
        "--workers 16",
        &[PAIR, "%\n", "c p 0\n", "%\n", PAIR],
        "PLP",
    ),
    ("", &[], "E"),
    ("", &[PAIR], "P"),
    ("", &["%"], "EE"),
    ("", &["%\n"], "EE"),
    ("", &["%\r\n%\r"], "EEE"),
    ("", &[PAIR, "%\r\n", PAIR, "%"], "PPE"),
    ("", &["%\n", "c p 1\nc q 1", "\n%\n", PAIR], "EPP"),
    ("", &["c p 1\nc q 1\n% \n", "%\n", "c p 0"], "WL"),
    ("--budget 1", &[STAR, "%\n", PAIR, "%\n", STAR], "SPS"),
    ("--budget 1 --workers 1", &[STAR, "%\n", STAR], "SS"),
    ("--workers 2 --budget 1", &["%\n%\n%\n%\n", STAR], "EEEES"),
];

#[test]
fn batches(rt: HostRuntime) -> Result<(), Fail> {
    let alloc = rt.alloc();
    for (line, pieces, letters) in BATCHES {
        answers(&rt, alloc, line, pieces, letters)?;
    }
    Ok(())
}

fn is_refused(rt: &impl Abort, left: &Left) {
    is(rt, (left.number, left.out.is_empty()), (2, true));
    is(rt, left.unread, PAIR.len() as u64);
    let usage = "usage: boxpleat_batch [--workers W] [--budget B]\n";
    is(rt, left.err.as_slice(), usage.as_bytes());
}

// With words that are refused nothing is read.
#[test]
fn refused_words(rt: HostRuntime) -> Result<(), Fail> {
    for line in ["--workers 17", "--budget 0", "--help", "trees"] {
        let left = leave_pieces(&rt, rt.alloc(), line, &[PAIR], NONE)?;
        is_refused(&rt, &left);
        drop(left);
    }
    Ok(())
}

// A pair, and so many marks behind it.
fn marked(alloc: Global, marks: u64) -> Result<Vec<u8>, Fail> {
    let mut bytes = joined(alloc, &[PAIR])?;
    for _ in 0..marks {
        bytes.extend_from_slice(b"%\n")?;
    }
    Ok(bytes)
}

// The letter of a pair, and so many of empty trees.
fn marked_letters(alloc: Global, marks: u64) -> Result<String, Fail> {
    let mut letters = String::from_str(alloc, "P")?;
    for _ in 0..marks {
        letters.push('E')?;
    }
    Ok(letters)
}

fn marked_replies(alloc: Global, marks: u64) -> Result<Vec<u8>, Fail> {
    let letters = marked_letters(alloc, marks)?;
    replies(alloc, letters.as_str())
}

fn is_marked(
    rt: &impl Abort,
    alloc: Global,
    left: &Left,
    marks: u64,
    number: u8,
    told: &str,
) -> Result<(), Fail> {
    is(rt, left.number, number);
    is(rt, left.err.as_slice(), told.as_bytes());
    if number != 0 {
        is_output(rt, left, b"");
        return Ok(());
    }
    let wanted = marked_replies(alloc, marks)?;
    is_output(rt, left, &wanted);
    Ok(())
}

fn leave_marks<R: Abort + Threads + Wait + Sync>(
    rt: &R,
    alloc: Global,
    marks: u64,
    number: u8,
    told: &str,
) -> Result<(), Fail> {
    let bytes = marked(alloc, marks)?;
    let left = leave(rt, alloc, "", &bytes, NONE);
    drop(bytes);
    let left = left?;
    let result = is_marked(rt, alloc, &left, marks, number, told);
    drop(left);
    result
}

#[test]
fn most_pieces(rt: HostRuntime) -> Result<(), Fail> {
    let alloc = rt.alloc();
    leave_marks(&rt, alloc, 198, 0, "")?;
    leave_marks(&rt, alloc, 199, 0, "")?;
    leave_marks(&rt, alloc, 200, 1, "batch: TooManyPieces\n")
}

// What is wanted of a batch: its status's number, what it wrote, and what is left of its input.
#[derive(Clone, Copy)]
struct Wanted<'a> {
    number: u8,
    out: &'a [u8],
    err: &'a [u8],
    unread: u64,
}

fn is_left(rt: &impl Abort, left: &Left, wanted: Wanted) {
    is(rt, left.number, wanted.number);
    is(rt, left.out.as_slice(), wanted.out);
    is(rt, left.err.as_slice(), wanted.err);
    is(rt, left.unread, wanted.unread);
}

fn leave_long<R: Abort + Threads + Wait + Sync>(
    rt: &R,
    alloc: Global,
    long: usize,
    wanted: Wanted,
) -> Result<(), Fail> {
    let mut bytes = Vec::new(alloc);
    bytes.resize(long, b'a')?;
    let left = leave(rt, alloc, "", &bytes, NONE);
    drop(bytes);
    let left = left?;
    is_left(rt, &left, wanted);
    drop(left);
    Ok(())
}

#[test]
fn most_bytes(rt: HostRuntime) -> Result<(), Fail> {
    let alloc = rt.alloc();
    let whole = Wanted {
        number: 0,
        out: b"reply 1 1\ntree: line 0: TooLong\nbatch end\n",
        err: b"",
        unread: 0,
    };
    leave_long(&rt, alloc, 4_194_304, whole)?;
    let refused = Wanted {
        number: 1,
        out: b"",
        err: b"batch: TooLong\n",
        unread: 0,
    };
    leave_long(&rt, alloc, 4_194_305, refused)?;
    let unread = 2;
    leave_long(&rt, alloc, 4_194_307, Wanted { unread, ..refused })
}

// The output is a front of the replies, so long.
fn is_front(
    rt: &impl Abort,
    alloc: Global,
    left: &Left,
    number: u8,
    long: usize,
    told: &[u8],
) -> Result<(), Fail> {
    is(rt, (left.number, left.out.len()), (number, long));
    is(rt, left.err.as_slice(), told);
    let whole = replies(alloc, "PP")?;
    assert!(rt; whole.as_slice().starts_with(left.out.as_slice()));
    Ok(())
}

fn fails<R: Abort + Threads + Wait + Sync>(
    rt: &R,
    alloc: Global,
    faults: Faults,
    number: u8,
    long: usize,
    told: &[u8],
) -> Result<(), Fail> {
    let left = leave_pieces(rt, alloc, "", &[PAIR, "%\n", PAIR], faults)?;
    let result = is_front(rt, alloc, &left, number, long, told);
    drop(left);
    result
}

// A fault of the input leaves the output unwritten; one of the output leaves a front of the replies; one of the error output changes nothing.
#[test]
fn failing_streams(rt: HostRuntime) -> Result<(), Fail> {
    let alloc = rt.alloc();
    let whole = replies(alloc, "PP")?;
    let long = whole.len();
    drop(whole);
    let rows: [(Faults, u8, usize, &[u8]); 6] = [
        (Faults { read: 1, ..NONE }, 4, 0, b"read fault\n"),
        (Faults { read: 2, ..NONE }, 4, 0, b"read fault\n"),
        (Faults { write: 1, ..NONE }, 5, 0, b"write fault\n"),
        (Faults { write: 3, ..NONE }, 5, 32, b"write fault\n"),
        (Faults { tell: 1, ..NONE }, 0, long, b""),
        (
            Faults {
                write: 1,
                tell: 1,
                ..NONE
            },
            5,
            0,
            b"",
        ),
    ];
    for (faults, number, long, told) in rows {
        fails(&rt, alloc, faults, number, long, told)?;
    }
    Ok(())
}

const STAR_OF_FOUR: &str = "c p 1\nc q 1\nc r 1\nc s 1\n";

// The output has the head of the design of this number.
fn has_design(rt: &impl Abort, alloc: Global, left: &Left, number: u64) -> Result<(), Fail> {
    let head = format!(in alloc; "reply {number} 0\nboxpleat 2\n")?;
    let head = head.as_bytes();
    assert!(rt; left.out.windows(head.len()).any(|part| part == head));
    Ok(())
}

fn has_designs(rt: &impl Abort, alloc: Global, left: &Left) -> Result<(), Fail> {
    is(rt, left.number, 0);
    for number in 1..5 {
        has_design(rt, alloc, left, number)?;
    }
    Ok(())
}

fn leave_at_gate<R: Threads + Wait + Sync>(
    rt: &R,
    alloc: Global,
    bytes: &[u8],
    gate: &HoldGate,
) -> Result<Left, Fail> {
    let shared = Mutex::new(Catalogue::open(alloc)?);
    let left = leave_with(rt, alloc, "--workers 2", bytes, NONE, &shared, gate);
    drop(shared);
    left
}

fn four_at_gate<R: Threads + Wait + Sync>(
    rt: &R,
    alloc: Global,
    gate: &HoldGate,
) -> Result<Left, Fail> {
    let pieces = [
        STAR_OF_FOUR,
        "%\n",
        STAR_OF_FOUR,
        "%\n",
        STAR_OF_FOUR,
        "%\n",
        STAR_OF_FOUR,
    ];
    let bytes = joined(alloc, &pieces)?;
    let left = leave_at_gate(rt, alloc, &bytes, gate);
    drop(bytes);
    left
}

// Each of two workers has come to its second piece before the other goes on.
#[test]
fn two_workers_meet(rt: HostRuntime) -> Result<(), Fail> {
    let alloc = rt.alloc();
    let gate = HoldGate::new();
    let left = four_at_gate(&rt, alloc, &gate)?;
    let result = has_designs(&rt, alloc, &left);
    drop(left);
    result?;
    assert!(rt; !gate.gave_up());
    Ok(())
}

// The replies to three equal pieces.
fn three_replies<R: Abort + Threads + Wait + Sync>(
    rt: &R,
    alloc: Global,
    bytes: &[u8],
    shared: &Mutex<Catalogue>,
) -> Result<(), Fail> {
    let line = "--workers 1 --budget 7";
    let left = leave_with(rt, alloc, line, bytes, NONE, shared, &OpenGate)?;
    let result = is_threefold(rt, alloc, &left);
    drop(left);
    result
}

fn is_threefold(rt: &impl Abort, alloc: Global, left: &Left) -> Result<(), Fail> {
    let wanted = replies(alloc, "PPP")?;
    is_output(rt, left, &wanted);
    Ok(())
}

fn pair_tree(alloc: Global) -> Result<Tree, Fail> {
    match read_tree(alloc, PAIR.as_bytes()) {
        Ok(tree) => Ok(tree),
        Err(_) => Err(Fail::from("no tree")),
    }
}

// Whether there is an entry for this tree and this budget.
fn has_entry(alloc: Global, catalogue: &Catalogue, tree: &Tree, budget: u64) -> Result<bool, Fail> {
    let entry = catalogue.find(alloc, tree, budget)?;
    let has = entry.is_some();
    drop(entry);
    Ok(has)
}

fn has_one_entry(
    rt: &impl Abort,
    alloc: Global,
    catalogue: &Catalogue,
    tree: &Tree,
) -> Result<(), Fail> {
    is(rt, catalogue.len(), 1);
    is(rt, has_entry(alloc, catalogue, tree, 7)?, true);
    is(rt, has_entry(alloc, catalogue, tree, 8)?, false);
    Ok(())
}

fn keeps_one<R: Abort + Wait>(
    rt: &R,
    alloc: Global,
    shared: &Mutex<Catalogue>,
) -> Result<(), Fail> {
    let tree = pair_tree(alloc)?;
    let result = has_one_entry(rt, alloc, &shared.lock(rt), &tree);
    drop(tree);
    result
}

fn three_pieces<R: Abort + Threads + Wait + Sync>(
    rt: &R,
    alloc: Global,
    shared: &Mutex<Catalogue>,
) -> Result<(), Fail> {
    let bytes = joined(alloc, &[PAIR, "%\n", PAIR, "%\n", PAIR])?;
    let result = three_replies(rt, alloc, &bytes, shared);
    drop(bytes);
    result?;
    keeps_one(rt, alloc, shared)
}

// One worker designs equal trees once. The entry is one for this tree and this budget.
#[test]
fn three_equal_pieces(rt: HostRuntime) -> Result<(), Fail> {
    let alloc = rt.alloc();
    let shared = Mutex::new(Catalogue::open(alloc)?);
    let result = three_pieces(&rt, alloc, &shared);
    drop(shared);
    result
}
