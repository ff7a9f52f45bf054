use bp_words::{MirrorKind, Words, one_meaning, words_of};
use std::alloc::Global;
use std::test::Fail;

// The words of a line, one blank apart: a blank at its end leaves an empty word.
fn split(alloc: Global, line: &str) -> Result<Vec<String>, Fail> {
    let mut words = Vec::new(alloc);
    for word in line.split(' ') {
        words.push(String::from_str(alloc, word)?)?;
    }
    Ok(words)
}

const DESIGN: Words = Words::Design {
    workers: 4,
    budget: 50_000,
    replay: None,
    fold: None,
    strip: None,
    steady: None,
};

const STRIP: Words = Words::Design {
    workers: 16,
    budget: 200_000,
    replay: Some(4_294_967_295),
    fold: None,
    strip: Some(999_999),
    steady: Some(10_000_000),
};

const FOLD: Words = Words::Design {
    workers: 1,
    budget: 1,
    replay: Some(0),
    fold: Some(4),
    strip: None,
    steady: Some(1),
};

const SOLVE: Words = Words::Solve {
    budget: 100_000,
    strip: None,
    fold: None,
    mirror: None,
};

const SOLVE_STRIP: Words = Words::Solve {
    budget: 1_000_000,
    strip: Some(0),
    fold: None,
    mirror: None,
};

const SOLVE_BOOK: Words = Words::Solve {
    budget: 1,
    strip: None,
    fold: Some(4),
    mirror: Some(MirrorKind::Book),
};

const SOLVE_DIAGONAL: Words = Words::Solve {
    budget: 100_000,
    strip: None,
    fold: None,
    mirror: Some(MirrorKind::Diagonal),
};

#[test]
fn words_in_the_table(rt: HostRuntime) -> Result<(), Fail> {
    let rows = [
        ("design", DESIGN),
        (
            "design --workers 16 --budget 200000 --replay 4294967295 --strip 999999 --steady 10000000",
            STRIP,
        ),
        (
            "design --steady 1 --fold out.fold --replay 0 --budget 1 --workers 1",
            FOLD,
        ),
        ("check --tree t", Words::Check { tree: 2 }),
        ("contours", Words::Contours),
        ("rewrite", Words::Rewrite),
        ("pieces", Words::Pieces),
        ("made 2 0", Words::Made { leaves: 2, seed: 0 }),
        (
            "made 16 4294967295",
            Words::Made {
                leaves: 16,
                seed: 4_294_967_295,
            },
        ),
        (
            "trial 16 5",
            Words::Trial {
                leaves: 16,
                seed: 5,
            },
        ),
        (
            "revise --tree t",
            Words::Revise {
                tree: 2,
                budget: 50_000,
            },
        ),
        (
            "revise --tree t --budget 7",
            Words::Revise { tree: 2, budget: 7 },
        ),
        (
            "revise --budget 7 --tree t",
            Words::Revise { tree: 4, budget: 7 },
        ),
        ("solve", SOLVE),
        ("solve --strip 0 --budget 1000000", SOLVE_STRIP),
        ("solve --mirror book --fold FILE --budget 1", SOLVE_BOOK),
        ("solve --mirror diagonal", SOLVE_DIAGONAL),
        ("verify --tree t", Words::Verify { tree: 2 }),
        ("picture", Words::Picture),
        ("help", Words::Help),
        ("--help", Words::Help),
        ("version", Words::Version),
        ("--version", Words::Version),
    ];
    for (line, want) in rows {
        let words = split(rt.alloc(), line)?;
        one_meaning(&words);
        assert_eq!(rt; words_of(&words), Some(want), "{line}");
    }
    Ok(())
}

#[test]
fn refused_words(rt: HostRuntime) -> Result<(), Fail> {
    let rows = [
        "design --workers 0",
        "design --budget 5 --budget 5",
        "design --workers=4",
        "design --steady 0",
        "design --steady 10000001",
        "design --strip 4 --fold FILE",
        "check",
        "made 17 1",
        "",
        " design",
        "Design",
        "designs",
        "design 4",
        "design --",
        "design --work 4",
        "design --workers",
        "design --workers 17",
        "design --workers 01",
        "design --workers +1",
        "design --workers 4 5",
        "design --budget 0",
        "design --budget 200001",
        "design --budget 5 --replay 1 --budget 6",
        "design --replay 4294967296",
        "design --replay 10000000000",
        "design --replay --fold",
        "design --fold FILE --strip 4",
        "design --fold ",
        "design --fold -x",
        "design --strip 1000000",
        "design --tree FILE",
        "check FILE --tree",
        "check --tree",
        "check --tree ",
        "check --tree -x",
        "check --tree FILE --budget 5",
        "contours FILE",
        "rewrite ",
        "pieces pieces",
        "made",
        "made 3",
        "made 1 1",
        "made 3 1 1",
        "made 03 1",
        "made 3 4294967296",
        "trial 17 1",
        "trial 3 ",
        "revise",
        "revise --budget 7",
        "revise --tree FILE --tree FILE",
        "revise --tree -x",
        "revise --tree FILE --budget 0",
        "revise --tree FILE --workers 4",
        "solve --budget 0",
        "solve --budget 1000001",
        "solve --workers 4",
        "solve --mirror",
        "solve --mirror Book",
        "solve --mirror book --mirror book",
        "solve --strip 4 --fold FILE",
        "solve --mirror book --strip 4",
        "verify",
        "verify --tree -x",
        "verify --tree FILE --budget 5",
        "picture FILE",
        "help design",
        "-help",
        "--help --help",
        "version 1",
    ];
    for line in rows {
        let words = split(rt.alloc(), line)?;
        assert_eq!(rt; words_of(&words), None, "{line}");
    }
    assert_eq!(rt; words_of(&[]), None);
    Ok(())
}
