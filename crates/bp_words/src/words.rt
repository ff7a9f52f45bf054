ghost use Rattle.std.specs.Prelude.{◌≡◌, ℕ, map, string_bytes, codes, MatchOption};
ghost use Rattle.std.specs.declared.option.Option.{Option};
ghost use Rattle.bp_words.specs.declared.words.MirrorKind.{MirrorKind};
ghost use Rattle.bp_words.specs.declared.words.Words.{Words};
ghost use Rattle.bp_words.specs.Words.{AreUnique, AsksFile, AsksMade, HasMirror, IsAlone, IsWords, ReadsWords, mirror_word, word_at};

use crate::options::{
    are_options, are_same, default_of, file_of, is_file, number_in, optional_of, place_of, word_at,
};
use crate::ranges::{
    LEAST_MADE, MOST_MADE, MOST_SEED, MOST_SOLVE_BUDGET, MOST_STEADY, USUAL_BUDGET, USUAL_HANDS,
    USUAL_SOLVE_BUDGET,
};
use bp_base::{MOST_BUDGET, MOST_HANDS, MOST_WIDTH};

/// The line about which a design is symmetric.
#[derive(Clone, Copy, Debug, PartialEq, Eq)]
pub enum MirrorKind {
    /// The middle line between the left and the right border.
    Book,
    /// The diagonal through the origin.
    Diagonal,
}

/// What a command line asks for. `fold` and `tree` are the places, from 0, of the words that name a file.
#[derive(Clone, Copy, Debug, PartialEq, Eq)]
pub enum Words {
    Design {
        workers: u64,
        budget: u64,
        replay: Option<u64>,
        fold: Option<u64>,
        strip: Option<u64>,
        steady: Option<u64>,
    },
    Check {
        tree: u64,
    },
    Contours,
    Made {
        leaves: u64,
        seed: u64,
    },
    Trial {
        leaves: u64,
        seed: u64,
    },
    Rewrite,
    Revise {
        tree: u64,
        budget: u64,
    },
    Pieces,
    Solve {
        budget: u64,
        strip: Option<u64>,
        fold: Option<u64>,
        mirror: Option<MirrorKind>,
    },
    Verify {
        tree: u64,
    },
    Picture,
    Help,
    Version,
}

/// Words ask for one thing at most.
pub fn one_meaning(words: &[String])
    ensures { (v w : Words) → IsWords (map string_bytes words.now) v → IsWords (map string_bytes words.now) w → v ≡ w }
{
    let _ = words;
}

/// What the words ask for. None exactly where they are not in the table of commands.
pub fn words_of(words: &[String]) -> Option<Words>
    ensures { ReadsWords (map string_bytes words.now) result }
{
    match word_at(words, 0) {
        b"design" => design_of(words),
        b"check" => check_of(words),
        b"contours" => alone(words, Words::Contours),
        b"made" => made_of(words),
        b"trial" => trial_of(words),
        b"rewrite" => alone(words, Words::Rewrite),
        b"revise" => revise_of(words),
        b"pieces" => alone(words, Words::Pieces),
        b"solve" => solve_of(words),
        b"verify" => verify_of(words),
        b"picture" => alone(words, Words::Picture),
        b"help" => alone(words, Words::Help),
        b"--help" => alone(words, Words::Help),
        b"version" => alone(words, Words::Version),
        b"--version" => alone(words, Words::Version),
        _ => None,
    }
}

fn design_of(words: &[String]) -> Option<Words>
    requires { word_at (map string_bytes words.now) 0 ≡ codes "design" }
    ensures { ReadsWords (map string_bytes words.now) result }
{
    let names: [&[u8]; 6] = [
        b"--workers",
        b"--budget",
        b"--replay",
        b"--fold",
        b"--strip",
        b"--steady",
    ];
    if !are_options(words, &names) {
        return None;
    }
    let workers = default_of(words, b"--workers", 1, MOST_HANDS, USUAL_HANDS)?;
    let budget = default_of(words, b"--budget", 1, MOST_BUDGET, USUAL_BUDGET)?;
    let replay = optional_of(words, b"--replay", 0, MOST_SEED)?;
    let fold = file_of(words, b"--fold")?;
    let strip = optional_of(words, b"--strip", 0, MOST_WIDTH)?;
    let steady = optional_of(words, b"--steady", 1, MOST_STEADY)?;
    if fold.is_some() && strip.is_some() {
        return None;
    }
    Some(Words::Design {
        workers,
        budget,
        replay,
        fold,
        strip,
        steady,
    })
}

fn check_of(words: &[String]) -> Option<Words>
    requires { word_at (map string_bytes words.now) 0 ≡ codes "check" }
    ensures { ReadsWords (map string_bytes words.now) result }
{
    let tree = only_file(words)?;
    Some(Words::Check { tree })
}

fn verify_of(words: &[String]) -> Option<Words>
    requires { word_at (map string_bytes words.now) 0 ≡ codes "verify" }
    ensures { ReadsWords (map string_bytes words.now) result }
{
    let tree = only_file(words)?;
    Some(Words::Verify { tree })
}

// The place of the tree's file, where it is all that stands behind the command.
fn only_file(words: &[String]) -> Option<u64>
    ensures { MatchOption result
        ((tree : ℕ) → AsksFile (word_at (map string_bytes words.now) 0) (map string_bytes words.now) tree → ⊥)
        (λ tree. AsksFile (word_at (map string_bytes words.now) 0) (map string_bytes words.now) tree) }
{
    if words.len() == 3 && are_same(word_at(words, 1), b"--tree") && is_file(word_at(words, 2)) {
        Some(2)
    } else {
        None
    }
}

fn solve_of(words: &[String]) -> Option<Words>
    requires { word_at (map string_bytes words.now) 0 ≡ codes "solve" }
    ensures { ReadsWords (map string_bytes words.now) result }
{
    let names: [&[u8]; 4] = [b"--budget", b"--strip", b"--fold", b"--mirror"];
    if !are_options(words, &names) {
        return None;
    }
    let budget = default_of(words, b"--budget", 1, MOST_SOLVE_BUDGET, USUAL_SOLVE_BUDGET)?;
    let strip = optional_of(words, b"--strip", 0, MOST_WIDTH)?;
    let fold = file_of(words, b"--fold")?;
    let mirror = mirror_of(words)?;
    if strip.is_some() && (fold.is_some() || mirror.is_some()) {
        return None;
    }
    Some(Words::Solve {
        budget,
        strip,
        fold,
        mirror,
    })
}

// The mirror that is asked for, where one is. None where the option's word names no mirror.
fn mirror_of(words: &[String]) -> Option<Option<MirrorKind>>
    requires { AreUnique (map string_bytes words.now) }
    ensures { MatchOption result ((o : Option MirrorKind) → HasMirror (map string_bytes words.now) o → ⊥) (λ o. HasMirror (map string_bytes words.now) o) }
{
    match place_of(words, b"--mirror") {
        Some(place) => match kind_of(word_at(words, place as usize)) {
            Some(kind) => Some(Some(kind)),
            None => None,
        },
        None => Some(None),
    }
}

fn kind_of(word: &[u8]) -> Option<MirrorKind>
    ensures { MatchOption result ((kind : MirrorKind) → word.now ≡ mirror_word kind → ⊥) (λ kind. word.now ≡ mirror_word kind) }
{
    match word {
        b"book" => Some(MirrorKind::Book),
        b"diagonal" => Some(MirrorKind::Diagonal),
        _ => None,
    }
}

fn revise_of(words: &[String]) -> Option<Words>
    requires { word_at (map string_bytes words.now) 0 ≡ codes "revise" }
    ensures { ReadsWords (map string_bytes words.now) result }
{
    let names: [&[u8]; 2] = [b"--tree", b"--budget"];
    if !are_options(words, &names) {
        return None;
    }
    let tree = file_of(words, b"--tree")??;
    let budget = default_of(words, b"--budget", 1, MOST_BUDGET, USUAL_BUDGET)?;
    Some(Words::Revise { tree, budget })
}

// The number of leaves and the seed behind `made` or `trial`.
fn leaves_and_seed(words: &[String]) -> Option<(u64, u64)>
    ensures { MatchOption result
        ((leaves seed : ℕ) → AsksMade (word_at (map string_bytes words.now) 0) (map string_bytes words.now) leaves seed → ⊥)
        (λ p. AsksMade (word_at (map string_bytes words.now) 0) (map string_bytes words.now) p.0 p.1) }
{
    if words.len() != 3 {
        return None;
    }
    let leaves = number_in(word_at(words, 1), LEAST_MADE, MOST_MADE)?;
    let seed = number_in(word_at(words, 2), 0, MOST_SEED)?;
    Some((leaves, seed))
}

fn made_of(words: &[String]) -> Option<Words>
    requires { word_at (map string_bytes words.now) 0 ≡ codes "made" }
    ensures { ReadsWords (map string_bytes words.now) result }
{
    let (leaves, seed) = leaves_and_seed(words)?;
    Some(Words::Made { leaves, seed })
}

fn trial_of(words: &[String]) -> Option<Words>
    requires { word_at (map string_bytes words.now) 0 ≡ codes "trial" }
    ensures { ReadsWords (map string_bytes words.now) result }
{
    let (leaves, seed) = leaves_and_seed(words)?;
    Some(Words::Trial { leaves, seed })
}

// A command without further words.
fn alone(words: &[String], asked: Words) -> Option<Words>
    requires { IsAlone (word_at (map string_bytes words.now) 0) asked }
    ensures { ReadsWords (map string_bytes words.now) result }
{
    if words.len() == 1 { Some(asked) } else { None }
}
