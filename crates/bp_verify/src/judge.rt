// The judge of a certificate while its lemmas come, once its head is told.
ghost use Rattle.std.specs.Prelude.{◌≡◌, ◌<◌, ◌≤◌, [], ◌∷◌, ◌++◌, List, length, IfOk};
ghost use Rattle.bp_base.specs.Limits.{most_number};
ghost use Rattle.bp_base.specs.Tree.{TreeValue, leaf_count};
ghost use Rattle.bp_certificate.specs.declared.certificate.CertificateHead.{CertificateHead as AnyHead};
ghost use Rattle.bp_certificate.specs.declared.certificate.Lemma.{Lemma as AnyLemma};
ghost use Rattle.bp_certificate.specs.Places.{certificate_of};
ghost use Rattle.bp_certificate.specs.Ranges.{IsLemma, most_lemmas};
ghost use Rattle.bp_verify.specs.declared.judge.Judge.TheVariants.{Standing as StandingJudge};
ghost use Rattle.bp_verify.specs.Judged.{Begins, HasJudged, HasRoom};
ghost use Rattle.bp_verify.specs.Verdicts.{CanSwap, IsVerdictOf};

use crate::found::Found;
use crate::judging::{reason_before_lemmas, verdict_of};
use crate::laws::law_of_verdicts;
use crate::verdict::{Reason, Verdict};
use bp_base::NoMemory;
use bp_certificate::{CertificateHead, Lemma, Plan};
use bp_metric::Metric;
use bp_replay::Replay;
use std::alloc::Global;

/// What is found of a certificate so far.
#[derive(Drop)]
pub enum Judge {
    /// There is a reason before its lemmas.
    Refused { reason: Reason },
    /// It has no lemmas.
    NoLemmas,
    /// All lemmas so far stand, so many.
    Standing { replay: Replay, count: u64 },
    /// The first lemma that doesn't stand.
    Wrong { number: u64 },
}

impl Judge {
    /// The judge before the first lemma. The metric is on the sheet of the head.
    pub fn open(alloc: Global, metric: &Metric, head: &CertificateHead) -> Result<Judge, NoMemory>
        requires each { length head.now.points ≡ leaf_count head.now.tree }
        requires sheet { head.now.sheet ≡ metric.now.sheet }
        requires bound { head.now.bound ≤ most_number }
        ensures { IfOk result (λ j. HasJudged metric.now.tree head.now [] j) }
    {
        if let Some(reason) = reason_before_lemmas(metric, head) {
            return Ok(Judge::Refused { reason });
        }
        match &head.plan {
            None => Ok(Judge::NoLemmas),
            Some(plan) => {
                let replay = begin(alloc, metric, head.bound, plan)?;
                Ok(Judge::Standing { replay, count: 0 })
            }
        }
    }

    /// Judges the next lemma.
    pub fn feed(self, lemma: &Lemma) -> Result<Judge, NoMemory>
        requires lemma { IsLemma lemma.now }
        requires room { HasRoom self }
        ensures { IfOk result (λ j. (T : TreeValue) (H : AnyHead) (ls : List AnyLemma) → HasJudged T H ls self → HasJudged T H (ls ++ lemma.now ∷ []) j) }
    {
        match self {
            Judge::Standing { replay, count } => replay_lemma(replay, count, lemma),
            judge => Ok(judge),
        }
    }

    /// The verdict of the certificate of this head and the lemmas that were judged.
    pub fn verdict(&self, head: &CertificateHead) -> Verdict
        ensures { (T : TreeValue) (ls : List AnyLemma) → HasJudged T head.now ls self.now → IsVerdictOf T (certificate_of head.now ls) result }
    {
        law_of_verdicts();
        let found = match self {
            Judge::Refused { reason } => return Verdict::No(*reason),
            Judge::NoLemmas => Found::NoLemmas,
            Judge::Standing { replay, .. } => Found::Standing {
                ends: replay.proved(),
            },
            Judge::Wrong { number } => Found::WrongLemma { number: *number },
        };
        verdict_of(head.bound, head.floor.side, found)
    }
}

// The replay of lemmas behind this plan, against which there is no reason.
fn begin(alloc: Global, metric: &Metric, bound: u64, plan: &Plan) -> Result<Replay, NoMemory>
    requires swaps { CanSwap metric.now.tree plan.now.swaps plan.now.corner }
    requires bound { bound ≤ most_number }
    ensures { IfOk result (λ r. Begins metric.now bound plan.now r) }
{
    let Some(corner) = plan.corner else {
        unreachable!()
    };
    Replay::open(alloc, metric, bound, corner, plan.swaps.as_slice())
}

// The judge behind one more lemma, where all before it stand.
fn replay_lemma(replay: Replay, count: u64, lemma: &Lemma) -> Result<Judge, NoMemory>
    requires lemma { IsLemma lemma.now }
    requires room { count < most_lemmas }
    ensures { IfOk result (λ j. (T : TreeValue) (H : AnyHead) (ls : List AnyLemma) → HasJudged T H ls (StandingJudge replay count) → HasJudged T H (ls ++ lemma.now ∷ []) j) }
{
    let mut replay = replay;
    let number = count + 1;
    if replay.feed(lemma.facts.as_slice(), lemma.hints.as_slice())? {
        Ok(Judge::Standing {
            replay,
            count: number,
        })
    } else {
        Ok(Judge::Wrong { number })
    }
}
