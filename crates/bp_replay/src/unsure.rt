// The facts of a list that aren't sure, as far as a hint asks.
ghost use Rattle.std.specs.Prelude.{◌≡◌, List, [], ◌∷◌, ◌++◌, if◌then◌else◌};
ghost use Rattle.bp_arrangement.specs.declared.fact.Fact.{Fact as AnyFact};
ghost use Rattle.bp_arrangement.specs.Facts.{denial};
ghost use Rattle.bp_lemmas.specs.Standing.{IsNamed};
ghost use Rattle.bp_lemmas.specs.Systems.{Order, System};
ghost use Rattle.bp_replay.specs.Tasks.{Task, system_of};

use bp_arrangement::Fact;
use bp_base::Axis;

#[derive(Clone, Copy)]
pub enum Unsure {
    Nothing,
    Single { fact: Fact },
    More,
}

impl Unsure {
    ghost use Rattle.bp_replay.specs.Kept.{IsLeft, IsNamedOne};

    // With a fact more, where it isn't sure.
    #[inline]
    pub fn counted(self, sure: bool, fact: Fact) -> Unsure
        ensures left { (facts : List AnyFact) → IsLeft self facts → IsLeft result (if sure then facts else facts ++ (fact ∷ [])) }
        ensures named { (t : Task) → IsNamed (system_of t) fact → IsNamedOne t self → IsNamedOne t result }
    {
        if sure {
            return self;
        }
        match self {
            Unsure::Nothing => Unsure::Single { fact },
            Unsure::Single { fact: _ } => Unsure::More,
            Unsure::More => Unsure::More,
        }
    }
}

// The orders between two leaves that may hold, as far as a hint asks.
#[derive(Clone, Copy)]
pub enum Open {
    None,
    One { axis: Axis, first: u64, second: u64 },
    Several,
}

impl Open {
    ghost use Rattle.bp_replay.specs.Kept.{AreOpen, AreTwoLeaves, NamesTwo};
    ghost use Rattle.bp_base.specs.Tree.{TreeValue};

    // With an order before them, where it may hold and isn't one of them.
    #[inline]
    pub fn with(self, out: bool, axis: Axis, first: u64, second: u64) -> Open
        ensures named { (T : TreeValue) → AreTwoLeaves T first second → NamesTwo T self → NamesTwo T result }
        ensures open { (S : System) (orders : List Order) → AreOpen S self orders → AreOpen S result (if out then orders else S.order axis first second ∷ orders) }
    {
        if out {
            return self;
        }
        match self {
            Open::None => Open::One {
                axis,
                first,
                second,
            },
            Open::One { .. } => Open::Several,
            Open::Several => Open::Several,
        }
    }
}

#[inline]
pub fn denied(fact: Fact) -> Fact
    ensures value { result ≡ denial fact }
    ensures named { (t : Task) → IsNamed (system_of t) fact → IsNamed (system_of t) result }
{
    match fact {
        Fact::Before {
            axis,
            first,
            second,
        } => Fact::NotBefore {
            axis,
            first,
            second,
        },
        Fact::NotBefore {
            axis,
            first,
            second,
        } => Fact::Before {
            axis,
            first,
            second,
        },
        Fact::Least { axis, leaf, code } => Fact::Below { axis, leaf, code },
        Fact::Below { axis, leaf, code } => Fact::Least { axis, leaf, code },
    }
}
