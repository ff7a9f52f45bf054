// A fact in eight bytes.
ghost use Rattle.std.specs.Prelude.{◌≡◌, ◌<◌, ◌^◌};
ghost use Rattle.bp_replay.specs.Stored.{IsSmall, fact_of};

use bp_arrangement::Fact;
use bp_base::Axis;

#[derive(Clone, Copy)]
pub enum Kind {
    Before,
    NotBefore,
    Least,
    Below,
}

#[derive(Clone, Copy)]
pub struct Packed {
    pub kind: Kind,
    pub axis: Axis,
    pub first: u8,
    // of a bound 0, and of an order the code is 0
    pub second: u8,
    pub code: u32,
}

#[tactic(auto, unfolding(crate::specs::Stored::fact_of))]
pub fn pack(fact: Fact) -> Packed
    requires { IsSmall fact }
    ensures { fact_of result ≡ fact }
{
    match fact {
        Fact::Before {
            axis,
            first,
            second,
        } => order(Kind::Before, axis, first, second),
        Fact::NotBefore {
            axis,
            first,
            second,
        } => order(Kind::NotBefore, axis, first, second),
        Fact::Least { axis, leaf, code } => bound(Kind::Least, axis, leaf, code),
        Fact::Below { axis, leaf, code } => bound(Kind::Below, axis, leaf, code),
    }
}

pub fn order(kind: Kind, axis: Axis, first: u64, second: u64) -> Packed
    requires first { first < 2 ^ 8 }
    requires second { second < 2 ^ 8 }
    ensures { result ≡ record { kind = kind; axis = axis; first = first; second = second; code = 0 } }
{
    Packed {
        kind,
        axis,
        first: first as u8,
        second: second as u8,
        code: 0,
    }
}

fn bound(kind: Kind, axis: Axis, leaf: u64, code: u64) -> Packed
    requires leaf { leaf < 2 ^ 8 }
    requires code { code < 2 ^ 32 }
    ensures { result ≡ record { kind = kind; axis = axis; first = leaf; second = 0; code = code } }
{
    Packed {
        kind,
        axis,
        first: leaf as u8,
        second: 0,
        code: code as u32,
    }
}

#[inline]
#[tactic(auto, unfolding(crate::specs::Stored::fact_of))]
pub fn unpacked(packed: Packed) -> Fact
    ensures { result ≡ fact_of packed }
{
    let axis = packed.axis;
    let first = u64::from(packed.first);
    let second = u64::from(packed.second);
    let code = u64::from(packed.code);
    match packed.kind {
        Kind::Before => Fact::Before {
            axis,
            first,
            second,
        },
        Kind::NotBefore => Fact::NotBefore {
            axis,
            first,
            second,
        },
        Kind::Least => Fact::Least {
            axis,
            leaf: first,
            code,
        },
        Kind::Below => Fact::Below {
            axis,
            leaf: first,
            code,
        },
    }
}
