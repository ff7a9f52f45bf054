// `verify`: a tree, and behind it a certificate. The certificates are another program's.
use super::checks::{cut, failing, judge};
use super::{Faults, NONE, leave};
use std::test::Fail;

const VERIFY: &str = "verify --tree f";

const STAR_TREE: &str = "c p1 2\nc p2 2\nc p3 2\nc p4 1\nc p5 1\n";

pub const STAR: &str =
    "boxpleat 3\nsheet square\nmirror none\nedges 5\nedge c p1 2\nedge c p2 2\nedge c p3 2\nedge c p4 1\nedge c p5 1\nside 5\nbound 5\npoint p1 3 4\npoint p2 4 0\npoint p3 0 0\npoint p4 0 3\npoint p5 0 5\nfloor 2 4 1 2 3 4 5\nlemmas 13\ncorner 4 5\nswaps 2\nswap 1 2\nswap 2 3\nno x5<2 by 4-5\nno x4>=3 by 4-5\nno !y1<<y4 x2<3 !y4<<y2 by 1-2 2-4 1-4 2-4 1-4\nno y2<<y1 by 1-2 1-2 3 2-3 2-3 2-5 2-3 2-5 3-5 3-5\nno x2<3 by 1-2 1-2 1-2 1-2 2-4 1-4 2-4 1-4\nno x3<3 by 2-3\nno y2<3 by 2-3 2-5 2-3 2-5 3-5 3-5\nno !y3<<y2 by 2-3\nno !y5<<y2 by 2-5\nno y3>=1 by 2-3\nno y5>=2 by 2-5\nno !y3<<y5 by 3-5\nno by 3-5\nend\n";

const OCTOPUS_TREE: &str =
    "head crown 2\ncrown mantle 6\ncrown eye_l 1\ncrown eye_r 1\nhead arm1_l 10\nhead arm1_r 10\nhead arm2_l 10\nhead arm2_r 10\nhead arm3_l 10\nhead arm3_r 10\nhead arm4_l 10\nhead arm4_r 10\n";

const OCTOPUS: &str =
    "boxpleat 3\nsheet square\nmirror none\nedges 12\nedge head crown 2\nedge crown mantle 6\nedge crown eye_l 1\nedge crown eye_r 1\nedge head arm1_l 10\nedge head arm1_r 10\nedge head arm2_l 10\nedge head arm2_r 10\nedge head arm3_l 10\nedge head arm3_r 10\nedge head arm4_l 10\nedge head arm4_r 10\nside 40\nbound 40\npoint mantle 0 18\npoint eye_l 0 25\npoint eye_r 2 25\npoint arm1_l 40 0\npoint arm1_r 20 0\npoint arm2_l 18 20\npoint arm2_r 20 40\npoint arm3_l 40 40\npoint arm3_r 0 40\npoint arm4_l 0 0\npoint arm4_r 38 20\nfloor 18 36 1 4 5 6 7 8 9 10 11\nlemmas 13\ncorner 1 2\nswaps 7\nswap 4 5\nswap 5 6\nswap 6 7\nswap 7 8\nswap 8 9\nswap 9 10\nswap 10 11\nno y5<<y4 y5>=18 !x5<<x6 !x4<<x6 !x6<<x4 by 4-5 4-5 4-6 5-6 4-6 5-6\nno y5>=18 y4>=18 x6<20 by 5-6 4-5 1 4-5 4-5 4-5 5-6 4-6 5-6 4-6\nno y6<<y7 !x6<<x8 !x7<<x8 !x8<<x6 by 6-7 6-7 7-8 6-8 7-8 6-8\nno x6>=20 by 6-7 7-8 3 6-7 6-7 6-7 6-8 7-8 6-8 7-8\nno x5>=20 by 5-6\nno x4>=20 by 4-5\nno y6<20 by 4-6 5-6 4-6 5-6 2\nno !y4<<y6 by 4-6\nno !y5<<y6 by 5-6\nno y4>=20 by 4-6\nno y5>=20 by 5-6\nno !y4<<y5 by 4-5\nno by 4-5\nend\n";

const TURTLE_TREE: &str =
    "shell front 2\nfront neck 2\nneck beak 2\nneck eye_l 1\nneck eye_r 1\nfront flipper_l 8\nfront flipper_r 8\nshell rear 3\nrear hind_l 4\nrear hind_r 4\nrear tail 2\nshell scute_l 3\nshell scute_r 3\n";

const TURTLE: &str =
    "boxpleat 3\nsheet square\nmirror none\nedges 13\nedge shell front 2\nedge front neck 2\nedge neck beak 2\nedge neck eye_l 1\nedge neck eye_r 1\nedge front flipper_l 8\nedge front flipper_r 8\nedge shell rear 3\nedge rear hind_l 4\nedge rear hind_r 4\nedge rear tail 2\nedge shell scute_l 3\nedge shell scute_r 3\nside 23\nbound 23\npoint beak 11 22\npoint eye_l 18 11\npoint eye_r 20 11\npoint flipper_l 23 22\npoint flipper_r 17 0\npoint hind_l 0 8\npoint hind_r 0 0\npoint tail 0 14\npoint scute_l 0 22\npoint scute_r 10 13\nfloor 9 18 1 4 5 6 9\nlemmas 23\ncorner 1 8\nswaps 4\nswap 2 3\nswap 4 5\nswap 6 7\nswap 9 10\nno x8<11 by 1-8\nno x1>=12 by 1-8\nno !y5<<y6 y6>=6 !x6<<x4 !x5<<x6 !y4<<y6 by 4-6 5-6 4-6 5-6\nno !y5<<y10 !y4<<y10 !x10<<x4 !x5<<x10 y10>=10 by 4-10 5-10 4-10 5-10\nno y5>=10 !y4<<y10 !y6<<y1 !y4<<y9 !y4<<y6 !y4<<y5 by 4-5 4-5 4-5 5-8 5-8 1-8 3 1-6 1-6 6-7 5-7 5-7 6-7 6-7 1-6 4 6-10 6-10 9-10 1-10 1-9 4-9 1-10 1-9 4-9 9-10 9-10\nno !y5<<y6 !y6<<y5 !x6<<x4 !x5<<x6 !y6<<y1 !y4<<y6 by 5-6 3 5-6 1-6 1-6\nno y1<<y4 by 1-4 1-4 5 1-5 1-5 5-8 5-8 4-8 4-8 6 5-6 4-6 4-6 6-7 6-7 5-7 6-7 5-7\nno y10<13 !y10<<y5 !x5<<x10 !y10<<y4 !x10<<x4 by 4-10 5-10 4-10 5-10\nno !x1<<x9 !x9<<x10 y1>=8 y9<17 !x1<<x10 y10>=11 !x10<<x1 !x9<<x1 y9>=8 by 1-9 9-10 1-9 9-10 1-10 1-10\nno !x6<<x5 !x7<<x5 !x5<<x6 !x6<<x4 !x5<<x7 y6>=6 by 5-6 5-6 5-6 5-7 5-7 6-7 6-7 4-6 4-6 4-5 4-5 4-5 1-4 1-4 1-6 1-6 1-6 8 6-10 6-10 9-10 4-9 4-9 9 1-9 9-10 1-9 9-10 1-10 1-10\nno !x5<<x6 x6>=6 !x5<<x7 by 6-7 10 5-6 5-6 5-7 5-7 6-7 6-7 4-6 4-6 1-4 4-5 1-4 4-5\nno !x4<<x8 !x4<<x5 y4<15 !x5<<x8 by 4-5 4-8 4-5 4-8 5-8 5-8\nno x4>=8 by 4-5 12 4-5 4-8 4-5 4-8 5-8 5-8\nno !y4<<y1 by 1-4\nno y1<12 by 1-4\nno y4>=11 by 1-4\nno x6>=6 x5>=6 by 11\nno x5<12 by 1-5 4-5 1-5 4-5\nno x6>=6 by 17\nno !y6<<y1 by 1-6\nno !y4<<y6 by 4-6\nno y6>=10 by 1-6\nno by 4-6\nend\n";

const BEETLE_TREE: &str =
    "thorax front 3\nfront antenna_l 4\nfront antenna_r 4\nfront head 2\nthorax leg1 6\nthorax leg2 6\nthorax leg3 6\nthorax leg4 6\nthorax leg5 6\nthorax leg6 6\nthorax abdomen 5\n";

pub const BEETLE: &str =
    "boxpleat 3\nsheet square\nmirror none\nedges 11\nedge thorax front 3\nedge front antenna_l 4\nedge front antenna_r 4\nedge front head 2\nedge thorax leg1 6\nedge thorax leg2 6\nedge thorax leg3 6\nedge thorax leg4 6\nedge thorax leg5 6\nedge thorax leg6 6\nedge thorax abdomen 5\nside 25\nbound 25\npoint antenna_l 25 0\npoint antenna_r 13 0\npoint head 19 0\npoint leg1 12 13\npoint leg2 11 25\npoint leg3 0 12\npoint leg4 24 13\npoint leg5 23 25\npoint leg6 0 0\npoint abdomen 0 23\nfloor 12 24 1 4 5 6 7 8 9\nlemmas 39\ncorner 3 10\nswaps 6\nswap 1 2\nswap 4 5\nswap 5 6\nswap 6 7\nswap 7 8\nswap 8 9\nno y8<<y6 !x7<<x8 y7<<y6 y6<24 by 6-7 6-8 7-8 7-8\nno y9<24 y7>=12 !x7<<x8 y7<24 !x8<<x9 !x9<<x7 !x7<<x9 y8<24 by 7-8 7-9 7-8 7-9 8-9 8-9\nno x5>=1 !y5<<y6 y6>=13 by 5-6 5-6 6-7 6-7 7-8 6-7 8-9 6-8 6-9 6-8 6-9 2 7-8 7-9 7-8 7-9 8-9 8-9\nno y9<<y8 !x6<<x9 y8<24 !x9<<x6 y6<<y8 by 6-8 8-9 6-9 6-9\nno !x8<<x9 y9<24 y6<<y7 y8>=12 y7>=12 !x9<<x7 !x9<<x6 y6<<y8 !x7<<x9 !x7<<x8 !x6<<x9 by 7-9 8-9 4 7-8 7-8 6-7 7-9 6-9 6-9\nno !x8<<x9 !x7<<x9 y7>=12 !x9<<x7 !x9<<x6 y6<<y7 !x8<<x6 y8>=12 !x7<<x8 !x6<<x9 !x6<<x8 y6<24 by 6-8 5 7-9 8-9 7-9 8-9 7-8 7-8\nno !x6<<x9 !x8<<x9 y7>=12 y6<24 !x8<<x6 !x9<<x6 !x7<<x8 !x7<<x9 !x6<<x8 !x6<<x7 !x9<<x7 by 6-7 6 6-8 8-9 6-8 8-9 6-7 6-9 7-9 6-9 7-9\nno !x6<<x1 y6<13 !y6<<y1 by 1-6 1-6 6-7 7-8 8-9 7 6-7 7-9 6-7 1 6-8 7-9 6-8 6-9 8-9 6-9 8-9\nno y5>=13 !y4<<y5 y6>=13 by 4-5 4-5 3\nno y1<<y4 !x5<<x1 !x6<<x1 by 1-4 1-4 8 9 1-5 1-5 5-6 6-7 6-7 7-8 6-7 8-9 6-8 6-9 6-8 6-9 2 5-7 7-8 5-7 7-8 5-8 5-8\nno y7>=12 x6>=13 by 6-7 7-8 8-9 7 6-7 6-8 6-9 6-7 6-8 6-9 2\nno !x4<<x1 !x5<<x1 x6<13 !x6<<x1 by 10 5-6 4-5 1-4 1-4 1-4 1-5 1-6 1-5 1-6 4-5 5-6 4-5 5-6\nno x1<13 by 12 6-7 11 7-8 6-7 7-8 8-9 6-7 7-8 7-9 7-9 8 6-8 6-9 6-8 6-9 8-9 8-9\nno !x8<<x9 y1<<y8 !x9<<x1 by 1-8 1-8 8-9 1-9 8-9 1-9\nno x8>=13 by 8-9 14 1-8 1-8 1-8 1-9 8-9 1-9 8-9\nno !y8<<y1 !y7<<y1 x7>=12 by 7-8 1-7 1-8 1-7 1-8 7-8 7-8\nno y7>=1 !y6<<y5 !y6<<y7 x7<12 !y6<<y4 by 6-7 6-7 5-6 5-6 6-7 4-5 5-6 4-6 5-7 4-6 5-7 4-7 4-5 4-7 4-5\nno x7>=12 !y7<<y1 by 1-7 16 1-7 1-8\nno y7>=1 y6>=13 x7<12 by 17\nno y5<24 y4<24 y5>=12 y6<24 !x6<<x4 !x4<<x5 !x5<<x6 !x4<<x6 by 4-5 5-6 4-5 5-6 4-6 4-6\nno y7>=13 !x4<<x7 !x7<<x4 !x6<<x4 !x7<<x5 !x4<<x5 !x5<<x6 !x4<<x6 !x5<<x7 y6<24 by 4-7 5-7 4-7 5-7 20 4-5 5-6 4-5 5-6 4-6 4-6\nno y7>=12 by 18 6-7 5-6 4-5 19 6-7 21 6-7 4-6 5-6 4-6 5-6 4-7 5-7 4-7 5-7 4-5 4-5\nno x7>=12 by 7-8 1-7 7-8 1-7 7-8 1-8 1-8\nno x6>=12 by 6-7\nno !y7<<y6 by 6-7\nno x5>=12 by 5-6\nno y6<12 by 6-7\nno x4>=12 by 4-5\nno !y7<<y5 by 5-7\nno !y7<<y4 by 4-7\nno y5<12 by 5-7\nno y4<12 by 4-7\nno y6>=13 by 4-6 5-6 4-6 5-6 4-5 4-5\nno !y6<<y4 by 4-6\nno !y6<<y5 by 5-6\nno y4<24 by 4-6\nno y5<24 by 5-6\nno !y5<<y4 by 4-5\nno by 4-5\nend\n";

#[test]
fn whole_certificates(rt: HostRuntime) -> Result<(), Fail> {
    let rows = [(STAR_TREE, "", "", 0, "yes side 5 bound 5\n", "")];
    judge(&rt, rt.alloc(), VERIFY, STAR, &rows)?;
    let rows = [(OCTOPUS_TREE, "", "", 0, "yes side 40 bound 40\n", "")];
    judge(&rt, rt.alloc(), VERIFY, OCTOPUS, &rows)?;
    let rows = [(TURTLE_TREE, "", "", 0, "yes side 23 bound 23\n", "")];
    judge(&rt, rt.alloc(), VERIFY, TURTLE, &rows)?;
    let rows = [(BEETLE_TREE, "", "", 0, "yes side 25 bound 25\n", "")];
    judge(&rt, rt.alloc(), VERIFY, BEETLE, &rows)
}

#[test]
fn one_change(rt: HostRuntime) -> Result<(), Fail> {
    let rows = [
        (STAR_TREE, "bound 5", "bound 6", 7, "no BadLemma 2\n", ""),
        ("c p 1\nc q 1\n", "", "", 7, "no TreeDiffers\n", ""),
        (STAR_TREE, "p5 0 5", "p5 0 6", 7, "no Outside 5\n", ""),
        (STAR_TREE, "p5 0 5", "p5 0 4", 7, "no TooNear 4 5\n", ""),
        (STAR_TREE, "floor 2 4", "floor 2 5", 7, "no BadFloor\n", ""),
        (
            STAR_TREE,
            "corner 4 5",
            "corner none",
            7,
            "no BadCorner\n",
            "",
        ),
        (STAR_TREE, "swap 2 3", "swap 2 4", 7, "no BadSwap 2\n", ""),
        (
            STAR_TREE,
            "no by",
            "no x1>=1 by",
            7,
            "no BoundNotShown\n",
            "",
        ),
        (
            STAR_TREE,
            "boxpleat 3",
            "boxpleat 2",
            1,
            "",
            "document: line 1: BadForm\n",
        ),
        (
            STAR_TREE,
            "mirror none",
            "mirror book",
            1,
            "",
            "document: line 3: BadForm\n",
        ),
        (
            STAR_TREE,
            "lemmas 13",
            "lemmas 14",
            1,
            "",
            "document: line 36: BadForm\n",
        ),
        (
            STAR_TREE,
            "end\n",
            "end\nx",
            1,
            "",
            "document: line 37: Trailing\n",
        ),
        ("c p1 0\n", "", "", 1, "", "tree: line 1: BadLength\n"),
    ];
    judge(&rt, rt.alloc(), VERIFY, STAR, &rows)
}

// A certificate is no document of other commands but those that draw.
#[test]
fn elsewhere(rt: HostRuntime) -> Result<(), Fail> {
    let lines = ["check --tree f", "rewrite"];
    for line in lines {
        let left = leave(
            &rt,
            rt.alloc(),
            line,
            STAR_TREE.as_bytes(),
            STAR.as_bytes(),
            NONE,
        )?;
        assert_eq!(rt; left.number, 1);
        assert_eq!(rt; left.out.len(), 0);
        assert_eq!(rt;
            left.err.as_slice(),
            b"document: line 1: BadForm\n".as_slice()
        );
    }
    Ok(())
}

// The tree is read in one call, and the certificate, seven bytes a call; each has one more for its end.
#[test]
fn faults_at_each_call(rt: HostRuntime) -> Result<(), Fail> {
    let alloc = rt.alloc();
    let mut trees = Vec::new(alloc);
    let mut certificates = Vec::new(alloc);
    for call in 1..90 {
        trees.push(Faults { read: call, ..NONE })?;
        certificates.push(Faults { doc: call, ..NONE })?;
    }
    assert_eq!(rt; failing(&rt, alloc, VERIFY, STAR_TREE, STAR, &trees)?, 2);
    let calls = STAR.len() as u64 / 7 + 2;
    assert_eq!(rt;
        failing(&rt, alloc, VERIFY, STAR_TREE, STAR, &certificates)?,
        calls
    );
    let write = Faults { write: 1, ..NONE };
    let left = leave(
        &rt,
        alloc,
        VERIFY,
        STAR_TREE.as_bytes(),
        STAR.as_bytes(),
        write,
    )?;
    assert_eq!(rt; left.number, 5);
    assert_eq!(rt; left.out.len(), 0);
    Ok(())
}

#[test]
fn cut_at_each_byte(rt: HostRuntime) -> Result<(), Fail> {
    let lines = cut(&rt, rt.alloc(), VERIFY, STAR_TREE, STAR.as_bytes())?;
    assert_eq!(rt; lines, 36);
    Ok(())
}
