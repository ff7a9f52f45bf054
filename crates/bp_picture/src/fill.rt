// The fill of an edge's region.
ghost use Rattle.std.specs.Prelude.{◌≡◌, ◌<◌};
ghost use Rattle.bp_base.specs.Tree.{IsEdge, has_child};
ghost use Rattle.bp_picture.specs.Fills.{fill_of, flap_fill, river_fill};

use bp_base::Tree;

/// A colour, each part from 0 to 255.
#[derive(Clone, Copy, Debug, PartialEq, Eq)]
pub struct Fill {
    pub red: u64,
    pub green: u64,
    pub blue: u64,
}

pub fn fill_of(tree: &Tree, edge: u64) -> Fill
    requires { IsEdge tree.now edge }
    ensures { result ≡ fill_of tree.now edge }
{
    let _nodes = tree.parents();
    let shade = 25 * edge % 64;
    if has_child(tree, edge) {
        river_fill(shade)
    } else {
        flap_fill(shade)
    }
}

fn has_child(tree: &Tree, node: u64) -> bool
    ensures { result ≡ has_child tree.now node }
{
    tree.parents()[1..].contains(&node)
}

fn flap_fill(shade: u64) -> Fill
    requires { shade < 64 }
    ensures { result ≡ flap_fill shade }
{
    Fill {
        red: 255 - 8 * (shade / 16),
        green: 242 - 16 * (shade / 4 % 4),
        blue: 190 - 20 * (shade % 4),
    }
}

fn river_fill(shade: u64) -> Fill
    requires { shade < 64 }
    ensures { result ≡ river_fill shade }
{
    Fill {
        red: 140 + 18 * (shade / 16),
        green: 182 + 14 * (shade / 4 % 4),
        blue: 252 - 10 * (shade % 4),
    }
}
