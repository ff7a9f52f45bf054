ghost use Rattle.std.specs.Prelude.{◌≡◌};
ghost use Rattle.bp_mirror.specs.Mirrored.{units};

/// The line about which a design is symmetric.
#[derive(Clone, Copy, Debug, PartialEq, Eq)]
pub enum MirrorKind {
    /// The middle line between the left and the right border.
    Book,
    /// The diagonal through the origin.
    Diagonal,
}

impl MirrorKind {
    /// How many units of a design's numbers make a grid unit: a book design is told in half units, since a tip on its middle line
    /// stands at half the side.
    pub fn units(self) -> u64
        ensures { result ≡ units self }
    {
        match self {
            MirrorKind::Book => 2,
            MirrorKind::Diagonal => 1,
        }
    }
}
