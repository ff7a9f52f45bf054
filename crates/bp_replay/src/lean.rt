// An order that holds for good.
#[derive(Clone, Copy)]
pub struct Lean {
    pub earlier: usize,
    pub later: usize,
}
