// Lists beside a row that is raised.
ghost use Rattle.std.specs.Prelude.{◌≡◌, ◌<◌, ◌+◌, length, slice_index, slice_set, replicate, IfOk};
ghost use Rattle.bp_walks.specs.Lows.{places};

use bp_base::NoMemory;
use std::alloc::Global;
use std::marker::Model;

// Which leaf raised each leaf, and which leaves were moved.
#[derive(Drop)]
pub struct Work {
    by: Vec<u64>,
    moved: Vec<u64>,
    count: usize,
}

impl Model for Work {
    ghost use Rattle.std.specs.Prelude.{◌≡◌, length};
    ghost use Rattle.bp_warm.specs.Raising.{WorkValue};
    ghost use Rattle.bp_walks.specs.Lows.{places};

    ghost Value = { WorkValue };

    ghost view = { λ w. record { by = w.by.items; moved = w.moved.items; count = w.count } };

    ghost invariant = { λ w. (length w.by.items ≡ places) × (length w.moved.items ≡ places) };
}

impl Work {
    pub fn open(alloc: Global) -> Result<Work, NoMemory>
        ensures each { IfOk result (λ w. length w.by ≡ places) }
        ensures each_moved { IfOk result (λ w. length w.moved ≡ places) }
    {
        let by = Vec::from_slice(alloc, &[0; 33])?;
        let moved = Vec::from_slice(alloc, &[0; 33])?;
        Ok(Work {
            by,
            moved,
            count: 0,
        })
    }

    // Begins with one moved leaf.
    pub fn begin(&mut self, leaf: u64)
        ensures value { self.new ≡ record { by = self.old.by; moved = slice_set self.old.moved 0 leaf; count = 1 } }
        ensures each { (length self.old.by ≡ places) × (length self.old.moved ≡ places) }
    {
        self.moved[0] = leaf;
        self.count = 1;
    }

    pub fn count(&self) -> usize
        ensures { result ≡ self.now.count }
    {
        self.count
    }

    pub fn moved(&self, at: usize) -> u64
        requires { at < places }
        ensures { result ≡ slice_index self.now.moved at }
    {
        self.moved[at]
    }

    // The leaf that raised this one.
    pub fn by(&self, leaf: u64) -> u64
        requires { leaf < places }
        ensures { result ≡ slice_index self.now.by leaf }
    {
        self.by[leaf as usize]
    }

    // The leaf was raised by another one.
    pub fn set_by(&mut self, leaf: u64, by: u64)
        requires { leaf < places }
        ensures { self.new ≡ record { by = slice_set self.old.by leaf by; moved = self.old.moved; count = self.old.count } }
    {
        self.by[leaf as usize] = by;
    }

    // One more leaf was moved.
    pub fn add(&mut self, leaf: u64)
        requires { self.old.count < places }
        ensures { self.new ≡ record { by = self.old.by; moved = slice_set self.old.moved self.old.count leaf; count = self.old.count + 1 } }
    {
        self.moved[self.count] = leaf;
        self.count += 1;
    }
}
