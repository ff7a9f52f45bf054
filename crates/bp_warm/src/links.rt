// Rows of leaf numbers with room for all that a path can bring.
ghost use Rattle.std.specs.Prelude.{◌≡◌, ◌<◌, ◌≤◌, ◌-◌, [], ◌∷◌, ◌++◌, length, replicate, take, slice_index_or, slice_set, IfOk};

use bp_base::NoMemory;
use std::alloc::Global;
use std::marker::Model;

#[derive(Drop)]
pub struct Links {
    rows: Vec<Vec<u64>>,
    room: usize,
}

impl Model for Links {
    ghost use Rattle.std.specs.Prelude.{◌≡◌, ◌≤◌, length, map, All, List, ℕ};
    ghost use Rattle.std.specs.Vec.{vec_capacity};
    ghost use Rattle.bp_warm.specs.Links.{LinksValue};

    ghost Value = { LinksValue };

    ghost view = { λ l. record { room = l.room; rows = map (λ v. v.items) l.rows.items } };

    ghost invariant = { λ l. (length l.rows.items ≡ 33) × All (λ v. l.room ≤ vec_capacity v) l.rows.items };
}

impl Links {
    // Empty rows.
    pub fn open(alloc: Global, room: usize) -> Result<Links, NoMemory>
        ensures { IfOk result (λ l. l ≡ record { room = room; rows = replicate 33 [] }) }
    {
        let mut rows = Vec::with_capacity(alloc, 33)?;
        for _ in 0..33u64 {
            let row: Vec<u64> = Vec::with_capacity(alloc, room)?;
            rows.push(row)?;
        }
        Ok(Links { rows, room })
    }

    pub fn row(&self, at: u64) -> &[u64]
        requires { at < 33 }
        ensures value { result.now ≡ slice_index_or self.now.rows at [] }
    {
        self.rows[at as usize].as_slice()
    }

    // Adds a leaf at the end of a row.
    pub fn add(&mut self, at: u64, leaf: u64)
        requires at { at < 33 }
        requires room { length (slice_index_or self.old.rows at []) < self.old.room }
        ensures { self.new ≡ record { room = self.old.room; rows = slice_set self.old.rows at (slice_index_or self.old.rows at [] ++ leaf ∷ []) } }
    {
        match self.rows[at as usize].push(leaf) {
            Ok(()) => {}
            Err(_) => unreachable!(),
        }
    }

    // Takes the last leaf of a row off.
    pub fn remove(&mut self, at: u64)
        requires { at < 33 }
        ensures { self.new ≡ record { room = self.old.room; rows = slice_set self.old.rows at (take (length (slice_index_or self.old.rows at []) - 1) (slice_index_or self.old.rows at [])) } }
    {
        let _last = self.rows[at as usize].pop();
    }
}
