ghost use Rattle.std.specs.Prelude.{◌≡◌, ℕ, [], ◌∷◌, ◌++◌, All, Any, Ok, None, Some, length, slice_get, IfOk, MatchOption, MatchResult, OnErr};
ghost use Rattle.bp_base.specs.declared.point.Sheet.TheVariants.{Square as square};
ghost use Rattle.bp_check.specs.Checks.{Checks};
ghost use Rattle.bp_catalogue.specs.declared.entry.Entry.{Entry as AnyEntry};
ghost use Rattle.bp_catalogue.specs.Entries.{AddsExactly, FindsExactly, IsOf, IsRight};

use crate::copying::copied;
use crate::entry::Entry;
use bp_base::{NoMemory, Tree};
use bp_check::are_same;
use bp_document::Document;
use std::alloc::Global;
use std::marker::Model;

/// What `add` did.
#[derive(Clone, Copy, Debug, PartialEq, Eq)]
pub enum Added {
    /// The document stands last.
    New,
    /// A document for this tree and budget was there already.
    There,
}

/// Designs on the square, no two for the same tree and budget. Contracts see the list of its entries.
#[derive(Drop)]
pub struct Catalogue {
    entries: Vec<Entry>,
}

impl Model for Catalogue {
    ghost use Rattle.std.specs.Prelude.{List};
    ghost use Rattle.std.specs.Coded.{codes};
    ghost use Rattle.bp_base.specs.contracts.refutation.Refutation as refutation;
    ghost use Rattle.bp_catalogue.specs.declared.entry.Entry.{Entry};
    ghost use Rattle.bp_catalogue.specs.Entries.{AreKept};

    ghost Value = { List Entry };

    ghost coded = { Prim.hlevel (codes, refutation.the_row.coded) };

    ghost view = { λ c. c.entries.items };

    ghost invariant = { λ c. AreKept c.entries.items };
}

impl Catalogue {
    /// A catalogue without entries.
    pub fn open(alloc: Global) -> Result<Catalogue, NoMemory>
        ensures { IfOk result (λ c. c ≡ []) }
    {
        Ok(Catalogue {
            entries: Vec::new(alloc),
        })
    }

    /// How many entries there are.
    pub fn len(&self) -> usize
        ensures { result ≡ length self.now }
    {
        self.entries.len()
    }

    /// A copy of the document for this tree and budget. None exactly where there is no entry for them.
    pub fn find(
        &self,
        alloc: Global,
        tree: &Tree,
        budget: u64,
    ) -> Result<Option<Document>, NoMemory>
        ensures finds { IfOk result (λ found. FindsExactly self.now tree.now budget found) }
        ensures right { IfOk result (λ found. MatchOption found (Unit {0}) (λ D. IsRight budget D)) }
        ensures checks { IfOk result (λ found. MatchOption found (Unit {0}) (λ D. Checks tree.now D)) }
    {
        match place_of(&self.entries, tree, budget) {
            None => Ok(None),
            Some(k) => Ok(Some(copied(alloc, &self.entries[k].document)?)),
        }
    }

    /// Puts a document of the square last, where none is there for its tree and this budget, with which it was designed. Where one is there,
    /// and after NoMemory, nothing changed.
    pub fn add(&mut self, document: Document, budget: u64) -> Result<Added, NoMemory>
        requires { IsRight budget document }
        ensures adds { IfOk result (λ added. AddsExactly self.old self.new document budget added) }
        ensures err { OnErr result (self.new ≡ self.old) }
    {
        if place_of(&self.entries, &document.tree, budget).is_some() {
            return Ok(Added::There);
        }
        self.entries.push(Entry { budget, document })?;
        Ok(Added::New)
    }
}

// Where the entry for this tree and budget stands.
fn place_of(entries: &[Entry], tree: &Tree, budget: u64) -> Option<usize>
    ensures none { MatchOption result (Any (IsOf tree.now budget) entries.now → ⊥) (λ k. (e : AnyEntry) × (slice_get entries.now k ≡ Some e) × IsOf tree.now budget e) }
{
    for (k, entry) in entries.iter().enumerate() {
        if entry.budget == budget && are_same(tree, &entry.document.tree) {
            return Some(k);
        }
    }
    None
}
