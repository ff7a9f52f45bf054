use bp_document::Document;

/// A document, which tells its tree, and the budget in branches with which it was designed.
#[derive(Drop)]
pub struct Entry {
    pub budget: u64,
    pub document: Document,
}
