use crate::doc::Doc;
use crate::items::Items;
use crate::text::Text;

/// A document as the input gives it, with the index that it goes to.
#[derive(Drop)]
pub struct CorpusLine {
    pub index: Text,
    pub doc: Doc,
}

/// The documents of the input, in its order.
#[derive(Drop)]
pub struct Corpus {
    pub lines: Items<CorpusLine>,
}
