use query_match::{Query, Text};

/// The body of a reindex, after Elasticsearch's reindex API: which documents are read, and where they are written.
#[derive(Drop)]
pub struct ReindexBody {
    /// The index whose documents are read.
    pub source: Text,
    /// Which of them are read.
    pub query: Query,
    /// How many are read and written at a time, from 1 to 10,000.
    pub batch: u32,
    /// The index to which they are written, which is another one.
    pub dest: Text,
}
