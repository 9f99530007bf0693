//! Why a JSON value is no query, or no body of a search.

ghost use Rattle.std.specs.Prelude.{◌≡◌, IfOk};
ghost use Rattle.query_parse.specs.declared.fault.QueryError.TheVariants.{Memory};

use query_match::Text;
use std::alloc::{AllocError, AllocFailed};

/// What is wrong with a query.
#[derive(Clone, Copy, PartialEq, Eq)]
pub enum QueryFault {
    /// The key of a query object names no query. The path ends with that key.
    UnknownQuery,
    /// A value has the wrong shape: another kind, a key that is not known, a wrong number of keys or a number out of range.
    BadValue,
    /// A query object has no key, or several.
    NotOneKey,
}

/// Why a query could not be read.
#[derive(Drop)]
pub enum QueryError {
    /// The first fault, depth first and keys in the order of their bytes. The path has the keys and the places of lists from `query` on, joined by dots.
    Bad { path: Text, kind: QueryFault },
    /// Memory ran out.
    Memory,
}

impl From<AllocError> for QueryError {
    ghost from_gives = { λ _ e. e ≡ Memory };

    fn from(_e: AllocError) -> QueryError {
        QueryError::Memory
    }
}

impl<T: Drop> From<AllocFailed<T>> for QueryError {
    ghost from_gives = { λ _ e. e ≡ Memory };

    fn from(_e: AllocFailed<T>) -> QueryError {
        QueryError::Memory
    }
}

impl QueryError {
    /// An equal error. It fails only for want of memory.
    pub fn copy(&self) -> Result<QueryError, AllocError>
        ensures { IfOk result (λ error. error ≡ self.now) }
    {
        match self {
            QueryError::Bad { path, kind } => Ok(QueryError::Bad {
                path: path.copy()?,
                kind: *kind,
            }),
            QueryError::Memory => Ok(QueryError::Memory),
        }
    }
}

/// Why a body could not be read: the first fault, in the order of unknown fields, the query, the sort, `from`, `size` and the window.
#[derive(Drop)]
pub enum BodyError {
    /// The first key, in the order of their bytes, that no body of a search has.
    UnknownField(Text),
    /// The first fault of the query. The path has the keys and the places of lists from `query` on, joined by dots. A body that is no object is a wrong value at the empty path.
    BadQuery { path: Text, kind: QueryFault },
    /// The field of the first wrong entry of the sort, or `sort` where it names none or there are more than 8.
    BadSort(Text),
    /// `from` or `size`, where it is no whole number from 0 to 2^32-1 or out of its range.
    BadSize(Text),
    /// The sum of `from` and `size`, where it is above 10,000.
    WindowTooLarge(u64),
    /// Memory ran out.
    Memory,
}

impl From<AllocError> for BodyError {
    ghost use Rattle.std.specs.Prelude.{◌≡◌};
    ghost use Rattle.query_parse.specs.declared.fault.BodyError.TheVariants.{Memory};

    ghost from_gives = { λ _ e. e ≡ Memory };

    fn from(_e: AllocError) -> BodyError {
        BodyError::Memory
    }
}

impl<T: Drop> From<AllocFailed<T>> for BodyError {
    ghost use Rattle.std.specs.Prelude.{◌≡◌};
    ghost use Rattle.query_parse.specs.declared.fault.BodyError.TheVariants.{Memory};

    ghost from_gives = { λ _ e. e ≡ Memory };

    fn from(_e: AllocFailed<T>) -> BodyError {
        BodyError::Memory
    }
}

impl From<QueryError> for BodyError {
    ghost use Rattle.std.specs.Prelude.{◌≡◌};
    ghost use Rattle.query_parse.specs.Bodies.{body_error};

    ghost from_gives = { λ e b. b ≡ body_error e };

    fn from(error: QueryError) -> BodyError {
        match error {
            QueryError::Bad { path, kind } => BodyError::BadQuery { path, kind },
            QueryError::Memory => BodyError::Memory,
        }
    }
}

impl BodyError {
    /// An equal error. It fails only for want of memory.
    pub fn copy(&self) -> Result<BodyError, AllocError>
        ensures { IfOk result (λ error. error ≡ self.now) }
    {
        match self {
            BodyError::UnknownField(field) => Ok(BodyError::UnknownField(field.copy()?)),
            BodyError::BadQuery { path, kind } => Ok(BodyError::BadQuery {
                path: path.copy()?,
                kind: *kind,
            }),
            BodyError::BadSort(field) => Ok(BodyError::BadSort(field.copy()?)),
            BodyError::BadSize(field) => Ok(BodyError::BadSize(field.copy()?)),
            BodyError::WindowTooLarge(window) => Ok(BodyError::WindowTooLarge(*window)),
            BodyError::Memory => Ok(BodyError::Memory),
        }
    }
}

/// Why the body of a reindex could not be read: the first fault, in the order of unknown fields, `source`, `dest`, the query and `size`.
#[derive(Drop)]
pub enum ReindexError {
    /// The path of the first field that is not known: of the body, then of `source`, then of `dest`, each in the order of their bytes.
    UnknownField(Text),
    /// The path of the first missing or wrong field: `source`, `source.index`, `dest`, `dest.index`, which is also wrong where it is the source's, `dest.op_type` or `source.size`. A body that is no object is wrong at the empty path.
    BadReindex(Text),
    /// The first fault of the query. The path has the keys and the places of lists from `query` on, joined by dots.
    BadQuery { path: Text, kind: QueryFault },
    /// Memory ran out.
    Memory,
}

impl From<AllocError> for ReindexError {
    ghost use Rattle.std.specs.Prelude.{◌≡◌};
    ghost use Rattle.query_parse.specs.declared.fault.ReindexError.TheVariants.{Memory};

    ghost from_gives = { λ _ e. e ≡ Memory };

    fn from(_e: AllocError) -> ReindexError {
        ReindexError::Memory
    }
}

impl From<QueryError> for ReindexError {
    ghost use Rattle.std.specs.Prelude.{◌≡◌};
    ghost use Rattle.query_parse.specs.Reindexes.{reindex_error};

    ghost from_gives = { λ e r. r ≡ reindex_error e };

    fn from(error: QueryError) -> ReindexError {
        match error {
            QueryError::Bad { path, kind } => ReindexError::BadQuery { path, kind },
            QueryError::Memory => ReindexError::Memory,
        }
    }
}

impl ReindexError {
    /// An equal error. It fails only for want of memory.
    pub fn copy(&self) -> Result<ReindexError, AllocError>
        ensures { IfOk result (λ error. error ≡ self.now) }
    {
        match self {
            ReindexError::UnknownField(field) => Ok(ReindexError::UnknownField(field.copy()?)),
            ReindexError::BadReindex(field) => Ok(ReindexError::BadReindex(field.copy()?)),
            ReindexError::BadQuery { path, kind } => Ok(ReindexError::BadQuery {
                path: path.copy()?,
                kind: *kind,
            }),
            ReindexError::Memory => Ok(ReindexError::Memory),
        }
    }
}
