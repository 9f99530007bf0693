ghost use Rattle.std.specs.Prelude.{◌≡◌, ◌++◌, OnOk, IfOk, decimal, string_bytes};
ghost use Rattle.query_parse.specs.Paths.{path_text};
ghost use Rattle.query_parse.specs.Answers.{IsFault};
ghost use Rattle.query_parse.specs.Reading.{under};

use crate::fault::{QueryError, QueryFault};
use query_match::Text;
use std::alloc::{AllocError, Global};

/// Where a value lies in a query. It is written out only where a fault is told.
#[derive(Clone, Copy)]
pub(crate) enum Path<'a> {
    /// The query itself.
    Query,
    Key(&'a Path<'a>, &'a str),
    Place(&'a Path<'a>, usize),
}

impl<'a> Path<'a> {
    pub(crate) fn key(&'a self, key: &'a str) -> Path<'a>
        ensures { path_text result ≡ under (path_text self.now) key.now }
    {
        Path::Key(self, key)
    }

    pub(crate) fn place(&'a self, place: usize) -> Path<'a>
        ensures { path_text result ≡ under (path_text self.now) (decimal place) }
    {
        Path::Place(self, place)
    }

    /// The error of a fault here, or of want of memory.
    pub(crate) fn fault(&self, alloc: Global, kind: QueryFault) -> QueryError
        ensures { IsFault result (path_text self.now) kind }
    {
        match self.text(alloc) {
            Ok(path) => QueryError::Bad { path, kind },
            Err(_) => QueryError::Memory,
        }
    }

    fn text(&self, alloc: Global) -> Result<Text, AllocError>
        ensures { IfOk result (λ text. text ≡ path_text self.now) }
    {
        let mut out = String::new(alloc);
        self.write(&mut out)?;
        Ok(Text::new(out))
    }

    /// Writes the keys and places, joined by dots.
    fn write(&self, out: &mut String) -> Result<(), AllocError>
        ensures { OnOk result (string_bytes out.new ≡ string_bytes out.old ++ path_text self.now) }
    {
        match self {
            Path::Query => out.push_str("query"),
            Path::Key(above, key) => {
                above.write(out)?;
                out.push_str(".")?;
                out.push_str(*key)
            }
            Path::Place(above, place) => {
                above.write(out)?;
                write!(out, ".{place}")
            }
        }
    }
}
