//! Which indices there are.

ghost use Rattle.std.specs.Prelude.{◌≡◌, ◌||◌, ℕ, List, IfOk};
ghost use Rattle.std.specs.HashSet.{contains_by};
ghost use Rattle.std.specs.List.{list_any};
ghost use Rattle.std.specs.Str.{bytes_eq};
ghost use Rattle.command_roots.specs.Known.{is_of_corpus};

use std::alloc::{AllocError, Global};
use std::collections::HashSet;
use task_ids::{Corpus, Text};

/// The indices of the input's documents.
fn corpus_indices<'a>(alloc: Global, corpus: &'a Corpus) -> Result<HashSet<&'a str>, AllocError>
    ensures { IfOk result (λ known. (index : List ℕ) → contains_by (λ k. bytes_eq index k.now) known ≡ is_of_corpus corpus.now index) }
{
    let mut known = HashSet::new(alloc);
    for line in corpus.lines.as_slice() {
        known.insert(line.index.as_str())?;
    }
    Ok(known)
}

/// The indices of the input's documents, and those that its reindexes write to, which are `dests`. It fails only for want of memory.
pub fn indices_of<'a>(
    alloc: Global,
    corpus: &'a Corpus,
    dests: &'a [Text],
) -> Result<HashSet<&'a str>, AllocError>
    ensures { IfOk result (λ known. (index : List ℕ) → contains_by (λ k. bytes_eq index k.now) known
        ≡ (is_of_corpus corpus.now index || list_any (bytes_eq index) dests.now)) }
{
    let mut known = corpus_indices(alloc, corpus)?;
    for dest in dests {
        known.insert(dest.as_str())?;
    }
    Ok(known)
}
