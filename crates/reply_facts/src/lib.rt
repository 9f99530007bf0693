//! What is known of a run before it begins, and what its letters tell by that: that a top or hits are those of their ask over the corpus
//! lines of its shard, and that the reply of a search or of a page is the plain answer.
//!
//! It computes nothing: its definitions are what a run asks of its letters.
#![tactic(auto)]

ghost use Rattle.task_events.specs.Readings.{page_reading, search_reading};
ghost use Rattle.reply_facts.specs.Example.{ask, in_silence, index, next_page, page, run, same_again, scroll, short_total, too_early, whole, without_second};
ghost use Rattle.reply_facts.specs.Letters.{context_of_page};
ghost use Rattle.reply_facts.specs.Plainly.{IsPlainOver};
ghost use Rattle.reply_facts.specs.Settings.{lines_in};

use task_ids::TaskId;

/// A search of three documents in two shards replies plainly where both shards have answered, and where one is told as rejected. It does
/// not where that one is left out without a word, or was read before it had all its documents.
///
/// It computes nothing: its contract is the example.
pub fn example(task: TaskId)
    ensures whole { IsPlainOver (lines_in run index) (search_reading task ask 2) whole }
    ensures without { IsPlainOver (lines_in run index) (search_reading task ask 2) without_second }
    ensures silence { IsPlainOver (lines_in run index) (search_reading task ask 2) in_silence → ⊥ }
    ensures early { IsPlainOver (lines_in run index) (search_reading task ask 2) too_early → ⊥ }
{}

/// Its next page shows the document after the cursor, and counts all. It is not plain to show the one at the cursor again, nor to count
/// what the page shows alone.
///
/// It computes nothing: its contract is the example.
pub fn example_of_page(task: TaskId)
    ensures next { IsPlainOver (lines_in run index) (page_reading (context_of_page (scroll task) page)) (next_page task) }
    ensures again { IsPlainOver (lines_in run index) (page_reading (context_of_page (scroll task) page)) (same_again task) → ⊥ }
    ensures total { IsPlainOver (lines_in run index) (page_reading (context_of_page (scroll task) page)) (short_total task) → ⊥ }
{}
