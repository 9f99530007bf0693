//! Words and their parts.
ghost use Rattle.std.specs.Prelude.{◌≡◌, ◌<◌, ◌+◌, ◌*◌, ◌^◌, ◌≢◌, MatchBool};
ghost use Rattle.race_board.specs.Keys.{task_key, parent_key, mark_in};
ghost use Rattle.race_board.specs.Words.{number, parent, cancel, banned, by, task_word, ban_word, with_mark};

use task_ids::TaskId;

#[tactic(auto, unfolding(crate::specs::Words::number))]
pub(crate) fn number_of(word: u64) -> u64
    ensures number { result ≡ number word }
    ensures small { result < 1048576 }
{
    word % 1_048_576
}

#[tactic(auto, unfolding(crate::specs::Words::parent))]
pub(crate) fn parent_of(word: u64) -> u64
    ensures { result ≡ parent word }
{
    word / 1_048_576 % 16_777_216
}

#[tactic(auto, unfolding(crate::specs::Words::cancel))]
pub(crate) fn cancel_of(word: u64) -> u64
    ensures { result ≡ cancel word }
{
    word / 17_592_186_044_416
}

#[tactic(auto, unfolding(crate::specs::Words::banned))]
pub(crate) fn banned_of(word: u64) -> u64
    ensures { result ≡ banned word }
{
    word % 16_777_216
}

#[tactic(auto, unfolding(crate::specs::Words::by))]
pub(crate) fn by_of(word: u64) -> u64
    ensures { result ≡ by word }
{
    word / 16_777_216
}

#[tactic(auto, unfolding(crate::specs::Words::task_word))]
pub(crate) fn task_of(number: u64, parent: u64) -> u64
    requires { (number < 1048576) × (parent < 16777216) }
    ensures { result ≡ task_word number parent }
{
    number + 1_048_576 * parent
}

#[tactic(auto, unfolding(crate::specs::Words::ban_word))]
pub(crate) fn ban_of(parent: u64, cancel: u64) -> u64
    requires { (parent < 16777216) × (cancel < 65536) }
    ensures { result ≡ ban_word parent cancel }
{
    parent + 16_777_216 * cancel
}

#[tactic(auto, unfolding(crate::specs::Words::with_mark, crate::specs::Words::cancel))]
pub(crate) fn mark_of(word: u64, c: u64) -> u64
    requires { (cancel word ≡ 0) × (c < 65536) }
    ensures { result ≡ with_mark word c }
{
    word + 17_592_186_044_416 * c
}

/// The key of a task, by which words name parents.
#[tactic(auto, unfolding(crate::specs::Keys::task_key))]
pub(crate) fn key_of(task: TaskId) -> u64
    ensures key { result ≡ task_key task }
    ensures some { (result ≢ 0) × (result < 16777216) }
{
    u64::from(task.number) + 1_048_576 * u64::from(task.node)
}

/// The key of a task's parent, or 0 for a root.
pub(crate) fn parent_key_of(parent: Option<TaskId>) -> u64
    ensures key { result ≡ parent_key parent }
    ensures small { result < 16777216 }
{
    match parent {
        Some(task) => key_of(task),
        None => 0,
    }
}

/// The mark in a task word.
#[tactic(auto, unfolding(crate::specs::Words::cancel))]
pub(crate) fn mark_in(word: u64) -> Option<u32>
    ensures { result ≡ mark_in word }
{
    let mark = word / 17_592_186_044_416;
    if mark == 0 { None } else { Some(mark as u32) }
}

/// Whether it is the word of the live task with that number.
pub(crate) fn is_word_of(word: u64, sought: u32) -> bool
    ensures { MatchBool result ((word ≢ 0) × (number word ≡ sought)) (word ≢ 0 → number word ≢ sought) }
{
    word != 0 && number_of(word) == u64::from(sought)
}
