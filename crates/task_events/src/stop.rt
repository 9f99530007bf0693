/// Why a run of a script came to an early end. What had happened by then stays.
#[derive(Clone, Copy, Debug, PartialEq, Eq)]
pub enum Stop {
    /// The history has 4,000,000 events, and one more was needed.
    HistoryFull,
    /// A node has given the number 1,048,575, and had to give one more.
    NumbersSpent,
    /// Memory ran out.
    Memory,
}
