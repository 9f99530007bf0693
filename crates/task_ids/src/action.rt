ghost use Rattle.std.specs.Prelude.{◌≡◌};
ghost use Rattle.task_ids.specs.Action.{action_text};

/// What a task does. The names are Elasticsearch's action names, and have no wire meaning here.
#[derive(Clone, Copy, PartialEq, Eq, PartialOrd, Ord)]
pub enum Action {
    Search,
    Query,
    Fetch,
    Scroll,
    Reindex,
    Bulk,
    BulkShard,
}

impl Action {
    /// The action's name, as task lists show it.
    pub fn text(&self) -> &'static str
        ensures { result.now ≡ action_text self.now }
    {
        match self {
            Action::Search => "indices:data/read/search",
            Action::Query => "indices:data/read/search[phase/query]",
            Action::Fetch => "indices:data/read/search[phase/fetch/id]",
            Action::Scroll => "indices:data/read/scroll",
            Action::Reindex => "indices:data/write/reindex",
            Action::Bulk => "indices:data/write/bulk",
            Action::BulkShard => "indices:data/write/bulk[s]",
        }
    }
}
