ghost use Rattle.std.specs.Prelude.{◌≡◌, IfOk};
ghost use Rattle.serde_json.specs.Data.{object, no_members};
ghost use Rattle.serde_json.specs.View.{view};
ghost use Rattle.task_ids.specs.Json.{json_view};
ghost use Rattle.task_ids.specs.Source.{IsSource};

use crate::json_value::Json;
use serde_json::Value;
use std::alloc::{AllocError, Global};
use std::marker::Model;

/// The body of a command: a JSON object whose numbers are all whole, as the source of a document is. Contracts see it as
/// the JSON value.
#[derive(Drop)]
pub struct Body {
    value: Json,
}

impl Model for Body {
    ghost use Rattle.serde_json.specs.Data.{Data};
    ghost use Rattle.task_ids.specs.DataCode.{coded_data};
    ghost use Rattle.task_ids.specs.Json.{json_view};
    ghost use Rattle.task_ids.specs.Source.{IsSource};

    ghost Value = { Data };

    ghost coded = { coded_data };

    ghost view = { λ b. json_view b.value };

    ghost invariant = { λ b. IsSource (json_view b.value) };
}

impl Body {
    /// The body that a JSON value is, in memory of its own. It fails only for want of memory.
    pub fn new(alloc: Global, value: &Value) -> Result<Body, AllocError>
        requires { IsSource (view value.now) }
        ensures { IfOk result (λ body. body ≡ view value.now) }
    {
        let value = Json::of(alloc, value)?;
        Ok(Body { value })
    }

    /// The body that is an object without members, which takes no memory.
    pub fn empty(alloc: Global) -> Body
        ensures { result ≡ object no_members }
    {
        Body {
            value: Json::Object(Vec::new(alloc)),
        }
    }

    /// The body as a JSON value: an object whose numbers are all whole.
    pub fn as_json(&self) -> &Json
        ensures { json_view result.now ≡ self.now }
    {
        &self.value
    }
}
