//! Texts of commands.

ghost use Rattle.std.specs.Prelude.{option_map, Ok};
ghost use Rattle.script_lang.specs.Answers.{Reads};

use shard_docs::LineError;
use shared_value::Shared;
use std::alloc::Global;
use task_ids::Text;

pub(crate) fn text_from(alloc: Global, text: &str) -> Result<Text, LineError>
    ensures { Reads (λ t. t) result (Ok text.now) }
{
    Ok(Text::new(String::from_str(alloc, text)?))
}

/// A text to be shared, if there is one.
pub(crate) fn shared_from(
    alloc: Global,
    text: Option<&str>,
) -> Result<Option<Shared<Text>>, LineError>
    ensures { Reads (λ t. t) result (Ok (option_map (λ t. t.now) text.entry)) }
{
    match text {
        Some(text) => Ok(Some(Shared::new(alloc, text_from(alloc, text)?)?)),
        None => Ok(None),
    }
}
