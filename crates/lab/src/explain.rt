// Why a line is refused, told at length.

use crate::known::{ACTIONS, COMMANDS, Field, GROUPS, Rule, fields_of, nearest, value_of};
use serde_json::Value;
use std::alloc::{AllocError, Global};
use task_ids::TaskId;

/// The most letters of a value that are told.
const MAX_TOLD: usize = 60;

/// What stands around a refused line.
#[derive(Drop)]
pub struct Place<'a> {
    pub alloc: Global,
    /// How many nodes the cluster has.
    pub nodes: u32,
    /// The names of the commands before it, in order.
    pub before: &'a [String],
}

/// What may stand at a field, in words.
fn push_rule(out: &mut String, rule: Rule, nodes: u32) -> Result<(), AllocError> {
    match rule {
        Rule::Text => out.push_str("a text"),
        Rule::Truth => out.push_str("true or false"),
        Rule::True => out.push_str("true"),
        Rule::Object => out.push_str("an object"),
        Rule::Number(from, to) => write!(out, "a whole number from {from} to {to}"),
        Rule::Rate => out.push_str("a whole number from 1 to 1000000, or -1"),
        Rule::Node => write!(out, "a node of the cluster, n1 to n{nodes}"),
        Rule::Task => out.push_str("a task id, as n2:17"),
        Rule::Time => out.push_str("a time of a day at most, as 1d, 2h, 3m, 4s or 500ms"),
        Rule::Command => out.push_str("the number of an earlier command, from 1"),
        Rule::Group => out.push_str("nodes, parents or none"),
    }
}

/// Whether a text is the name of a node of the cluster.
fn is_node(text: &str, nodes: u32) -> bool {
    match text.strip_prefix('n') {
        Some(digits) => {
            !digits.starts_with('0')
                && !digits.starts_with('+')
                && digits.parse::<u32>().is_ok_and(|node| node <= nodes)
        }
        None => false,
    }
}

/// Whether a text is a time such as `1m`, of a day at most.
fn is_time(text: &str) -> bool {
    let digits = text.bytes().take_while(u8::is_ascii_digit).count();
    let (Some(number), Some(unit)) = (text.get(..digits), text.get(digits..)) else {
        return false;
    };
    let most = match unit {
        "d" => 1,
        "h" => 24,
        "m" => 1_440,
        "s" => 86_400,
        "ms" => 86_400_000,
        _ => return false,
    };
    !number.starts_with('0') && number.parse::<u64>().is_ok_and(|many| many <= most)
}

/// Whether a value is of the kind and in the range that may stand there.
fn fits(rule: Rule, value: &Value, place: &Place<'_>) -> bool {
    match rule {
        Rule::Text => value.is_string(),
        Rule::Truth => value.is_boolean(),
        Rule::True => value.as_bool() == Some(true),
        Rule::Object => value.is_object(),
        Rule::Number(from, to) => value.as_u64().is_some_and(|n| from <= n && n <= to),
        Rule::Rate => value
            .as_i64()
            .is_some_and(|n| n == -1 || (1 <= n && n <= 1_000_000)),
        Rule::Node => value
            .as_str()
            .is_some_and(|text| is_node(text, place.nodes)),
        Rule::Task => value
            .as_str()
            .is_some_and(|text| matches!(TaskId::parse(text), Ok(Some(_)))),
        Rule::Time => value.as_str().is_some_and(is_time),
        Rule::Command => value
            .as_u64()
            .is_some_and(|n| 1 <= n && n <= place.before.len() as u64),
        Rule::Group => value
            .as_str()
            .is_some_and(|text| GROUPS.iter().any(|group| *group == text)),
    }
}

/// The beginning of a value, on one line.
fn push_value(alloc: Global, out: &mut String, value: &Value) -> Result<(), AllocError> {
    let whole = value.to_string(alloc)?;
    let told: String = whole.chars().take(MAX_TOLD).collect(alloc)?;
    out.push_str(told.as_str())?;
    if told.len() < whole.len() {
        out.push_str("..")?;
    }
    Ok(())
}

/// Tells a field with another value than may stand there.
fn push_misfit(
    out: &mut String,
    name: &str,
    rule: Rule,
    value: &Value,
    place: &Place<'_>,
) -> Result<(), AllocError> {
    write!(out, "; {name} is ")?;
    push_value(place.alloc, out, value)?;
    out.push_str(", and is to be ")?;
    push_rule(out, rule, place.nodes)?;
    if rule == Rule::Command {
        write!(out, "; before this line there are {}", place.before.len())?;
    }
    Ok(())
}

/// The name that is nearest, or all that there are.
fn push_names(
    alloc: Global,
    out: &mut String,
    word: &str,
    names: &[&str],
) -> Result<(), AllocError> {
    match nearest(alloc, word, names)? {
        Some(name) => write!(out, ", the nearest is {name}"),
        None => {
            out.push_str(", there are")?;
            for name in names {
                write!(out, " {name}")?;
            }
            Ok(())
        }
    }
}

/// Tells what is wrong with the fields of a command: each one that is not known, is missing or does not fit.
fn push_fields(
    out: &mut String,
    command: &str,
    known: &[Field],
    value: &Value,
    place: &Place<'_>,
) -> Result<(), AllocError> {
    let Some(fields) = value.as_object() else {
        write!(out, "; the value of {command} is to be an object, and is ")?;
        return push_value(place.alloc, out, value);
    };
    let mut names = Vec::new(place.alloc);
    for field in known {
        names.push(field.0)?;
    }
    for (name, value) in fields.iter() {
        let name = name.as_str();
        match known.iter().find(|field| field.0 == name) {
            None => {
                write!(out, "; {command} has no field {name}")?;
                push_names(place.alloc, out, name, names.as_slice())?;
            }
            Some(field) => {
                if !fits(field.1, value, place) {
                    push_misfit(out, name, field.1, value, place)?;
                }
            }
        }
    }
    for field in known {
        if field.2 && value.get(field.0).is_none() {
            write!(out, "; {} is missing, ", field.0)?;
            push_rule(out, field.1, place.nodes)?;
        }
    }
    push_pairs(out, command, value)
}

/// Whether a field is there.
fn has(value: &Value, name: &str) -> bool {
    value.get(name).is_some()
}

/// Whether a cancel has a field of a filter.
fn has_filter(value: &Value) -> bool {
    has(value, "actions") || has(value, "nodes") || has(value, "parent_task_id")
}

/// Tells fields of which one excludes the other, and those of which one must be there.
fn push_pairs(out: &mut String, command: &str, value: &Value) -> Result<(), AllocError> {
    let named = has(value, "command");
    match command {
        "scroll" | "clear_scroll" if has(value, "scroll_id") == named => {
            out.push_str("; one of scroll_id and command is to be there, and not both")
        }
        "get_task" | "forget_task" if has(value, "task_id") == named => {
            out.push_str("; one of task_id and command is to be there, and not both")
        }
        "cancel" if has(value, "task_id") && named => {
            out.push_str("; task_id and command exclude each other")
        }
        "cancel" if (has(value, "task_id") || named) && has_filter(value) => {
            out.push_str("; the fields of a filter do not stand beside task_id or command")
        }
        _ => Ok(()),
    }
}

/// Tells what is wrong with a command.
pub fn push_command(out: &mut String, value: &Value, place: &Place<'_>) -> Result<(), AllocError> {
    let Some(members) = value.as_object() else {
        return out.push_str("; a command is an object of one key, as {\"settle\":true}");
    };
    let (1, Some((name, value))) = (members.len(), members.first_key_value()) else {
        return out.push_str("; a command is an object of one key, which names it");
    };
    let name = name.as_str();
    if let Some(fields) = fields_of(name) {
        return push_fields(out, name, fields, value, place);
    }
    if let Some(rule) = value_of(name) {
        return if fits(rule, value, place) {
            Ok(())
        } else {
            push_misfit(out, name, rule, value, place)
        };
    }
    if ACTIONS.iter().any(|action| *action == name) {
        return write!(
            out,
            "; {name} is the action of a document, and documents stand before the line --"
        );
    }
    write!(out, "; there is no command {name}")?;
    push_names(place.alloc, out, name, &COMMANDS)
}

/// Which commands a command can name.
fn nameable(command: &str) -> &'static str {
    match command {
        "cancel" => "a search, a scroll or a reindex",
        "wait_for" => "a search, a scroll, a cancel or a reindex without requests_per_second",
        _ => "a search with scroll",
    }
}

/// Tells what is wrong with the number of an earlier command.
pub fn push_reference(
    out: &mut String,
    value: &Value,
    place: &Place<'_>,
) -> Result<(), AllocError> {
    let Some((name, fields)) = value
        .as_object()
        .and_then(|members| members.first_key_value())
    else {
        return Ok(());
    };
    let Some(number) = fields.get("command").and_then(Value::as_u64) else {
        return Ok(());
    };
    write!(
        out,
        "; command is {number}, and is to be the number of an earlier command that is {}",
        nameable(name.as_str())
    )?;
    match number
        .checked_sub(1)
        .and_then(|at| place.before.get(at as usize))
    {
        Some(met) => write!(out, "; command {number} is a {}", met.as_str()),
        None => write!(out, "; before this line there are {}", place.before.len()),
    }
}

/// Tells what is wrong with the action of a document.
pub fn push_action(alloc: Global, out: &mut String, value: &Value) -> Result<(), AllocError> {
    let form = "; an action is as {\"index\":{\"_index\":\"logs\",\"_id\":\"1\"}}";
    let Some(members) = value.as_object() else {
        return out.push_str(form);
    };
    let (1, Some((name, fields))) = (members.len(), members.first_key_value()) else {
        return out.push_str(form);
    };
    if !ACTIONS.iter().any(|action| *action == name.as_str()) {
        write!(out, "; there is no action {}", name.as_str())?;
        return push_names(alloc, out, name.as_str(), &ACTIONS);
    }
    push_member(alloc, out, "_index", fields.get("_index"))?;
    match fields.get("_id") {
        Some(id) if !id.is_u64() && !id.is_i64() => push_member(alloc, out, "_id", Some(id)),
        _ => Ok(()),
    }
}

/// Tells a text of an action that is missing, empty or no text.
fn push_member(
    alloc: Global,
    out: &mut String,
    name: &str,
    value: Option<&Value>,
) -> Result<(), AllocError> {
    match value {
        None => write!(out, "; {name} is missing"),
        Some(value) if value.as_str().is_some_and(|text| !text.is_empty()) => Ok(()),
        Some(value) => {
            write!(out, "; {name} is ")?;
            push_value(alloc, out, value)?;
            out.push_str(", and is to be a text that is not empty")
        }
    }
}
