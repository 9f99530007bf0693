ghost use Rattle.std.specs.Prelude.{◌≡◌, Some};
ghost use Rattle.task_ids.specs.Cause.{cause_text};

use std::fmt;

/// Why an input is refused. Within a line the first cause in this order counts, but for `NoSource`, which is looked for
/// after the other causes of its action line.
#[derive(Clone, Copy, Debug, PartialEq, Eq)]
pub enum Cause {
    /// The input has more than 67,108,864 bytes. It comes before all lines, at line 0.
    TooLong,
    /// There are more than 65,535 commands.
    TooManyLines,
    /// The line has more than 1,048,576 bytes.
    LineTooLong,
    /// An action line has no source line after it.
    NoSource,
    /// The line is not UTF-8.
    BadUtf8,
    /// The line is not JSON, or it nests deeper than 127.
    BadJson,
    /// A number has a fraction or an exponent, or lies outside -2^63 to 2^64-1, or is `-0`.
    NotWhole,
    /// The line is no object, or a script line no object of one key.
    NotObject,
    /// The action is neither `index` nor `create`.
    UnknownAction,
    /// The action line has another wrong shape.
    BadAction,
    /// A `create` of a document that is there.
    Conflict,
    /// There is no such command.
    UnknownCommand,
    /// A command or a field that writes a schedule, outside `sim`.
    ScheduleLineInRun,
    /// The command has no such field.
    UnknownField,
    /// A field is missing, stands beside one that excludes it, or is of the wrong kind or range.
    BadField,
    /// The text is no task id.
    BadTaskId,
    /// The node is not of the cluster.
    UnknownNode,
    /// The command that is named does not come before, or is of another kind.
    BadReference,
    /// The command that is named can not be waited for.
    NotWaitable,
}

impl Cause {
    /// What is shown to the user.
    pub fn text(self) -> &'static str
        ensures { result.now ≡ cause_text self }
    {
        match self {
            Cause::TooLong => "input is too long",
            Cause::TooManyLines => "too many commands",
            Cause::LineTooLong => "line is too long",
            Cause::NoSource => "source line is missing",
            Cause::BadUtf8 => "not UTF-8",
            Cause::BadJson => "not JSON",
            Cause::NotWhole => "number is not whole",
            Cause::NotObject => "not an object",
            Cause::UnknownAction => "unknown action",
            Cause::BadAction => "bad action",
            Cause::Conflict => "document is there",
            Cause::UnknownCommand => "unknown command",
            Cause::ScheduleLineInRun => "schedule line in run",
            Cause::UnknownField => "unknown field",
            Cause::BadField => "bad field",
            Cause::BadTaskId => "bad task id",
            Cause::UnknownNode => "unknown node",
            Cause::BadReference => "bad reference",
            Cause::NotWaitable => "can not be waited for",
        }
    }
}

impl fmt::Display for Cause {
    ghost output = { λ cause. Some (cause_text cause) };

    fn fmt<W: fmt::Write>(&self, f: &mut fmt::Formatter<W>) -> fmt::Result {
        f.write_str(self.text())
    }
}
