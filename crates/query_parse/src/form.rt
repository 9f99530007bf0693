ghost use Rattle.std.specs.Prelude.{◌≡◌};
ghost use Rattle.query_parse.specs.Reading.{form_named};

/// The kind of a query, which the key of its object names.
#[derive(Clone, Copy)]
pub(crate) enum Form {
    All,
    Nothing,
    Term,
    Terms,
    Range,
    Prefix,
    Exists,
    Ids,
    Bool,
}

impl Form {
    pub(crate) fn named(name: &str) -> Option<Form>
        ensures { result ≡ form_named name.now }
    {
        match name {
            "match_all" => Some(Form::All),
            "match_none" => Some(Form::Nothing),
            "term" => Some(Form::Term),
            "terms" => Some(Form::Terms),
            "range" => Some(Form::Range),
            "prefix" => Some(Form::Prefix),
            "exists" => Some(Form::Exists),
            "ids" => Some(Form::Ids),
            "bool" => Some(Form::Bool),
            _ => None,
        }
    }
}
