//! The forms of the words behind a command's name.
ghost use Rattle.std.specs.Prelude.{◌≡◌, []};
ghost use Rattle.cmd_reading.specs.Form.{form_of};
ghost use Rattle.show_app.specs.Forms.{form_named};

/// How words may be read. `show` has the first four forms.
#[derive(Clone, Copy, Debug, PartialEq, Eq)]
pub enum Form {
    /// `show T`
    Run,
    /// `show T TABLE`
    AllRows,
    /// `show T TABLE ROW`
    OneRow,
    /// `show T TABLE FROM TO`
    Rows,
    /// `explain PARAMS T S`
    Explain,
    /// `evidence E`
    Evidence,
    /// `trace PARAMS SOURCE INPUTS`, with a kernel and a limit where they are given
    Trace,
    /// `why SOURCE`, with a kernel where one is given
    Why,
}

/// The names of the places of a form and of the options that may stand, as the reader of words wants
/// them. No form has an option that must stand.
#[derive(Clone, Copy)]
pub struct FormNames {
    pub places: &'static [&'static str],
    pub free: &'static [&'static str],
}

/// What a form takes.
pub fn names_of(form: Form) -> FormNames
    ensures { form_of result.places.now [] result.free.now ≡ form_named form }
{
    match form {
        Form::Run => without_options(&["table"]),
        Form::AllRows => without_options(&["table", "name"]),
        Form::OneRow => without_options(&["table", "name", "row"]),
        Form::Rows => without_options(&["table", "name", "first", "last"]),
        Form::Explain => without_options(&["params", "table", "statement"]),
        Form::Evidence => without_options(&["evidence"]),
        Form::Trace => FormNames {
            places: &["params", "source", "inputs"],
            free: &["kernel", "limit"],
        },
        Form::Why => FormNames {
            places: &["source"],
            free: &["kernel"],
        },
    }
}

fn without_options(places: &'static [&'static str]) -> FormNames
    ensures places { result.places.now ≡ places.now }
    ensures free { result.free.now ≡ [] }
{
    FormNames { places, free: &[] }
}
