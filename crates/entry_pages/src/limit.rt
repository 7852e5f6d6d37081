//! What the value of a field may be, as a terminal says it.
ghost use Rattle.std.specs.Prelude.{◌≡◌};
ghost use Rattle.command_forms.specs.Entered.{type_of_input};
ghost use Rattle.entry_pages.specs.Limits.{range_of, name_limit, start_limit, at_limit, party_limit, basis_limit, direction_limit, method_limit, until_limit, days_limit, limit_of};

use command_forms::Input;
use docket_command::{CommandName, Field};

/// What a value of a type may be.
pub(crate) fn range_of(input: Input) -> &'static str
    ensures { result.now ≡ range_of (type_of_input input) }
{
    match input {
        Input::Day => "takes a day from 2000-01-01 to 2099-12-31",
        Input::Moment => "takes a moment from 2000 to 2099",
        _ => "",
    }
}

fn name_limit(kind: CommandName) -> &'static str
    ensures { result.now ≡ name_limit kind }
{
    match kind {
        CommandName::LocalRule => "takes 3 to 16 visible characters of ASCII that begin with LR",
        _ => "takes 1 to 100 bytes, and no control characters",
    }
}

fn start_limit(kind: CommandName) -> &'static str
    ensures { result.now ≡ start_limit kind }
{
    match kind {
        CommandName::OrderPeriod => "is given with --unit days or months, and with no other",
        _ => "",
    }
}

fn at_limit(kind: CommandName) -> &'static str
    ensures { result.now ≡ at_limit kind }
{
    match kind {
        CommandName::OrderPeriod => "is given with --unit hours, and with no other",
        _ => "",
    }
}

fn party_limit(kind: CommandName) -> &'static str
    ensures { result.now ≡ party_limit kind }
{
    match kind {
        CommandName::OrderPeriod => "takes a number, 0 for every party, or a name",
        CommandName::Dispose =>
            "takes a number or a name, and is given with --outcome statement, and with no other",
        _ => "takes a number or a name",
    }
}

fn basis_limit(kind: CommandName) -> &'static str
    ensures { result.now ≡ basis_limit kind }
{
    match kind {
        CommandName::ServePleading => "is private where --kind is unanswered",
        _ => "",
    }
}

fn direction_limit(kind: CommandName) -> &'static str
    ensures { result.now ≡ direction_limit kind }
{
    match kind {
        CommandName::OrderPeriod => "is given with --unit days, months or hours, and with no other",
        _ => "",
    }
}

fn method_limit(kind: CommandName) -> &'static str
    ensures { result.now ≡ method_limit kind }
{
    match kind {
        CommandName::OrderPeriod =>
            "is given with --unit days or months and --direction forward alone",
        _ => "",
    }
}

fn until_limit(kind: CommandName) -> &'static str
    ensures { result.now ≡ until_limit kind }
{
    match kind {
        CommandName::OrderPeriod => "is given with --unit fixed, and with no other",
        _ => "is given where --days is not",
    }
}

fn days_limit(kind: CommandName) -> &'static str
    ensures { result.now ≡ days_limit kind }
{
    match kind {
        CommandName::Extend => "takes 1 to 3650, and is given where --until is not",
        _ => "takes 1 to 3650",
    }
}

/// What the value of a field may be in a kind of command. Empty where nothing more is to be said.
pub(crate) fn limit_of(kind: CommandName, field: Field) -> &'static str
    ensures { result.now ≡ limit_of kind field }
{
    match field {
        Field::Name => name_limit(kind),
        Field::Start => start_limit(kind),
        Field::End => "is after --start",
        Field::Close => "takes a time before the court's closing",
        Field::Row => "takes a number that docketctl holidays --db shows",
        Field::Label => "takes 1 to 40 visible characters of ASCII, and no blanks",
        Field::Caption => "takes 1 to 200 bytes, and no control characters",
        Field::Text => "takes 1 to 2000 bytes, and no control characters",
        Field::Case => "takes the case's number or its docket number",
        Field::Party => party_limit(kind),
        Field::Opponent => "takes a number or a name",
        Field::Deadline => "takes a number that docketctl case shows",
        Field::Basis => basis_limit(kind),
        Field::Attorney => "is given with --basis officer, and with no other",
        Field::AttorneyMethod => "is given with --basis officer, and with no other",
        Field::Allowed => "takes 1 to 3650",
        Field::Returned => "is not before --sent",
        Field::At => at_limit(kind),
        Field::Count =>
            "takes 1 to 3650 days, 120 months or 8760 hours, and is not given with --unit fixed",
        Field::Direction => direction_limit(kind),
        Field::Method => method_limit(kind),
        Field::Until => until_limit(kind),
        Field::Discharged => "is given where the jury was discharged without a verdict on an issue",
        Field::Days => days_limit(kind),
        Field::Three => "is not given with --direction backward",
        Field::Rule => "takes a name that docketctl rules --db shows",
        _ => "",
    }
}
