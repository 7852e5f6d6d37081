//! What help writes for the value of a field.

use command_forms::Input;
use docket_command::Field;

/// The form of a value, or the words that are taken, by how it is entered.
fn form_of(input: Input) -> &'static str {
    match input {
        Input::Number => "NUMBER",
        Input::Day => "DAY",
        Input::Moment => "MOMENT",
        Input::TimeOfDay => "HH:MM",
        Input::Flag => "true|false",
        Input::Text => "TEXT",
        Input::Rows => "ROWS",
        Input::Basis => "private|united_states|officer",
        Input::Direction => "forward|backward",
        Input::MotionKind => "b|e|f",
        Input::PeriodUnit => "days|months|hours|fixed",
        Input::PleadingKind => "counterclaim|crossclaim|unanswered",
        Input::Role => "plaintiff|defendant|other",
        Input::Ruling => "denied|postponed|statement",
        Input::ServiceMethod => "A|B|C|D|E|F",
        Input::Sovereign => "federal|state",
        Input::Way => "electronic|office",
    }
}

/// What stands for the value of a field: a case and a party are given by a number or by a name.
pub(crate) fn value_name(field: Field, input: Input) -> &'static str {
    match field {
        Field::Case => "CASE",
        Field::Party | Field::Opponent => "PARTY",
        _ => form_of(input),
    }
}
