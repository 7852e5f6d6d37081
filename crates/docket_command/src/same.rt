//! Whether two values of a field are equal.
ghost use Rattle.std.specs.Prelude.{◌≡◌};
ghost use Rattle.docket_command.specs.FieldTypes as of;
ghost use Rattle.docket_command.specs.Sameness.{is_same_word, is_same_plain, plain_if};

use crate::choice::ServiceMethod;
use crate::moment::Moment;
use crate::word::Word;
use civil_time::Day;
use court_rules::Direction;

pub(crate) fn is_same_word<W: Word>(a: W, b: W) -> bool
    ensures { result ≡ is_same_word W.word_of a b }
{
    a.word() == b.word()
}

pub(crate) fn is_same_method(a: Option<ServiceMethod>, b: Option<ServiceMethod>) -> bool
    ensures { result ≡ is_same_plain (plain_if of.ServiceMethod a) (plain_if of.ServiceMethod b) }
{
    match a {
        None => b.is_none(),
        Some(a) => match b {
            None => false,
            Some(b) => is_same_word(a, b),
        },
    }
}

pub(crate) fn is_same_direction(a: Option<Direction>, b: Option<Direction>) -> bool
    ensures { result ≡ is_same_plain (plain_if of.Direction a) (plain_if of.Direction b) }
{
    match a {
        None => b.is_none(),
        Some(a) => match b {
            None => false,
            Some(b) => is_same_word(a, b),
        },
    }
}

pub(crate) fn is_same_day(a: Option<Day>, b: Option<Day>) -> bool
    ensures { result ≡ is_same_plain (plain_if of.Day a) (plain_if of.Day b) }
{
    a == b
}

pub(crate) fn is_same_moment(a: Option<Moment>, b: Option<Moment>) -> bool
    ensures { result ≡ is_same_plain (plain_if of.Moment a) (plain_if of.Moment b) }
{
    a == b
}

pub(crate) fn is_same_number(a: Option<u32>, b: Option<u32>) -> bool
    ensures { result ≡ is_same_plain (plain_if of.Number a) (plain_if of.Number b) }
{
    a == b
}
