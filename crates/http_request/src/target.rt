//! The target of a request: its path, and its query.
ghost use Rattle.std.specs.Prelude.{◌≡◌, option_copied};
ghost use Rattle.http_request.specs.Path.{behind as behind_word};
ghost use Rattle.http_request.specs.Target.{path_of as path_by_mark, query_of as query_by_mark};

/// The target up to its first question mark.
pub fn path_of(target: &str) -> &str
    ensures { result.now ≡ path_by_mark target.now }
{
    match target.split_once('?') {
        Some((path, _)) => path,
        None => target,
    }
}

/// What stands behind the first question mark of a target, where there is one.
pub fn query_of(target: &str) -> Option<&str>
    ensures { option_copied result ≡ query_by_mark target.now }
{
    match target.split_once('?') {
        Some((_, query)) => Some(query),
        None => None,
    }
}

/// What is left of a text behind a word that it begins with.
pub fn behind<'t>(text: &'t str, word: &str) -> Option<&'t str>
    ensures { option_copied result ≡ behind_word word.now text.now }
{
    text.strip_prefix(word)
}
