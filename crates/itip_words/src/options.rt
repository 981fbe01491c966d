//! The options that words give.
ghost use Rattle.std.specs.Prelude.{◌≡◌, is_some, map};
ghost use Rattle.std.specs.Option.{option_copied, option_map};
ghost use Rattle.clap.specs.Simple.{subcommand_rows_of};
ghost use Rattle.itip_words.specs.Options.{options_of, value_of, values_of, is_set, is_true};

use clap::ArgMatches;

/// The word that is given, and its options.
pub(crate) fn word_of<'m, 'a>(matches: &'m ArgMatches<'a>) -> Option<(&'a str, &'m ArgMatches<'a>)>
    ensures { option_map (λ given. (given.0.now, options_of given.1.now)) result ≡ subcommand_rows_of matches.now }
{
    matches.subcommand()
}

/// The value of an option, or the first of several. `None` if it has none.
pub(crate) fn value_of<'a>(words: &ArgMatches<'a>, name: &str) -> Option<&'a str>
    ensures { option_copied result ≡ value_of name.now (options_of words.now) }
{
    words.get_str(name)
}

/// All values of an option. `None` if it has none.
pub(crate) fn values_of<'m, 'a>(words: &'m ArgMatches<'a>, name: &str) -> Option<&'m [&'a str]>
    ensures { option_map (λ values. map (λ value. value.now) values.now) result ≡ values_of name.now (options_of words.now) }
{
    words.get_strs(name)
}

/// Whether an option has a value.
pub(crate) fn is_given(words: &ArgMatches<'_>, name: &str) -> bool
    ensures { result ≡ is_some (value_of name.now (options_of words.now)) }
{
    value_of(words, name).is_some()
}

/// Whether an option that may have several values has any.
pub(crate) fn has_values(words: &ArgMatches<'_>, name: &str) -> bool
    ensures { result ≡ is_some (values_of name.now (options_of words.now)) }
{
    values_of(words, name).is_some()
}

/// Whether an option that takes no value is given.
pub(crate) fn is_set(words: &ArgMatches<'_>, name: &str) -> bool
    ensures { result ≡ is_set name.now (options_of words.now) }
{
    match value_of(words, name) {
        Some(value) => is_true(value),
        None => false,
    }
}

fn is_true(value: &str) -> bool
    ensures { result ≡ is_true value.now }
{
    value == "true"
}
