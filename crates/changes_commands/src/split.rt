//! Texts that are split at a character.

ghost use Rattle.std.specs.Prelude.{◌≡◌, ◌<◌, option_map};
ghost use Rattle.std.specs.Path.{rsplit_once};

/// Splits a text at the last of these characters.
pub(crate) fn split_last(text: &str, at: char) -> Option<(&str, &str)>
    requires { at < 128 }
    ensures { option_map (λ parts. (parts.0.now, parts.1.now)) result ≡ rsplit_once at text.now }
{
    text.rsplit_once(at)
}
