//! Patterns of names.

ghost use Rattle.std.specs.Prelude.{◌≡◌};
ghost use Rattle.feed_transactions.specs.NamePatterns.{IsMatch, IsMatchOfEnds, is_like};

/// What stands for any bytes in a pattern.
const ANY: u8 = b'*';

/// Whether a name is like a pattern.
#[derive(Clone, Copy)]
enum Match {
    Yes,
    No,
    /// No, and no end of the name is.
    NoEnd,
}

/// Whether a name is like a pattern, in which `*` stands for any bytes, none included.
pub(crate) fn is_like(pattern: &[u8], name: &[u8]) -> bool
    ensures { result ≡ is_like pattern.now name.now }
{
    match match_name(pattern, name) {
        Match::Yes => true,
        Match::No | Match::NoEnd => false,
    }
}

/// Matches a name with a pattern.
#[cycle(matching)]
fn match_name(pattern: &[u8], name: &[u8]) -> Match
    ensures { IsMatch pattern.now name.now result }
{
    let Some((first, rest)) = pattern.split_first() else {
        return if name.is_empty() {
            Match::Yes
        } else {
            Match::No
        };
    };
    if *first == ANY {
        return match_ends(rest, name);
    }
    let Some((byte, after)) = name.split_first() else {
        return Match::NoEnd;
    };
    if *first != *byte {
        return Match::No;
    }
    match_name(rest, after)
}

/// Matches the ends of a name with a pattern, the whole name first. If a shorter one can't match either, none is tried.
#[cycle(matching)]
fn match_ends(pattern: &[u8], name: &[u8]) -> Match
    ensures { IsMatchOfEnds pattern.now name.now result }
{
    match match_name(pattern, name) {
        Match::Yes => return Match::Yes,
        Match::NoEnd => return Match::NoEnd,
        Match::No => {}
    }
    let Some((_, after)) = name.split_first() else {
        return Match::NoEnd;
    };
    match_ends(pattern, after)
}
