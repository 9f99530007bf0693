//! Patterns, by which task lists are filtered.

ghost use Rattle.std.specs.Prelude.{◌≡◌, ◌≤◌, ◌==◌, ◌∷◌, ◌↔◌, length, drop, IsTrue};
ghost use Rattle.std.specs.List.{list_all};
ghost use Rattle.task_ids.specs.Pattern.{MatchesPattern, matches_pattern};

/// Whether a text matches a pattern: it is the pattern with each `*` replaced by some run of bytes, also the empty one.
/// Each other byte stands for itself.
///
/// No byte of the pattern is compared with the same byte of the text twice.
pub fn matches_pattern(pattern: &str, text: &str) -> bool
    ensures replaced { IsTrue result ↔ MatchesPattern pattern.now text.now }
    ensures test { result ≡ matches_pattern pattern.now text.now }
{
    bytes_match(pattern.as_bytes(), text.as_bytes())
}

fn bytes_match(pattern: &[u8], text: &[u8]) -> bool
    ensures { result ≡ matches_pattern pattern.now text.now }
{
    let mut wanted = pattern;
    let mut rest = text;
    while let Some((first, more)) = wanted.split_first() {
        if *first == b'*' {
            return some_rest_matches(more, rest);
        }
        match rest.split_first() {
            Some((byte, later)) if byte == first => {
                wanted = more;
                rest = later;
            }
            _ => return false,
        }
    }
    rest.is_empty()
}

/// Whether some rest of a text, which may be all or none of it, matches a pattern.
fn some_rest_matches(pattern: &[u8], text: &[u8]) -> bool
    ensures { result ≡ matches_pattern (42 ∷ pattern.now) text.now }
{
    // The pattern after its last `*` so far, and the text after the run that this stands for.
    let mut after = pattern;
    let mut from = text;
    let mut wanted = pattern;
    let mut rest = text;
    while let Some((byte, later)) = rest.split_first() {
        match wanted.split_first() {
            Some((first, more)) if *first == b'*' => {
                after = more;
                from = rest;
                wanted = more;
            }
            Some((first, more)) if first == byte => {
                wanted = more;
                rest = later;
            }
            _ => {
                from = after_first(from);
                wanted = after;
                rest = from;
            }
        }
    }
    all_stars(wanted)
}

fn all_stars(pattern: &[u8]) -> bool
    ensures { result ≡ list_all (λ b. b == 42) pattern.now }
{
    pattern.iter().all(|byte| *byte == b'*')
}

/// All but the first of some bytes.
fn after_first(bytes: &[u8]) -> &[u8]
    requires { 1 ≤ length bytes.now }
    ensures { result.now ≡ drop 1 bytes.now }
{
    &bytes[1..]
}
