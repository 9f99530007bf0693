//! Keep-alives: how long a context is kept that is not used.

ghost use Rattle.std.specs.Prelude.{◌≡◌, ◌≤◌, IfSome};
ghost use Rattle.std.specs.Char.{is_ascii_digit};
ghost use Rattle.std.specs.List.{prefix_len};
ghost use Rattle.std.specs.Str.{IsCharBoundary};
ghost use Rattle.script_lang.specs.KeepAlives as spec;

/// 24 hours in milliseconds: how long a keep-alive and a tick are at most.
pub(crate) const DAY_MS: u64 = 86_400_000;

/// How many milliseconds a unit has, after Elasticsearch's time units.
fn unit_ms(unit: &str) -> Option<u64>
    ensures value { result ≡ spec.unit_ms unit.now }
    ensures some { IfSome result (λ ms. 1 ≤ ms) }
{
    match unit {
        "d" => Some(86_400_000),
        "h" => Some(3_600_000),
        "m" => Some(60_000),
        "s" => Some(1_000),
        "ms" => Some(1),
        _ => None,
    }
}

/// With how many digits a text begins.
fn leading_digits(text: &str) -> usize
    ensures value { result ≡ prefix_len is_ascii_digit text.now }
    ensures cut { IsCharBoundary text.now result }
{
    text.bytes()
        .take_while(|byte| byte.is_ascii_digit())
        .count()
}

fn begins_with_1_to_9(text: &str) -> bool
    ensures { result ≡ spec.begins_with_1_to_9 text.now }
{
    matches!(text.as_bytes().first(), Some(b'1'..=b'9'))
}

/// The milliseconds that a keep-alive's text spells, as `1m`: a whole number from 1 without a sign or a leading zero, and its
/// unit directly after it, one of `d`, `h`, `m`, `s` and `ms`. There is none for another text, and none above 24 hours.
pub(crate) fn keep_alive_of(text: &str) -> Option<u64>
    ensures { result ≡ spec.keep_alive_of text.now }
{
    if !begins_with_1_to_9(text) {
        return None;
    }
    let (digits, unit) = text.split_at(leading_digits(text));
    let unit_ms = unit_ms(unit)?;
    let count = digits.parse::<u64>().ok()?;
    let ms = count.checked_mul(unit_ms)?;
    if ms <= DAY_MS { Some(ms) } else { None }
}
