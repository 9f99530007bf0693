ghost use Rattle.std.specs.Prelude.{◌≡◌, [], ◌∷◌, ◌<◌, length, MatchOption, IfSome};
ghost use Rattle.std.specs.Str.Lines.{lines, strip_carriage_return};
ghost use Rattle.shard_docs.specs.Ends.{IsEndOf};

use memchr::memchr;

/// The first line of some bytes, and the bytes after it. There is none exactly where there are no bytes.
///
/// A line ends at a newline, which the last one may miss; one carriage return before a newline is dropped with it.
pub fn split_line(bytes: &[u8]) -> Option<(&[u8], &[u8])>
    ensures found { MatchOption result (bytes.now ≡ []) (λ split. lines bytes.now ≡ split.0.now ∷ lines split.1.now) }
    ensures shorter { IfSome result (λ split. length split.1.now < length bytes.now) }
    ensures ends { IfSome result (λ split. IsEndOf split.1.now bytes.now) }
{
    if bytes.is_empty() {
        return None;
    }
    let Some(end) = memchr(b'\n', bytes) else {
        return Some((bytes, &[]));
    };
    let (line, rest) = bytes.split_at(end);
    Some((without_carriage_return(line), &rest[1..]))
}

fn without_carriage_return(line: &[u8]) -> &[u8]
    ensures { result.now ≡ strip_carriage_return line.now }
{
    match line {
        [front @ .., b'\r'] => front,
        _ => line,
    }
}
