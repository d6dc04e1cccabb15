ghost use Rattle.std.specs.Prelude.{◌≡◌, ◌≤◌, ◌<◌, ◌+◌, ◌∷◌, [], length, IfSome, IfNone};
ghost use Rattle.input_lines.specs.Lines.{lines_of};

use memchr::memchr;

/// The first line of what is left of an input, without its line feed, and what stands after it. It is `None` exactly
/// where nothing is left.
pub fn first_line(input: &[u8]) -> Option<(&[u8], &[u8])>
    ensures first { IfSome result (λ parts. lines_of input.now ≡ parts.0.now ∷ lines_of parts.1.now) }
    ensures none { IfNone result (input.now ≡ []) }
    ensures within { IfSome result (λ parts. length parts.0.now + length parts.1.now ≤ length input.now) }
    ensures shorter { IfSome result (λ parts. length parts.1.now < length input.now) }
{
    if input.is_empty() {
        return None;
    }
    match memchr(b'\n', input) {
        Some(at) => Some((&input[..at], &input[at + 1..])),
        None => Some((input, &[])),
    }
}
