ghost use Rattle.std.specs.Prelude.{◌≡◌, length, false};
ghost use Rattle.std.specs.List.{list_any, take_while};
ghost use Rattle.float_fold.specs.Pieces.{begins_number, goes_on_number, is_float_mark, piece_rest, text_rest};
ghost use Rattle.float_fold.specs.Folding.{folded_piece, folded_token};
ghost use Rattle.float_fold.specs.Fate.{outcome};

use memchr::memchr2;

/// Whether a number token begins with the byte.
pub fn begins_number(byte: u8) -> bool
    ensures { result ≡ begins_number byte }
{
    byte.is_ascii_digit() || byte == b'-'
}

fn is_float_mark(byte: u8) -> bool
    ensures { result ≡ is_float_mark byte }
{
    byte == b'.' || byte == b'e' || byte == b'E'
}

fn goes_on_number(byte: u8) -> bool
    ensures { result ≡ goes_on_number byte }
{
    begins_number(byte) || byte == b'+' || is_float_mark(byte)
}

/// How many bytes follow the first in the piece that it begins.
#[tactic(auto, unfolding(crate::specs::Pieces::piece_rest))]
pub fn rest_of_piece(first: u8, bytes: &[u8]) -> usize
    ensures { result ≡ length (piece_rest first bytes.now) }
{
    if first == b'"' {
        rest_of_text(bytes)
    } else if begins_number(first) {
        rest_of_number(bytes)
    } else {
        0
    }
}

fn rest_of_text(bytes: &[u8]) -> usize
    ensures { result ≡ length (text_rest false bytes.now) }
{
    let mut at = 0;
    while let Some(plain) = memchr2(b'"', b'\\', &bytes[at..]) {
        let mark = at + plain;
        if bytes[mark] == b'"' {
            return mark + 1;
        }
        // The byte after a backslash is passed over, where there is one.
        at = bytes.len().min(mark + 2);
    }
    bytes.len()
}

fn rest_of_number(bytes: &[u8]) -> usize
    ensures { result ≡ length (take_while goes_on_number bytes.now) }
{
    bytes
        .iter()
        .take_while(|byte| goes_on_number(**byte))
        .count()
}

/// What becomes of a piece.
#[derive(Clone, Copy, Debug, PartialEq, Eq)]
pub enum Fate {
    /// It stays as it is.
    Stays,
    /// Its first byte stays.
    ToFirst,
    /// It is a float that doesn't fold.
    Refused,
}

/// What folding makes of a piece: it folds only as a number token.
pub fn fate_of(piece: &[u8]) -> Fate
    ensures { folded_piece piece.now ≡ outcome result piece.now }
{
    match piece.first() {
        Some(first) if begins_number(*first) => fate_of_token(piece),
        _ => Fate::Stays,
    }
}

fn fate_of_token(token: &[u8]) -> Fate
    ensures { folded_token token.now ≡ outcome result token.now }
{
    if token == b"0.0".as_slice() || token == b"1.0".as_slice() {
        Fate::ToFirst
    } else if has_float_mark(token) {
        Fate::Refused
    } else {
        Fate::Stays
    }
}

fn has_float_mark(token: &[u8]) -> bool
    ensures { result ≡ list_any is_float_mark token.now }
{
    token.iter().any(|byte| is_float_mark(*byte))
}
