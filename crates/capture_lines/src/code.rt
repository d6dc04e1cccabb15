ghost use Rattle.std.specs.Prelude.{◌≡◌, ◌<◌, length, Some, IfOk, IfSome, IfNone};
ghost use Rattle.capture_lines.specs.Code.{code_bytes, code_words, with_word};

use foz_words::{NoMemory, Row, get_le32, put_le32};
use std::alloc::Global;

/// The words that the bytes spell, four bytes a word, low byte first. It is `None` exactly where the number of bytes
/// isn't divisible by 4.
pub(crate) fn words_of_bytes(alloc: Global, bytes: &[u8]) -> Result<Option<Row<u32>>, NoMemory>
    ensures { IfOk result (λ words. words ≡ code_words bytes.now) }
{
    let mut words = Vec::with_capacity(alloc, bytes.len() / 4)?;
    let mut rest = bytes;
    while let Some((word, more)) = first_word(rest) {
        words.push(word)?;
        rest = more;
    }
    if rest.is_empty() {
        Ok(Some(Row::from_vec(words)))
    } else {
        Ok(None)
    }
}

/// The first word, and the bytes after it. It is `None` exactly where fewer than four bytes stand.
fn first_word(bytes: &[u8]) -> Option<(u32, &[u8])>
    ensures found { IfSome result (λ p. code_words bytes.now ≡ with_word p.0 (code_words p.1.now)) }
    ensures shorter { IfSome result (λ p. length p.1.now < length bytes.now) }
    ensures none { IfNone result (length bytes.now < 4) }
{
    match get_le32(bytes) {
        Some(word) => Some((word, &bytes[4..])),
        None => None,
    }
}

/// The bytes of the words, four a word, low byte first.
pub(crate) fn bytes_of_words(alloc: Global, words: &[u32]) -> Result<Row<u8>, NoMemory>
    ensures bytes { IfOk result (λ bytes. bytes ≡ code_bytes words.now) }
    ensures read_again { IfOk result (λ bytes. code_words bytes ≡ Some words.now) }
{
    let mut bytes = Vec::with_capacity(alloc, 4 * words.len())?;
    for word in words {
        put_le32(&mut bytes, *word)?;
    }
    Ok(Row::from_vec(bytes))
}
