//! Numbers on the command line.
ghost use Rattle.std.specs.Prelude.{◌≡◌, ◌≤◌, IfSome};
ghost use Rattle.std.specs.Char.{is_ascii_digit};
ghost use Rattle.std.specs.List.{list_all};
ghost use Rattle.foz_args.specs.Command.{count_upto, is_number, number_upto};

/// Is the word one to twenty decimal digits? (std would read a number after a plus sign too.)
fn is_number(word: &str) -> bool
    ensures { result ≡ is_number word.now }
{
    let digits = word.as_bytes();
    if digits.is_empty() {
        return false;
    }
    if digits.len() > 20 {
        return false;
    }
    all_digits(digits)
}

fn all_digits(word: &[u8]) -> bool
    ensures { result ≡ list_all is_ascii_digit word.now }
{
    word.iter().all(|digit| digit.is_ascii_digit())
}

/// The number that a word of decimal digits spells, where it is at most this one.
pub(crate) fn number_upto(most: u64, word: &str) -> Option<u64>
    ensures value { result ≡ number_upto most word.now }
    ensures within { IfSome result (λ number. number ≤ most) }
{
    if !is_number(word) {
        return None;
    }
    match word.parse::<u64>() {
        Ok(number) => { if number <= most { Some(number) } else { None } }
        Err(_) => None,
    }
}

/// The number that a word spells, where it is one from 1 to this one.
#[tactic(auto, unfolding(crate::specs::Command::count_upto))]
pub(crate) fn count_upto(most: u32, word: &str) -> Option<u32>
    ensures value { result ≡ count_upto most word.now }
    ensures within { IfSome result (λ count. (1 ≤ count) × (count ≤ most)) }
{
    let number = number_upto(u64::from(most), word)?;
    if number == 0 {
        return None;
    }
    Some(number as u32)
}
