ghost use Rattle.std.specs.Prelude.{◌≡◌, ◌<◌, ◌≤◌, length};
ghost use Rattle.std.specs.Option.{SomeIff};
ghost use Rattle.std.specs.Str.Parse.{AllDigits, digits_value};
ghost use Rattle.foz_words.specs.Hex.{hex_text, hex16_value};
ghost use Rattle.std.specs.Char.{digit_char};

/// The value of at most 16 hexadecimal digits of either case. It is `None` exactly where a byte is no digit.
pub fn read_hex(digits: &[u8]) -> Option<u64>
    requires { length digits.now ≤ 16 }
    ensures { SomeIff result (AllDigits 16 digits.now) (digits_value 16 digits.now) }
{
    let mut value = 0u64;
    for byte in digits {
        let digit = char::from(*byte).to_digit(16)?;
        value = value * 16 + u64::from(digit);
    }
    Some(value)
}

/// The value of 16 hexadecimal digits of either case. It is `None` exactly where the bytes are something else.
pub fn read_hex16(bytes: &[u8]) -> Option<u64>
    ensures digits { SomeIff result ((length bytes.now ≡ 16) × AllDigits 16 bytes.now) (digits_value 16 bytes.now) }
    ensures value { result ≡ hex16_value bytes.now }
{
    if bytes.len() == 16 {
        read_hex(bytes)
    } else {
        None
    }
}

/// A number as 16 lower-case digits.
pub fn hex16(n: u64) -> [u8; 16]
    ensures { result ≡ hex_text 16 n }
{
    let mut digits = [0u8; 16];
    let mut rest = n;
    for done in 0..16 {
        digits[15 - done] = digit(rest % 16);
        rest /= 16;
    }
    digits
}

fn digit(value: u64) -> u8
    requires { value < 16 }
    ensures { result ≡ digit_char value }
{
    let value = value as u8;
    if value < 10 {
        b'0' + value
    } else {
        b'a' + (value - 10)
    }
}
