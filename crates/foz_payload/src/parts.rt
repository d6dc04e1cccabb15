ghost use Rattle.std.specs.Prelude.{◌≡◌, IfSome, IfNone, true, false};
ghost use Rattle.std.specs.List.{position};
ghost use Rattle.foz_payload.specs.Parts.{is_zero, has_zero, json_part, behind_zero};

/// The place of the first zero byte.
fn zero_in(payload: &[u8]) -> Option<usize>
    ensures { result ≡ position is_zero payload.now }
{
    payload.iter().position(|byte| *byte == 0)
}

/// The JSON of a payload: the bytes before the first zero byte, or all.
pub(crate) fn json_part(payload: &[u8]) -> &[u8]
    ensures { result.now ≡ json_part payload.now }
{
    match zero_in(payload) {
        Some(place) => &payload[..place],
        None => payload,
    }
}

/// The JSON and what stands after the first zero byte. It is `None` exactly where there is no zero byte.
pub(crate) fn parts(payload: &[u8]) -> Option<(&[u8], &[u8])>
    ensures some { IfSome result (λ parts. (has_zero payload.now ≡ true) × (parts.0.now ≡ json_part payload.now) × (parts.1.now ≡ behind_zero payload.now)) }
    ensures none { IfNone result (has_zero payload.now ≡ false) }
{
    match zero_in(payload) {
        Some(place) => Some((&payload[..place], &payload[place + 1..])),
        None => None,
    }
}
