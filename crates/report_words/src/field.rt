ghost use Rattle.std.specs.Prelude.{◌≡◌};
ghost use Rattle.report_words.specs.Words.{field_word};

use json_fold::FieldCause;

/// The word of why a member can't be read.
pub fn field_word(cause: FieldCause) -> &'static str
    ensures { result.now ≡ field_word cause }
{
    match cause {
        FieldCause::HasPNext => "pnext",
        FieldCause::NotNumber => "number",
        FieldCause::TooLarge => "large",
        FieldCause::NotUnit => "unit",
        FieldCause::NotText => "text",
        FieldCause::NotList => "list",
        FieldCause::NotObject => "object",
        FieldCause::BadLength => "length",
        FieldCause::BadHash => "hash",
        FieldCause::BadBase64 => "base64",
    }
}
