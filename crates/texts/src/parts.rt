//! The parts of a text between the bytes that separate them.

ghost use Rattle.std.specs.Prelude.{◌≡◌, ◌+◌, ◌≤◌, IfSome, length, option_map};
ghost use Rattle.texts.specs.Parts.{Begins, parts};

/// The first part of a text before a byte that separates, and the text behind that byte if it is there. (own)
pub fn first_part(text: &[u8], separator: u8) -> (&[u8], Option<&[u8]>)
    ensures parts { Begins (parts separator text.now) separator result.0.now
        (option_map (λ rest. rest.now) result.1) }
    ensures within { length result.0.now ≤ length text.now }
    ensures behind { IfSome result.1 (λ rest. length text.now ≡ length result.0.now + 1 + length rest.now) }
{
    for (at, byte) in text.iter().enumerate() {
        if *byte == separator {
            return (&text[..at], Some(&text[at + 1..]));
        }
    }
    (text, None)
}
