//! Bytes cut into pieces: a text into lines, and a line into words.
ghost use Rattle.std.specs.Prelude.{◌≡◌, ◌∷◌, ◌+◌, ◌<◌, length, drop, IfSome};
ghost use Rattle.text.specs.Lines.{pieces, pieces_of};

/// The piece before the first `stop`, and what is left after it.
pub(crate) fn cut(bytes: &[u8], stop: u8) -> (&[u8], Option<&[u8]>)
    ensures pieces { pieces stop bytes.now ≡ result.0.now ∷ pieces_of stop result.1 }
    ensures rest { IfSome result.1 (λ rest. rest.now ≡ drop (length result.0.now + 1) bytes.now) }
    ensures shorter { IfSome result.1 (λ rest. length rest.now < length bytes.now) }
{
    match bytes.iter().position(|byte| *byte == stop) {
        Some(end) => (&bytes[..end], Some(&bytes[end + 1..])),
        None => (bytes, None),
    }
}
