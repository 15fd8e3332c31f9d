// The parts of a text between separators.
ghost use Rattle.std.specs.Prelude.{◌≡◌, [], ◌∷◌, MatchOption};
ghost use Rattle.text.specs.Parts.{split, FirstPart};

// The first part of a text, and what stands behind its separator; none where no separator is left. A request of a block ends so at a
// line feed.
pub fn split_once(bytes: &[u8], separator: u8) -> Option<(&[u8], &[u8])>
    ensures { MatchOption result (split separator bytes.now ≡ bytes.now ∷ []) (λ p. FirstPart separator bytes.now p.0.now p.1.now) }
{
    let end = bytes.iter().position(|byte| *byte == separator)?;
    Some((&bytes[..end], &bytes[end + 1..]))
}
