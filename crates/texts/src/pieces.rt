// The pieces of a text between the bytes of one value.
ghost use Rattle.std.specs.Prelude.{◌≡◌, ◌+◌, ◌<◌, ◌≤◌, [], ◌∷◌, length, take, drop, IfSome, MatchOption, slice_index_or};
ghost use Rattle.graggle.specs.Texts.{split};

// How many bytes stand before the first `mark`.
pub fn find(text: &[u8], mark: u8) -> usize
    ensures within { result ≤ length text.now }
    ensures none { result ≡ length text.now → split mark text.now ≡ text.now ∷ [] }
    ensures first { result < length text.now → split mark text.now ≡ take result text.now ∷ split mark (drop (result + 1) text.now) }
{
    text.iter()
        .position(|byte| *byte == mark)
        .unwrap_or(text.len())
}

// How many of the bytes are `mark`: one less than there are pieces.
pub fn marks(text: &[u8], mark: u8) -> usize
    ensures within { result ≤ length text.now }
    ensures pieces { result + 1 ≡ length (split mark text.now) }
{
    text.iter().filter(|byte| **byte == mark).count()
}

// The text before the first `mark` and the text behind it; nothing where there is no mark.
pub fn split_first(text: &[u8], mark: u8) -> Option<(&[u8], &[u8])>
    ensures parts { MatchOption result (split mark text.now ≡ text.now ∷ []) (λ p. split mark text.now ≡ p.0.now ∷ split mark p.1.now) }
    ensures lengths { IfSome result (λ p. length p.0.now + length p.1.now + 1 ≡ length text.now) }
{
    let (before, rest) = text.split_at(find(text, mark));
    let (_, behind) = rest.split_first()?;
    Some((before, behind))
}

// The piece at a place, blank where there is none.
pub fn piece(text: &[u8], mark: u8, place: usize) -> &[u8]
    ensures { result.now ≡ slice_index_or (split mark text.now) place [] }
{
    text.split(|byte| *byte == mark).nth(place).unwrap_or(&[])
}
