// A word parted at a byte.
ghost use Rattle.std.specs.Prelude.{◌≡◌, ◌≢◌, ℕ, ◌<◌, ◌∷◌, ◌++◌, length, slice_index, IfSome, IfNone};

// What stands before the byte's first place, and what stands behind it; none where the byte does not stand.
pub(crate) fn split_once(word: &[u8], byte: u8) -> Option<(&[u8], &[u8])>
    ensures parted { IfSome result (λ parts. word.now ≡ parts.0.now ++ byte ∷ parts.1.now) }
    ensures first { IfSome result (λ parts. (k : ℕ) → k < length parts.0.now → slice_index parts.0.now k ≢ byte) }
    ensures absent { IfNone result ((k : ℕ) → k < length word.now → slice_index word.now k ≢ byte) }
{
    let place = word.iter().position(|here| *here == byte)?;
    Some((&word[..place], &word[place + 1..]))
}
