// Free words.
ghost use Rattle.std.specs.Prelude.{◌≡◌};
ghost use Rattle.checking.specs.Zeros.{zeros_between};

// Whether every word from one index up to another is 0, as far as there are any.
pub(crate) fn zeros_between(words: &[u32], from: usize, to: usize) -> bool
    ensures { result ≡ zeros_between from to words.now }
{
    let end = to.min(words.len());
    let start = from.min(end);
    words[start..end].iter().all(|&word| word == 0)
}
