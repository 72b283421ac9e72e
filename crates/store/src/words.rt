// Words of a slice: reading one, storing one, clearing all, copying all.
ghost use Rattle.std.specs.Prelude.{◌≡◌, length, get_or, set, replicate};
ghost use Rattle.store.specs.Words.{copied};

// A word; past the end 0, so that any memory can be read.
pub(crate) fn word(words: &[u32], at: usize) -> u32
    ensures { result ≡ get_or words.now at 0 }
{
    words.get(at).copied().unwrap_or(0)
}

// A word is stored; past the end nothing is done. By index, since the contract of `get_mut` does not say what the slice ends as.
pub fn put_word(words: &mut [u32], at: usize, value: u32)
    ensures { words.new ≡ set words.old at value }
{
    if at < words.len() {
        words[at] = value;
    }
}

// Makes every word zero.
pub fn clear(words: &mut [u32])
    ensures { words.new ≡ replicate (length words.old) 0 }
{
    words.fill(0);
}

// Copies words over others, as far as there are any and there is room.
pub fn copy(from: &[u32], to: &mut [u32])
    ensures { to.new ≡ copied from.now to.old }
{
    let common = from.len().min(to.len());
    to[..common].copy_from_slice(&from[..common]);
}
