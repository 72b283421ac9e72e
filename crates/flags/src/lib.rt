// The 1,024 flags of an answer, one for each band number, in sixteen 64-bit words.
#![tactic(auto)]

ghost use Rattle.std.specs.Prelude.{◌≡◌};
ghost use Rattle.flags.specs.FlagWords.{with_flag, flag_is_set, Counted};

const NUMBERS: u32 = 1024;

// Sets the number's flag. A number above 1,023 has none, and nothing changes.
pub fn set(flags: &mut [u64; 16], number: u32)
    ensures { flags.new ≡ with_flag flags.old number }
{
    if number < NUMBERS {
        flags[(number / 64) as usize] |= 1u64 << (number % 64);
    }
}

// Whether the number's flag is set.
pub fn is_set(flags: &[u64; 16], number: u32) -> bool
    ensures { result ≡ flag_is_set flags.now number }
{
    number < NUMBERS && (flags[(number / 64) as usize] >> (number % 64)) & 1 == 1
}

// How many flags are set: the ones of the sixteen words, summed.
pub fn count(flags: &[u64; 16]) -> u32
    ensures { Counted flags.now result }
{
    flags.iter().map(|word| word.count_ones()).sum()
}
