// The band readout.
ghost use Rattle.std.specs.Prelude.{◌≡◌};
ghost use Rattle.store.specs.LentMemory.{words_in};
ghost use Rattle.store.specs.Came.{asked, telling};
ghost use Rattle.asking.specs.BandCall.{band_in};
ghost use Rattle.asking.specs.Says.{band_read_says};

use hall::{Band, BandRead, Refusal};
use store::Memory;

// The band of a number.
pub fn band(memory: Memory<'_>, number: u32) -> Result<BandRead, Refusal>
    ensures { asked (band_read_says result) (words_in memory.exit) ≡ telling (λ m. band_in m number) (words_in memory.entry) }
{
    if !memory.sizes_right() {
        return Err(Refusal::MemoryUnfit);
    }
    if Band::HIGHEST_NUMBER < number {
        return Err(Refusal::NumberAbove);
    }
    if !store::is_live(memory.bands, number) {
        return Err(Refusal::NumberNotLive);
    }
    let band = store::band_at(memory.bands, number);
    Ok(BandRead {
        scope: band.scope,
        low: band.low,
        high: band.high,
        low_closed: band.low_closed,
        high_closed: band.high_closed,
    })
}
