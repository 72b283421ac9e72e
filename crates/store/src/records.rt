// Reading the band that a place says, and laying one there.
ghost use Rattle.std.specs.Prelude.{◌≡◌};
ghost use Rattle.std.proofs.Math.Option.{none, some};
ghost use Rattle.rules.specs.Connectives.{one_if, says_yes};
ghost use Rattle.hall.specs.SaidBand.{said};
ghost use Rattle.store.specs.Places.{band_field, live_field};
ghost use Rattle.store.specs.SaidProfile.{said_band};
ghost use Rattle.store.specs.WithBand.{with_fields, with_place_of};

use crate::places;
use hall::{Band, Key};

// Whether the place of a number says that it is live.
pub fn is_live(bands: &[u32], number: u32) -> bool
    ensures { result ≡ says_yes (band_field bands.now number live_field) }
{
    places::band_word(bands, number, places::LIVE) != 0
}

// The band that the place of a number says, live or not.
#[tactic(auto, unfolding(crate::specs::SaidProfile::said_band))]
pub fn band_at(bands: &[u32], number: u32) -> Band
    ensures { said result ≡ said_band bands.now number }
{
    Band {
        number,
        scope: places::band_word(bands, number, places::SCOPE),
        low: Key(places::band_word(bands, number, places::LOW)),
        high: Key(places::band_word(bands, number, places::HIGH)),
        low_closed: places::band_word(bands, number, places::LOW_CLOSED) != 0,
        high_closed: places::band_word(bands, number, places::HIGH_CLOSED) != 0,
    }
}

// The fields of the place of the band's number are stored: whether it is live, and the band's. A free place has zeros, as the band of zeros.
#[tactic(auto, unfolding(crate::specs::WithBand::with_fields))]
fn put_fields(bands: &mut [u32], live: bool, band: Band)
    ensures { bands.new ≡ with_fields
        band.number
        (one_if live)
        band.scope
        band.low.0
        band.high.0
        (one_if band.low_closed)
        (one_if band.high_closed)
        bands.old }
{
    places::put_band_word(bands, band.number, places::LIVE, u32::from(live));
    places::put_band_word(bands, band.number, places::SCOPE, band.scope);
    places::put_band_word(bands, band.number, places::LOW, band.low.0);
    places::put_band_word(bands, band.number, places::HIGH, band.high.0);
    places::put_band_word(
        bands,
        band.number,
        places::LOW_CLOSED,
        u32::from(band.low_closed),
    );
    places::put_band_word(
        bands,
        band.number,
        places::HIGH_CLOSED,
        u32::from(band.high_closed),
    );
}

// Lays a band in the place of its number.
#[tactic(auto, unfolding(crate::specs::WithBand::with_place_of))]
pub fn put_band(bands: &mut [u32], band: Band)
    ensures { bands.new ≡ with_place_of (some (said band)) band.number bands.old }
{
    put_fields(bands, true, band);
}

// Frees the place of a number.
#[tactic(auto, unfolding(crate::specs::WithBand::with_place_of))]
pub fn drop_band(bands: &mut [u32], number: u32)
    ensures { bands.new ≡ with_place_of none number bands.old }
{
    let zeros = Band {
        number,
        scope: 0,
        low: Key(0),
        high: Key(0),
        low_closed: false,
        high_closed: false,
    };
    put_fields(bands, false, zeros);
}
