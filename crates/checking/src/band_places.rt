// The test of the band places.
#![tactic(auto, using(crate::proofs::Joined::joined), unfolding(crate::specs::BandPlaces::band_place_free, crate::specs::BandPlaces::band_place_taken, crate::specs::BandPlaces::band_place_right))]

ghost use Rattle.std.specs.Prelude.{◌≡◌};
ghost use Rattle.checking.specs.BandPlaces.{band_place_free, band_place_taken, band_place_right, band_places_right};

use crate::zeros;

// Whether the place of a number is free.
fn place_free(bands: &[u32], number: u32) -> bool
    ensures { result ≡ band_place_free bands.now number }
{
    let first = number as usize * store::BAND_PLACE_WORDS;
    zeros::zeros_between(bands, first, first + store::BAND_PLACE_WORDS)
}

// Whether the place of a number has a right band.
fn place_taken(bands: &[u32], number: u32) -> bool
    ensures { result ≡ band_place_taken bands.now number }
{
    let first = number as usize * store::BAND_PLACE_WORDS;
    store::band_word(bands, number, store::LIVE) == 1
        && store::band_word(bands, number, store::LOW_CLOSED) <= 1
        && store::band_word(bands, number, store::HIGH_CLOSED) <= 1
        && zeros::zeros_between(
            bands,
            first + store::RESERVE,
            first + store::BAND_PLACE_WORDS,
        )
        && store::band_at(bands, number).fault().is_ok()
}

// Whether the place of a number is free or has a right band.
fn place_right(bands: &[u32], number: u32) -> bool
    ensures { result ≡ band_place_right bands.now number }
{
    place_free(bands, number) || place_taken(bands, number)
}

// Whether each of the 1,024 places is free or has a right band.
pub(crate) fn band_places_right(bands: &[u32]) -> bool
    ensures { result ≡ band_places_right bands.now }
{
    (0..store::BAND_PLACES).all(|number| place_right(bands, number))
}
