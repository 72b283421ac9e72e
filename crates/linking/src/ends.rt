// The places of the bands' ends, noted.
ghost use Rattle.std.specs.Prelude.{◌≡◌, ◌<◌, set, IfSome};
ghost use Rattle.rules.specs.Connectives.{says_yes};
ghost use Rattle.rules.specs.Lists.{all};
ghost use Rattle.search.specs.PlaceOf.{place_said};
ghost use Rattle.linking.specs.EndPlaces.{end_places_of, end_places, noted};

// A place for each node, and one for the header.
pub const MOST_PLACES: usize = store::MOST_NODES + 1;

// Notes an end's place, and answers whether it has one. Word 0 is no node's: an end that has no place is noted there, as `noted` has it.
fn note(place: Option<u32>, found: &mut [u32]) -> bool
    requires { IfSome place (λ p. 0 < p) }
    ensures { (result ≡ says_yes (place_said place)) × (found.new ≡ set found.old (place_said place) 1) }
{
    store::put_word(found, place.unwrap_or(store::HEADER) as usize, 1);
    place.is_some()
}

// Notes the places of the ends of the band of a number, if it is live, and answers whether all have one.
fn note_ends_of(bands: &[u32], nodes: &[u32], number: u32, found: &mut [u32]) -> bool
    ensures { (result ≡ all says_yes (end_places_of bands.now nodes.now number))
        × (found.new ≡ noted found.old (end_places_of bands.now nodes.now number)) }
{
    if !store::is_live(bands, number) {
        return true;
    }
    let band = store::band_at(bands, number);
    let low = note(search::place_of(nodes, band.low), found);
    let high = note(search::place_of(nodes, band.high), found);
    low & high
}

// Notes the places of the ends of all live bands, and answers whether all have one. Bands and nodes come apart: one value of both, as marks are walked
// by, would ask that the nodes in use are few, which this does not.
pub fn note_ends(bands: &[u32], nodes: &[u32], found: &mut [u32]) -> bool
    ensures { (result ≡ all says_yes (end_places bands.now nodes.now))
        × (found.new ≡ noted found.old (end_places bands.now nodes.now)) }
{
    let mut right = true;
    for number in 0..store::BAND_PLACES {
        right &= note_ends_of(bands, nodes, number, found);
    }
    right
}
