//! Road maps: junctions, each with twelve places that are empty or hold one road.
#![tactic(auto)]

ghost use Rattle.std.specs.Prelude.{◌≡◌, ◌<◌, length, IfOk};
ghost use Rattle.std.specs.Result.{result_err};
ghost use Rattle.maps.specs.Rows.{Rows, Sound, answered, place_refusal};

use refusals::refusal::Refusal;
use road::Road;

pub mod closures;
pub mod estate;
pub mod heater;
pub mod road;
pub mod table;

/// The most junctions that a map has.
pub const MOST_JUNCTIONS: u32 = 9_600;

/// Every make of map answers two questions; a question alters nothing.
pub trait Map {
    // what the map means: its rows, one for each junction, of twelve places each
    ghost rows: { Self → Rows };

    // at most 9,600 junctions, twelve places each, every road in range and leading to a junction of the map
    ghost sound: { (m : Self) → Sound (rows m) };

    /// How many junctions there are.
    fn junctions(&self) -> u32
        ensures { result ≡ length (rows self.now) };

    /// What is at a place of a junction; refuses a junction off the map, then a place above 11.
    fn place(&self, junction: u32, place: u32) -> Result<Option<Road>, Refusal>
        ensures { result ≡ answered (rows self.now) junction place };
}

// Refuses a junction that is none of so many, then a place above 11.
fn check_place(junctions: u32, junction: u32, place: u32) -> Result<(), Refusal>
    ensures refused_by_the_first_failing_check { result_err result ≡ place_refusal junctions junction place }
    ensures accepted_on_the_map { IfOk result (λ _. (junction < junctions) × (place < 12)) }
{
    if junction >= junctions {
        return Err(Refusal::JunctionOffMap);
    }
    if place > 11 {
        return Err(Refusal::PlaceAboveEleven);
    }
    Ok(())
}
