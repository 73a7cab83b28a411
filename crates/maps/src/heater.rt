//! The heater over any map: each road draws more, by the heater's power and the road's time.
ghost use Rattle.std.specs.Prelude.{◌≡◌, ◌<◌, ◌≤◌, pos, negsuc, ◌≤ℤ◌, MatchResult};
ghost use Rattle.maps.specs.Heater.{heated_road, heated_rows};
ghost use Rattle.maps.specs.HeaterSound.{heated_sound};
ghost use Rattle.refusals.specs.declared.refusal.Refusal.TheVariants.{HeaterPowerTooHigh};

use crate::Map;
use crate::road::Road;
use refusals::refusal::Refusal;

/// The power of a heater: from 0 to 6,000 watts.
#[derive(Clone, Copy)]
pub struct Power {
    watts: u32,
    ghost limited: { watts ≤ 6000 },
}

/// A map with a heater on: its own map, with the heater's draw on every road.
#[derive(Drop)]
pub struct Heater<M> {
    below: M,
    power: Power,
}

impl Power {
    /// A power of so many watts; refuses more than 6,000.
    pub fn new(watts: u32) -> Result<Power, Refusal>
        ensures accepted_exactly_up_to_6000_watts { MatchResult result (λ p. (watts ≤ 6000) × (p.watts ≡ watts)) (λ e. (6000 < watts) × (e ≡ HeaterPowerTooHigh)) }
    {
        if watts > 6_000 {
            return Err(Refusal::HeaterPowerTooHigh);
        }
        Ok(Power { watts })
    }

    // What a road becomes under a heater of this power, or none where its draw would pass 100,000.
    fn heat(self, road: Road) -> Option<Road>
        requires { (road.seconds ≤ 7200) × (negsuc 99999 ≤ℤ road.draw) × (road.draw ≤ℤ pos 100000) }
        ensures { result ≡ heated_road self.watts road }
    {
        let extra = (self.watts * road.seconds).div_ceil(3_600);
        let draw = road.draw + extra as i32;
        (draw <= 100_000).then_some(Road { draw, ..road })
    }
}

impl<M: Map + Drop> Heater<M> {
    /// A heater of this power over a map.
    pub fn over(below: M, power: Power) -> Heater<M>
        ensures over_this_map_with_this_power { (result.below ≡ below) × (result.power ≡ power) }
    {
        Heater { below, power }
    }
}

impl<M: Map> Map for Heater<M> {
    ghost rows = { λ m. heated_rows m.power.watts (M.Map.rows m.below) };

    ghost sound = { λ m. heated_sound m.power.watts (M.Map.rows m.below) (M.Map.sound m.below) };

    fn junctions(&self) -> u32 {
        self.below.junctions()
    }

    fn place(&self, junction: u32, place: u32) -> Result<Option<Road>, Refusal> {
        let road = self.below.place(junction, place)?;
        Ok(road.and_then(|road| self.power.heat(road)))
    }
}
