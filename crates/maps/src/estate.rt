//! The estate map: junctions in rows and columns, each with roads to its neighbours. It stores no table.
ghost use Rattle.std.specs.Prelude.{◌≡◌, ◌*◌, ◌<◌, ◌≤◌, None, Some, MatchResult};
ghost use Rattle.maps.specs.Estate.{estate_rows, estate_place, estate_refusal};
ghost use Rattle.maps.specs.EstateSound.{estate_sound};

use crate::road::Road;
use crate::{MOST_JUNCTIONS, Map, check_place};
use refusals::refusal::Refusal;

/// The numbers that make an estate of `width * height` junctions: junction v is in row v / width and column
/// v % width, and the estate rises from row to row.
#[derive(Clone, Copy, PartialEq, Eq, Debug)]
pub struct EstateNumbers {
    pub width: u32,
    pub height: u32,
    /// How long each road takes, from 1 to 7,200.
    pub seconds: u32,
    /// What a road draws within a row, at most 50,000 watt-hours.
    pub flat: u32,
    /// What a road to the next row draws beyond it, at most 50,000 watt-hours; the road back draws that much less.
    pub rise: u32,
}

/// A map of the junctions of an estate, whose numbers have passed its checks.
#[derive(Clone, Copy)]
pub struct Estate {
    numbers: EstateNumbers,
    ghost sized: { (1 ≤ numbers.width) × (1 ≤ numbers.height) × (numbers.width * numbers.height ≤ 9600) },
    ghost timed: { (1 ≤ numbers.seconds) × (numbers.seconds ≤ 7200) },
    ghost drawn: { (numbers.flat ≤ 50000) × (numbers.rise ≤ 50000) },
}

impl Estate {
    /// The estate of these numbers; refuses its size, then its roads' time, then their draws.
    pub fn new(numbers: EstateNumbers) -> Result<Estate, Refusal>
        ensures refused_by_the_first_failing_check_else_of_these_numbers { MatchResult result (λ m. (estate_refusal numbers ≡ None) × (m.numbers ≡ numbers)) (λ e. estate_refusal numbers ≡ Some e) }
    {
        let EstateNumbers {
            width,
            height,
            seconds,
            flat,
            rise,
        } = numbers;
        let junctions = u64::from(width) * u64::from(height);
        if width == 0 || height == 0 || junctions > u64::from(MOST_JUNCTIONS) {
            return Err(Refusal::EstateSizeOutOfRange);
        }
        if !(1..=7_200).contains(&seconds) {
            return Err(Refusal::RoadTimeOutOfRange);
        }
        if flat > 50_000 || rise > 50_000 {
            return Err(Refusal::EstateDrawTooHigh);
        }
        Ok(Estate { numbers })
    }

    // What is at place `k` of junction `v`.
    fn at(&self, v: u32, k: u32) -> Option<Road>
        requires { v < self.now.numbers.width * self.now.numbers.height }
        ensures { result ≡ estate_place self.now.numbers v k }
    {
        let EstateNumbers {
            width,
            height,
            seconds,
            flat,
            rise,
        } = self.numbers;
        let (head, draw) = match k {
            0 if v / width + 1 < height => (v + width, (flat + rise) as i32),
            1 if v % width + 1 < width => (v + 1, flat as i32),
            2 if 0 < v / width => (v - width, flat as i32 - rise as i32),
            3 if 0 < v % width => (v - 1, flat as i32),
            _ => return None,
        };
        Some(Road {
            head,
            seconds,
            draw,
        })
    }
}

impl Map for Estate {
    ghost rows = { λ m. estate_rows m.numbers };

    ghost sound = { λ m. estate_sound m.numbers m.sized.0 m.sized.1 m.sized.2 m.timed.0 m.timed.1 m.drawn.0 m.drawn.1 };

    fn junctions(&self) -> u32 {
        self.numbers.width * self.numbers.height
    }

    fn place(&self, junction: u32, place: u32) -> Result<Option<Road>, Refusal> {
        check_place(self.junctions(), junction, place)?;
        Ok(self.at(junction, place))
    }
}
