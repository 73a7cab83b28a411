//! Closures over any map: up to 64 places are shut at a time.
ghost use Rattle.maps.specs.Entries.{NoneTwice, is_like, shut_at};
ghost use Rattle.std.specs.Prelude.{◌≡◌, true, length, position, replicate, is_ok, None, MatchResult};
ghost use Rattle.std.specs.Result.{result_err};
ghost use Rattle.maps.specs.Rows.{at};
ghost use Rattle.maps.specs.Closures.{open_rows, shut_refusal, reopen_refusal, OneMoreShut, OneLessShut, OnePlaceChanged};
ghost use Rattle.maps.specs.ClosuresSound.{open_sound};

use crate::road::Road;
use crate::{Map, check_place};
use refusals::refusal::Refusal;

/// A place that is shut.
#[derive(Clone, Copy, PartialEq, Eq, Debug)]
pub struct ShutPlace {
    /// The junction that it is of.
    pub junction: u32,
    pub place: u32,
}

/// A map with some places shut: a shut place is empty, and all others are as on the map below.
#[derive(Drop)]
pub struct Closures<M> {
    below: M,
    // A fixed array, and no set: a map takes no memory of its own.
    entries: [Option<ShutPlace>; 64],
    ghost once: { NoneTwice entries },
}

impl<M> Closures<M> {
    // The first entry like this one: the one that shuts a place, or a free one.
    fn find(&self, wanted: Option<ShutPlace>) -> Option<usize>
        ensures { result ≡ position (is_like wanted) self.now.entries }
    {
        self.entries.iter().position(|entry| *entry == wanted)
    }

    fn is_shut(&self, junction: u32, place: u32) -> bool
        ensures { result ≡ shut_at self.now.entries junction place }
    {
        self.entries.contains(&Some(ShutPlace { junction, place }))
    }
}

impl<M: Map + Drop> Closures<M> {
    /// The map with no place shut.
    pub fn over(below: M) -> Closures<M>
        ensures no_place_shut { (result.below ≡ below) × (result.entries ≡ replicate 64 None) }
    {
        Closures {
            below,
            entries: [None; 64],
        }
    }

    /// Shuts a place; an empty one too. Refuses a place that is shut already, or a sixty-fifth.
    pub fn shut(&mut self, junction: u32, place: u32) -> Result<(), Refusal>
        ensures refused_by_the_first_failing_check { result_err result ≡ shut_refusal (length (M.Map.rows self.old.below)) self.old.entries junction place }
        ensures unchanged_when_refused { MatchResult result (λ _. self.new.below ≡ self.old.below) (λ _. self.new ≡ self.old) }
        ensures that_place_and_no_other_is_shut { is_ok result ≡ true → OneMoreShut junction place self.old.entries self.new.entries }
        ensures that_place_is_empty_and_no_other_changed { is_ok result ≡ true → OnePlaceChanged junction place None (open_rows self.old.entries (M.Map.rows self.old.below)) (open_rows self.new.entries (M.Map.rows self.new.below)) }
    {
        check_place(self.below.junctions(), junction, place)?;
        if self.is_shut(junction, place) {
            return Err(Refusal::PlaceAlreadyShut);
        }
        let free = self.find(None).ok_or(Refusal::SixtyFourShut)?;
        // An entry is changed through a method of its own alone.
        self.entries[free].replace(ShutPlace { junction, place });
        Ok(())
    }

    /// Reopens a shut place, and frees its entry for another. Refuses a place that is not shut.
    pub fn reopen(&mut self, junction: u32, place: u32) -> Result<(), Refusal>
        ensures refused_by_the_first_failing_check { result_err result ≡ reopen_refusal (length (M.Map.rows self.old.below)) self.old.entries junction place }
        ensures unchanged_when_refused { MatchResult result (λ _. self.new.below ≡ self.old.below) (λ _. self.new ≡ self.old) }
        ensures that_place_and_no_other_is_open { is_ok result ≡ true → OneLessShut junction place self.old.entries self.new.entries }
        ensures that_place_is_as_below_and_no_other_changed { is_ok result ≡ true → OnePlaceChanged junction place (at (M.Map.rows self.old.below) junction place) (open_rows self.old.entries (M.Map.rows self.old.below)) (open_rows self.new.entries (M.Map.rows self.new.below)) }
    {
        check_place(self.below.junctions(), junction, place)?;
        let shut = self
            .find(Some(ShutPlace { junction, place }))
            .ok_or(Refusal::PlaceNotShut)?;
        // An entry is changed through a method of its own alone.
        self.entries[shut].take();
        Ok(())
    }
}

impl<M: Map> Map for Closures<M> {
    ghost rows = { λ m. open_rows m.entries (M.Map.rows m.below) };

    ghost sound = { λ m. open_sound m.entries (M.Map.rows m.below) (M.Map.sound m.below) };

    fn junctions(&self) -> u32 {
        self.below.junctions()
    }

    fn place(&self, junction: u32, place: u32) -> Result<Option<Road>, Refusal> {
        let road = self.below.place(junction, place)?;
        Ok(if self.is_shut(junction, place) {
            None
        } else {
            road
        })
    }
}
