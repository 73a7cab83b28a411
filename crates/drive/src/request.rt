//! What is asked on the command line.
use maps::closures::ShutPlace;
use maps::estate::EstateNumbers;
use std::alloc::{AllocError, Global};
use thiserror::Error;
use walks::trial::ChargedWalk;

/// A walk to try: on which map, with which places shut, from where, with what charge and capacity,
/// its heater at how many watts, and by which places.
#[derive(Drop)]
pub struct Request {
    pub estate: Option<EstateNumbers>,
    pub shut: Vec<ShutPlace>,
    pub start: u32,
    pub charge: u32,
    pub capacity: u32,
    pub watts: u32,
    pub places: Vec<u32>,
}

impl Request {
    /// The walk that is asked for, on whichever map.
    pub(crate) fn walk(&self) -> ChargedWalk<'_> {
        ChargedWalk {
            watts: self.watts,
            capacity: self.capacity,
            start: self.start,
            charge: self.charge,
            places: &self.places,
        }
    }
}

/// Why the words on the command line ask for nothing.
#[derive(Clone, Copy, Debug, Error)]
pub enum BadRequest {
    #[error("too few words")]
    TooFewWords,
    #[error("a word that is no whole number")]
    NotANumber,
    #[error("out of memory")]
    OutOfMemory(#[from(alloc)] AllocError),
}

fn number(word: &str) -> Result<u32, BadRequest> {
    word.parse().map_err(|_| BadRequest::NotANumber)
}

fn numbers(heap: Global, words: &[String]) -> Result<Vec<u32>, BadRequest> {
    words.iter().map(|word| number(word)).try_collect(heap)
}

// The estate that the words after `--estate` name, and the words after it.
fn read_estate(words: &[String]) -> Result<(EstateNumbers, &[String]), BadRequest> {
    let [width, height, seconds, flat, rise, rest @ ..] = words else {
        return Err(BadRequest::TooFewWords);
    };
    let estate = EstateNumbers {
        width: number(width)?,
        height: number(height)?,
        seconds: number(seconds)?,
        flat: number(flat)?,
        rise: number(rise)?,
    };
    Ok((estate, rest))
}

// The places to shut that the words begin with, and the words after them.
fn read_shuts(
    heap: Global,
    mut words: &[String],
) -> Result<(Vec<ShutPlace>, &[String]), BadRequest> {
    let mut shut = Vec::new(heap);
    while let [option, junction, place, rest @ ..] = words
        && option.as_str() == "--shut"
    {
        shut.push(ShutPlace {
            junction: number(junction)?,
            place: number(place)?,
        })?;
        words = rest;
    }
    Ok((shut, words))
}

// The walk that the words ask for: start, charge, capacity, watts, then the places.
fn read_walk(
    heap: Global,
    estate: Option<EstateNumbers>,
    words: &[String],
) -> Result<Request, BadRequest> {
    let (shut, words) = read_shuts(heap, words)?;
    let [start, charge, capacity, watts, walk @ ..] = words else {
        return Err(BadRequest::TooFewWords);
    };
    Ok(Request {
        estate,
        shut,
        start: number(start)?,
        charge: number(charge)?,
        capacity: number(capacity)?,
        watts: number(watts)?,
        places: numbers(heap, walk)?,
    })
}

/// The request that the words make:
/// `[--estate W H T D G] [--shut J K].. START CHARGE CAPACITY WATTS PLACE..`.
pub fn read_request(heap: Global, words: &[String]) -> Result<Request, BadRequest> {
    match words {
        [option, after @ ..] if option.as_str() == "--estate" => {
            let (estate, rest) = read_estate(after)?;
            read_walk(heap, Some(estate), rest)
        }
        _ => read_walk(heap, None, words),
    }
}
