//! The search by halving, over a probe that knows its first true place.
ghost use Rattle.std.specs.Prelude.{nat_le};
ghost use Rattle.zarrs_chunk_base.specs.Greatest.{greatest};

use std::process::Abort;
use zarrs_chunk_runs::{Probe, first_above};

/// Truths that begin at a place, or none where that is the number of places.
#[derive(Drop)]
struct TrueFrom {
    first: usize,
    places: usize,
    asked: u64,
}

impl Probe for TrueFrom {
    ghost extent = { λ probe. probe.places };

    ghost truth = { λ probe k. nat_le probe.first k };

    ghost asked = { λ probe. probe.asked };

    fn places(&self) -> usize {
        self.places
    }

    fn above(&mut self, place: usize) -> bool {
        self.asked = self.asked.saturating_add(1);
        self.first <= place
    }
}

/// The first true place is found, with at least one question where there are places, and at most so many.
fn check_search(rt: &impl Abort, first: usize, places: usize, digits: u64) {
    let mut probe = TrueFrom {
        first,
        places,
        asked: 0,
    };
    let found = first_above(&mut probe) == first;
    let few = probe.asked <= digits;
    let some = probe.asked > 0 || places == 0;
    assert!(rt; found && few && some, "{first} of {places}");
}

#[test]
fn searches_ask_as_often_as_the_number_of_places_has_binary_digits(rt: HostRuntime) {
    check_search(&rt, 2, 4, 3);
    check_search(&rt, 4, 4, 3);
    check_search(&rt, 0, 0, 0);
    check_search(&rt, 0, 1, 1);
    check_search(&rt, 1, 1, 1);
    check_search(&rt, 600, 1000, 10);
    check_search(&rt, 0, 1023, 10);
    check_search(&rt, 1024, 1024, 11);
}

#[test]
fn a_count_stays_at_its_end(rt: HostRuntime) {
    let mut probe = TrueFrom {
        first: 2,
        places: 4,
        asked: u64::MAX - 1,
    };
    for _ in 0..2 {
        let found = first_above(&mut probe);
        assert!(rt; found == 2 && probe.asked == u64::MAX);
    }
}
