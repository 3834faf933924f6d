//! Sets of numbers below a bound.

use crate::lists::set_at;
use std::alloc::{AllocError, Global};

/// Numbers below a bound, each once, in room for all.
#[derive(Drop)]
pub(crate) struct NumberSet {
    numbers: Vec<usize>,
    count: usize,
    places: Vec<Option<usize>>,
}

impl NumberSet {
    /// None of the numbers below a bound.
    ///
    /// # Errors
    /// Only where memory runs out.
    pub(crate) fn new(alloc: Global, bound: usize) -> Result<NumberSet, AllocError> {
        Ok(NumberSet {
            numbers: vec![in alloc; 0; bound]?,
            count: 0,
            places: vec![in alloc; None; bound]?,
        })
    }

    /// The numbers in it, in no certain order.
    pub(crate) fn numbers(&self) -> &[usize] {
        let count = self.count.min(self.numbers.len());
        &self.numbers[..count]
    }

    /// Whether a number is in it.
    pub(crate) fn has(&self, number: usize) -> bool {
        match self.places.get(number) {
            Some(place) => place.is_some(),
            None => false,
        }
    }

    /// Puts in these numbers.
    pub(crate) fn add_all(&mut self, numbers: &[usize]) {
        for number in numbers {
            self.add(*number);
        }
    }

    /// Puts in a number.
    pub(crate) fn add(&mut self, number: usize) {
        let Some(None) = self.places.get(number).copied() else {
            return;
        };
        self.put(number, self.count);
        self.count = self.count.saturating_add(1);
    }

    /// Takes out a number: the last one comes to its place.
    pub(crate) fn remove(&mut self, number: usize) {
        let Some(Some(place)) = self.places.get(number).copied() else {
            return;
        };
        self.count = self.count.saturating_sub(1);
        if let Some(last) = self.numbers.get(self.count).copied() {
            self.put(last, place);
        }
        set_at(&mut self.places, number, None);
    }

    /// Gives a number a place.
    fn put(&mut self, number: usize, place: usize) {
        set_at(&mut self.numbers, place, number);
        set_at(&mut self.places, number, Some(place));
    }

    /// Takes out all numbers.
    pub(crate) fn clear(&mut self) {
        let count = self.count.min(self.numbers.len());
        for number in &self.numbers[..count] {
            set_at(&mut self.places, *number, None);
        }
        self.count = 0;
    }
}
