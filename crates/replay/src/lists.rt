// Lists of up to eight words of a record in a row, as numbers, bytes or doubles.

use crate::record::Record;
use std::array::from_fn;

pub(crate) trait Word {
    fn of(record: &Record, at: usize) -> Self;
}

impl Word for u32 {
    fn of(record: &Record, at: usize) -> u32 {
        record.number(at)
    }
}

impl Word for u8 {
    fn of(record: &Record, at: usize) -> u8 {
        record.byte(at)
    }
}

impl Word for f64 {
    fn of(record: &Record, at: usize) -> f64 {
        record.float(at)
    }
}

// The eight places, and how many of them count: a record has them all, whatever its count says.
#[derive(Drop)]
pub(crate) struct Few<T> {
    places: [T; 8],
    count: u32,
}

impl<T: Word> Few<T> {
    pub(crate) fn read(record: &Record, at: usize, count: u32) -> Few<T> {
        Few {
            places: from_fn(|i| T::of(record, at.saturating_add(i))),
            count,
        }
    }

    pub(crate) fn all(&self) -> &[T] {
        &self.places[..self.count.min(8) as usize]
    }
}
