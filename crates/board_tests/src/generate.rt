// Requests that look random, the same ones for the same seed.
use crate::requests::*;
use crate::tables::Tables;
use board::request::{Quantifier, Request};
use std::alloc::{AllocError, Global};
use std::collections::BTreeMap;
use std::test::Fail;

// Requests for a board of the width, without end.
#[derive(Drop)]
pub struct Source {
    state: u64,
    width: usize,
}

impl Source {
    pub fn new(seed: u64, width: usize) -> Source {
        Source { state: seed, width }
    }

    // The next number, of 32 bits.
    fn number(&mut self) -> usize {
        self.state = self
            .state
            .wrapping_mul(6364136223846793005)
            .wrapping_add(1442695040888963407);
        (self.state >> 32) as usize
    }

    fn value(&mut self) -> bool {
        self.number() % 2 == 1
    }

    // Mostly one of the first eight, else the last one, and now and then one past it.
    fn sheet(&mut self) -> usize {
        match self.number() % 32 {
            0 => 64,
            1 | 2 => 63,
            n => n % 8,
        }
    }

    // A place of the width, or the first past it.
    fn place(&mut self) -> usize {
        self.number() % self.width.saturating_add(1)
    }

    // A code, or the first past them.
    fn code(&mut self) -> u8 {
        (self.number() % 17) as u8
    }
}

impl Iterator for Source {
    type Item = Request;

    // Atoms and joins come more often than others.
    fn next(&mut self) -> Option<Request> {
        let d = self.sheet();
        let a = self.sheet();
        let b = self.sheet();
        let p = self.place();
        let c = self.code();
        let v = self.value();
        let request = match self.number() % 12 {
            0 => blank(d, v),
            1..=3 => atom(d, p),
            4 => flip(d),
            5 => quantify(d, a, p, Quantifier::ForAll),
            6 => quantify(d, a, p, Quantifier::Exists),
            7 => fix(d, a, p, v),
            _ => join(d, a, b, c),
        };
        Some(request)
    }
}

// The kind of a call.
#[derive(Clone, Copy, PartialEq, Eq, PartialOrd, Ord, Debug)]
enum Kind {
    Blank,
    Atom,
    Join,
    Flip,
    Quantify,
    Fix,
}

impl From<Request> for Kind {
    fn from(request: Request) -> Kind {
        match request {
            Request::Blank { .. } => Kind::Blank,
            Request::Atom { .. } => Kind::Atom,
            Request::Join { .. } => Kind::Join,
            Request::Flip { .. } => Kind::Flip,
            Request::Quantify { .. } => Kind::Quantify,
            Request::Fix { .. } => Kind::Fix,
        }
    }
}

// How many calls are done, and how many are refused.
#[derive(Clone, Copy, Default, Debug)]
struct Count {
    done: usize,
    refused: usize,
}

// How 4,000 generated calls end, by their kinds.
fn counts(heap: Global, tables: &mut Tables) -> Result<BTreeMap<Kind, Count>, AllocError> {
    let mut counts: BTreeMap<Kind, Count> = BTreeMap::new(heap);
    for request in Source::new(1, tables.width()).take(4000) {
        let count = counts.entry(Kind::from(request))?.or_default();
        match tables.perform(request) {
            Ok(()) => count.done = count.done.saturating_add(1),
            Err(_) => count.refused = count.refused.saturating_add(1),
        }
    }
    Ok(counts)
}

#[test]
fn every_kind_comes(rt: HostRuntime) -> Result<(), Fail> {
    let heap = rt.alloc();
    let counts = counts(heap, &mut Tables::new(heap, 4)?)?;
    assert!(rt; counts.len() == 6);
    for count in counts.values() {
        assert!(rt; count.done > 200 && count.refused > 5);
    }
    Ok(())
}
