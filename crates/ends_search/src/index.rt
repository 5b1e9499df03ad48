//! Which places may hold a state, by its hash: only hints, with no contract.

use std::alloc::{AllocError, Global};

/// Ends a chain.
const NOWHERE: usize = usize::MAX;

/// How many chains there are at first.
const FIRST_CHAINS: usize = 1024;

/// Places in chains by hash. There are at least half as many chains as places.
#[derive(Drop)]
pub struct Index {
    heads: Vec<usize>,
    behind: Vec<usize>,
    hashes: Vec<u64>,
}

/// The chain of a hash.
fn chain_of(hash: u64, chains: usize) -> usize {
    if chains == 0 {
        0
    } else {
        (hash % (chains as u64)) as usize
    }
}

impl Index {
    /// No places yet.
    pub fn new(alloc: Global) -> Result<Index, AllocError> {
        Ok(Index {
            heads: Vec::from_elem(alloc, NOWHERE, FIRST_CHAINS)?,
            behind: Vec::new(alloc),
            hashes: Vec::new(alloc),
        })
    }

    /// The first place from this one on, on its chain, that has the hash.
    fn next_of(&self, from: usize, hash: u64) -> usize {
        let mut at = from;
        for _ in 0..self.hashes.len() {
            match self.hashes.get(at) {
                None => return NOWHERE,
                Some(there) => {
                    if *there == hash {
                        return at;
                    }
                    at = self.behind.get(at).copied().unwrap_or(NOWHERE);
                }
            }
        }
        NOWHERE
    }

    /// The first place to look at for a state of this hash.
    pub fn first(&self, hash: u64) -> usize {
        let chain = chain_of(hash, self.heads.len());
        let head = self.heads.get(chain).copied().unwrap_or(NOWHERE);
        self.next_of(head, hash)
    }

    /// The place to look at after this one.
    pub fn behind(&self, place: usize, hash: u64) -> usize {
        let behind = self.behind.get(place).copied().unwrap_or(NOWHERE);
        self.next_of(behind, hash)
    }

    /// Puts a place in front of the chain of its hash. Returns the place that was in front.
    fn put(&mut self, place: usize, hash: u64) -> usize {
        let chain = chain_of(hash, self.heads.len());
        let front = self.heads.get(chain).copied().unwrap_or(NOWHERE);
        if chain < self.heads.len() {
            self.heads[chain] = place;
        }
        front
    }

    /// Doubles the number of chains.
    fn grow(&mut self, alloc: Global) -> Result<(), AllocError> {
        let chains = self.heads.len().saturating_mul(2);
        self.heads = Vec::from_elem(alloc, NOWHERE, chains)?;
        for place in 0..self.hashes.len() {
            let hash = self.hashes.get(place).copied().unwrap_or(0);
            let front = self.put(place, hash);
            if place < self.behind.len() {
                self.behind[place] = front;
            }
        }
        Ok(())
    }

    /// One more place, the next one.
    pub fn add(&mut self, alloc: Global, hash: u64) -> Result<(), AllocError> {
        if self.hashes.len() / 2 >= self.heads.len() {
            self.grow(alloc)?;
        }
        let place = self.hashes.len();
        self.hashes.push(hash)?;
        let front = self.put(place, hash);
        self.behind.push(front)?;
        Ok(())
    }
}
