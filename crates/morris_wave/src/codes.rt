//! The codes of nodes: a byte each while that is enough.
ghost use Rattle.std.specs.Prelude.{◌≡◌, ℕ, ◌<◌, ◌≤◌, ◌++◌, [], List, OnOk, IfOk, length, replicate, slice_index, slice_set, vec_len, vec_capacity};
ghost use Rattle.morris_wave.specs.Bytes.{of_bytes};

use std::alloc::{AllocError, Global};
use std::marker::Model;

// The codes of nodes, in their order. Each has a low byte, and once some code is above 255 a high
// one too. Room for high bytes is there from the start; while none is needed it takes no memory, as
// long as the system hands out pages at their first use.
#[derive(Drop)]
pub(crate) struct Codes {
    low: Vec<u8>,
    high: Vec<u8>,
}

impl Model for Codes {
    ghost use Rattle.std.specs.Prelude.{◌≡◌, ◌<◌, ◌≤◌, ℕ, List, vec_len, vec_capacity};
    ghost use Rattle.morris_wave.specs.Bytes.{of_bytes};

    ghost Value = { List ℕ };

    ghost view = { λ c. of_bytes c.low.items c.high.items };

    ghost invariant = { λ c. (vec_len c.low ≤ vec_capacity c.high) × (0 < vec_len c.high → vec_len c.high ≡ vec_len c.low) };
}

impl Codes {
    // So many codes of 0.
    pub(crate) fn make_zeros(alloc: Global, count: usize) -> Result<Codes, AllocError>
        ensures { IfOk result (λ c. c ≡ replicate count 0) }
    {
        let low = vec![in alloc; 0u8; count]?;
        let high = Vec::with_capacity(alloc, count)?;
        Ok(Codes { low, high })
    }

    // How many there are.
    pub(crate) fn len(&self) -> usize
        ensures { result ≡ length self.now }
    {
        self.low.len()
    }

    // The code at a place.
    pub(crate) fn get(&self, place: usize) -> u16
        requires { place < length self.now }
        ensures { result ≡ slice_index self.now place }
    {
        let low = u16::from(self.low[place]);
        if place < self.high.len() {
            low + u16::from(self.high[place]) * 256
        } else {
            low
        }
    }

    // Writes the code at a place. It takes no memory.
    pub(crate) fn put(&mut self, place: usize, code: u16)
        requires { place < length self.old }
        ensures { self.new ≡ slice_set self.old place code }
    {
        widen(&mut self.high, self.low.len(), code);
        self.low[place] = (code % 256) as u8;
        if place < self.high.len() {
            self.high[place] = (code / 256) as u8;
        }
    }

    // Puts all codes at the end of a list.
    pub(crate) fn add_to(&self, list: &mut Vec<u16>) -> Result<(), AllocError>
        ensures { OnOk result (list.new.items ≡ list.old.items ++ self.now) }
    {
        if self.high.is_empty() {
            return add_bytes(list, &self.low);
        }
        for place in 0..self.len() {
            list.push(self.get(place))?;
        }
        Ok(())
    }
}

// Puts bytes at the end of a list, for which the compiler takes many at a time.
fn add_bytes(list: &mut Vec<u16>, bytes: &[u8]) -> Result<(), AllocError>
    ensures { OnOk result (list.new.items ≡ list.old.items ++ bytes.now) }
{
    list.extend(bytes.iter().map(|byte| u16::from(*byte)))
}

// Brings in as many high bytes of 0 as there are low ones, where the code is the first that needs
// one. It takes no memory.
fn widen(high: &mut Vec<u8>, count: usize, code: u16)
    requires room { count ≤ vec_capacity high.old }
    requires len { 0 < vec_len high.old → vec_len high.old ≡ count }
    ensures room { count ≤ vec_capacity high.new }
    ensures len { 0 < vec_len high.new → vec_len high.new ≡ count }
    ensures same { (lows : List ℕ) → of_bytes lows high.new.items ≡ of_bytes lows high.old.items }
    ensures enough { 255 < code → vec_len high.new ≡ count }
{
    if code > 255 && high.is_empty() {
        fill(high, count);
    }
}

// Puts so many bytes of 0 into an empty list that has room for them.
fn fill(bytes: &mut Vec<u8>, count: usize)
    requires empty { bytes.old.items ≡ [] }
    requires room { count ≤ vec_capacity bytes.old }
    ensures filled { bytes.new.items ≡ replicate count 0 }
    ensures room { count ≤ vec_capacity bytes.new }
{
    for _ in 0..count {
        bytes.push_reserved(0);
    }
}
