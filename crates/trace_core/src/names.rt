//! `Names`: names of drivers and timelines, numbered by first sight. A name keeps its number, so keys can hold numbers instead of
//! names. The tracker numbers the names of each record.
ghost use Rattle.std.specs.Prelude.{◌≡◌, ◌<◌, List, ℕ, None, Some, IfOk, IfErr, IfSome, option_map};
ghost use Rattle.trace_core.specs.declared.names.TheConstants.{RECENT};
ghost use Rattle.point_core.specs.declared.refusal.Refusal.TheVariants.{Memory};
ghost use Rattle.trace_core.specs.Names.{name_at};

use indexmap::IndexSet;
use point_core::Refusal;
use std::alloc::Global;

/// How many recent numbers are kept. A power of two.
const RECENT: usize = 32;

/// Names, numbered by first sight.
#[derive(Drop)]
pub struct Names {
    names: IndexSet<Vec<u8>>,
    // numbers of names that were asked for lately, each at the place of its name
    recent: [u32; RECENT],
}

impl Names {
    /// No names. Does not allocate.
    pub fn new(alloc: Global) -> Names
        ensures none { (n : ℕ) → name_at result n ≡ None }
    {
        Names {
            names: IndexSet::new(alloc),
            recent: [0; RECENT],
        }
    }

    /// The name with this number, if a name has it. Numbers are given from 0 on, by first sight.
    pub fn name(&self, number: u32) -> Option<&[u8]>
        ensures { option_map (λ n. n.now) result ≡ name_at self.now number }
    {
        match self.names.get_index(number as usize) {
            Some(name) => Some(name.as_slice()),
            None => None,
        }
    }

    /// The number of the name, which gets one if it has none.
    ///
    /// Fails only with `Memory`, at the latest when all numbers of 32 bits are given; then nothing has changed.
    pub fn number(&mut self, name: &[u8]) -> Result<u32, Refusal>
        ensures named { IfOk result (λ n. name_at self.new n ≡ Some name.now) }
        ensures kept { (n : ℕ) (other : List ℕ) → name_at self.old n ≡ Some other → name_at self.new n ≡ Some other }
        ensures memory { IfErr result (λ e. e ≡ Memory) }
    {
        let place = place_of(name);
        if let Some(number) = self.recent(place, name) {
            return Ok(number);
        }
        let number = self.find(name)?;
        self.recent[place] = number;
        Ok(number)
    }

    /// The number at that place, if it is the name's.
    #[inline(always)]
    fn recent(&self, place: usize, name: &[u8]) -> Option<u32>
        requires within { place < RECENT }
        ensures named { IfSome result (λ n. name_at self.now n ≡ Some name.now) }
    {
        let number = self.recent[place];
        if self.name(number)? == name {
            Some(number)
        } else {
            None
        }
    }

    /// The number of the name, by all names. It gets one if it has none.
    fn find(&mut self, name: &[u8]) -> Result<u32, Refusal>
        ensures named { IfOk result (λ n. name_at self.new n ≡ Some name.now) }
        ensures kept { (n : ℕ) (other : List ℕ) → name_at self.old n ≡ Some other → name_at self.new n ≡ Some other }
        ensures memory { IfErr result (λ e. e ≡ Memory) }
    {
        if let Some((index, _found)) = self.names.get_full(name) {
            let number = small(index)?;
            return Ok(number);
        }
        let number = small(self.names.len())?;
        let mut owned = Vec::with_capacity(*self.names.allocator(), name.len())?;
        owned.extend_from_slice(name)?;
        let Ok(_) = self.names.insert(owned) else {
            return Err(Refusal::Memory);
        };
        Ok(number)
    }
}

/// The place of a name among those that were asked for lately.
#[inline(always)]
fn place_of(name: &[u8]) -> usize
    ensures within { result < RECENT }
{
    match name.last() {
        Some(byte) => (name.len() + usize::from(*byte)) % RECENT,
        None => 0,
    }
}

fn small(index: usize) -> Result<u32, Refusal>
    ensures same { IfOk result (λ n. n ≡ index) }
    ensures memory { IfErr result (λ e. e ≡ Memory) }
{
    match u32::try_from(index) {
        Ok(number) => Ok(number),
        Err(_) => Err(Refusal::Memory),
    }
}
