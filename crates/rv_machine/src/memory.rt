ghost use Rattle.std.specs.Prelude.{◌≡◌, ℕ, ◌+◌, ◌*◌, ◌/◌, ◌^◌, ◌<◌, ◌≤◌, true, false, length, vec_len, if◌then◌else◌, IfSome, IfNone, MatchOption, Option, Some, None, IfOk};
ghost use Rattle.rv_isa.specs.Machine.{put, in_data, is_writable};
ghost use Rattle.rv_isa.specs.Start.{statics_memory};
ghost use Rattle.rv_machine.specs.Parts.{IsWidth};
ghost use Rattle.rv_machine.specs.Memory.{memory_of, data_space, words_of, region_start, slot_word, HasSlot, IsRegionOf, stored};

use crate::parts::with_bytes;
use crate::regions::{Region, Regions, Slot};
use crate::words::zeros;
use std::alloc::{AllocError, Global};

impl Region {
    /// The region in which an address would lie, going by where the regions start.
    fn of(address: u64) -> Option<Region>
        ensures { IsRegionOf address result }
    {
        match address {
            0x7000_0000.. => Some(Region::Number),
            0x6000_0000.. => Some(Region::Control),
            0x4000_0000.. => Some(Region::Heap),
            0x2000_0000.. => Some(Region::Statics),
            _ => None,
        }
    }

    /// The address at which the region starts.
    fn start(self) -> u64
        ensures { result ≡ region_start self }
    {
        match self {
            Region::Statics => 0x2000_0000,
            Region::Heap => 0x4000_0000,
            Region::Control => 0x6000_0000,
            Region::Number => 0x7000_0000,
        }
    }
}

impl Regions {
    /// The words of a region.
    fn words(&self, region: Region) -> &[u64]
        ensures { result.now ≡ words_of self.now region }
    {
        match region {
            Region::Statics => &self.statics,
            Region::Heap => &self.heap,
            Region::Control => &self.control,
            Region::Number => &self.number,
        }
    }

    /// Where the word stands that has the byte at this address, if a region has it.
    fn slot(&self, address: u64) -> Option<Slot>
        ensures found { IfSome result (λ s. HasSlot self.now s × (slot_word s ≡ address / 8)) }
        ensures inside { IfSome result (λ _. in_data (data_space self.now) address 1 ≡ true) }
        ensures outside { IfNone result (in_data (data_space self.now) address 1 ≡ false) }
    {
        let region = Region::of(address)?;
        let index = ((address - region.start()) / 8) as usize;
        if index < self.words(region).len() {
            Some(Slot { region, index })
        } else {
            None
        }
    }

    /// The word of a slot.
    fn word(&self, slot: Slot) -> u64
        requires { HasSlot self.now slot }
        ensures { result ≡ memory_of self.now (slot_word slot) }
    {
        self.words(slot.region)[slot.index]
    }

    /// Puts a word in a slot.
    fn set(&mut self, slot: Slot, word: u64)
        requires { HasSlot self.old slot }
        ensures word { memory_of self.new ≡ put (slot_word slot) word (memory_of self.old) }
        ensures sizes { data_space self.new ≡ data_space self.old }
    {
        match slot.region {
            Region::Statics => self.statics[slot.index] = word,
            Region::Heap => self.heap[slot.index] = word,
            Region::Control => self.control[slot.index] = word,
            Region::Number => self.number[slot.index] = word,
        }
    }

    /// The word that has the byte at this address, if a region has it.
    pub(crate) fn word_at(&self, address: u64) -> Option<u64>
        ensures { result ≡ (if in_data (data_space self.now) address 1 then Some (memory_of self.now (address / 8)) else None) }
    {
        match self.slot(address) {
            Some(slot) => Some(self.word(slot)),
            None => None,
        }
    }

    /// Stores the low bytes of a number, `count` of them, where that may be. Answers whether it did.
    pub(crate) fn store(&mut self, address: u64, count: u64, number: u64) -> bool
        requires { IsWidth count }
        ensures answer { result ≡ is_writable (data_space self.old) address count }
        ensures stored { memory_of self.new ≡ stored (data_space self.old) address count number (memory_of self.old) }
        ensures sizes { data_space self.new ≡ data_space self.old }
    {
        if address % count != 0 {
            return false;
        }
        match self.slot(address) {
            Some(slot) => {
                let word = self.word(slot);
                self.set(slot, with_bytes(word, address, count, number));
                true
            }
            None => false,
        }
    }

    /// The memory of the first state: the statics, and a heap and stacks of zeros with these sizes in bytes.
    pub(crate) fn first(
        alloc: Global,
        statics: Vec<u64>,
        heap: u64,
        stack: u64,
    ) -> Result<Regions, AllocError>
        requires statics { length statics.items ≤ 0x04000000 }
        requires heap { heap ≤ 0x10000000 }
        requires stack { stack ≤ 0x10000000 }
        ensures words { IfOk result (λ m. memory_of m ≡ statics_memory statics.items) }
        ensures statics_length { IfOk result (λ m. m.statics.items ≡ statics.items) }
        ensures heap_length { IfOk result (λ m. length m.heap.items ≡ heap / 8) }
        ensures stack_length { IfOk result (λ m. length m.control.items ≡ stack / 8) }
    {
        let heap = zeros(alloc, (heap / 8) as usize)?;
        let control = zeros(alloc, (stack / 8) as usize)?;
        let number = zeros(alloc, (stack / 8) as usize)?;
        Ok(Regions {
            statics,
            heap,
            control,
            number,
        })
    }
}
