// What a class says of its instances.
ghost use Rattle.std.specs.Prelude.{◌≡◌, ◌≤◌, true};
ghost use Rattle.spur_graph.specs.Value.{int_of};
ghost use Rattle.spur_graph.specs.Instances.{fixed_slots, instance_format, has_units, is_layout, is_size, most_size, per_slot, slots_for, format_for};

use object_header::Format;

/// The greatest size that can be asked: so many slots besides the fixed ones, or so many units.
const MOST_SIZE: u128 = 134_217_728;

/// The bytes of a slot.
const SLOT_BYTES: usize = 8;

/// Slot 2 of a class, the word of a SmallInteger: the low 16 bits of its number are the fixed slots of an instance, the next 5 its format without unused
/// units.
#[derive(Clone, Copy)]
pub(crate) struct Layout(pub u64);

impl Layout {
    /// How many fixed slots an instance has.
    fn fixed_slots(self) -> usize
        ensures { result ≡ fixed_slots (int_of self.0) }
    {
        (self.0 >> 3 & 0xFFFF) as usize
    }

    /// The format of an instance, where it has no unused units.
    fn format(self) -> u8
        ensures { result ≡ instance_format (int_of self.0) }
    {
        (self.0 >> 19 & 0x1F) as u8
    }

    /// Whether instances have units, and no pointer slots.
    fn has_units(self) -> bool
        ensures { result ≡ has_units (instance_format (int_of self.0)) }
    {
        self.format() >= 9
    }

    /// How many units a slot has room for.
    fn per_slot(self) -> usize
        requires units { has_units (instance_format (int_of self.0)) ≡ true }
        ensures { result ≡ per_slot (instance_format (int_of self.0)) }
    {
        SLOT_BYTES / Format::new(self.format()).unit_bytes()
    }

    /// Whether instances can have this format, and where it has no fixed slots none are asked.
    pub fn has_instances(self) -> bool
        ensures { result ≡ is_layout (int_of self.0) }
    {
        match self.format() {
            1..=5 => true,
            0 | 9 | 10 | 12 | 16 => self.fixed_slots() == 0,
            _ => false,
        }
    }

    /// Whether an instance can have the size: that of one with fixed slots alone, or with none, is 0.
    pub fn has_size(self, n: u128) -> bool
        ensures { result ≡ is_size (int_of self.0) n }
    {
        match self.format() {
            0 | 1 | 5 => n == 0,
            _ => n <= MOST_SIZE,
        }
    }

    /// The slots of an instance: the fixed ones and `n` more, or as many as have room for `n` units.
    pub fn slots_for(self, n: usize) -> usize
        requires small { n ≤ most_size }
        ensures { result ≡ slots_for (int_of self.0) n }
    {
        if self.has_units() {
            (n + self.per_slot() - 1) / self.per_slot()
        } else {
            self.fixed_slots() + n
        }
    }

    /// The format of an instance of `n` units, which tells the unused ones of its last slot; without units, that of all instances.
    pub fn format_for(self, n: usize) -> u8
        requires small { n ≤ most_size }
        requires layout { is_layout (int_of self.0) ≡ true }
        ensures { result ≡ format_for (int_of self.0) n }
    {
        if self.has_units() {
            self.format() + (self.per_slot() * self.slots_for(n) - n) as u8
        } else {
            self.format()
        }
    }
}
