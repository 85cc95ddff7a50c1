// The words of the base image's heap. An index counts words from the heap's first.
ghost use Rattle.std.specs.Prelude.{◌≡◌, ◌<◌, ◌^◌, slice_index};
ghost use Rattle.spur_graph.specs.BaseImage.{head_word, at, class_indices, layouts, class_at, class_word, entry, special_slot, base_word};

use object_header::overflow_word;

/// The words of the heap, with the bridge.
pub(crate) const WORD_COUNT: usize = 6286;

/// The address of the heap's first word.
pub(crate) const BASE_ADDRESS: u64 = 1_048_576;

/// The word that nil stands for in a slot.
const NIL: u64 = BASE_ADDRESS;

/// The header of the hidden roots.
const HIDDEN_ROOTS: usize = 72;

/// The header of the first page of the class table.
const FIRST_PAGE: usize = 4178;

/// The header of its second page, where no class is.
const SECOND_PAGE: usize = 5204;

/// The header of the first class.
const FIRST_CLASS: usize = 6229;

/// The header of the special objects array.
pub(crate) const SPECIAL_ARRAY: usize = 6273;

/// The class index of a class, which is its hash too.
const CLASS_INDICES: [u64; 11] = [1, 2, 4, 32, 33, 51, 52, 53, 54, 55, 56];

/// What the classes say of their instances, in the same order: the format times 2^16, plus the fixed slots.
const LAYOUTS: [u64; 11] = [
    0, 0, 0, 65_539, 0, 131_072, 1_048_576, 262_145, 327_682, 65_538, 196_609,
];

/// A header word without flags.
fn head_word(slots: u64, hash: u64, format: u64, class: u64) -> u64
    requires slots { slots < 2 ^ 8 }
    requires hash { hash < 2 ^ 22 }
    requires format { format < 2 ^ 5 }
    requires class { class < 2 ^ 22 }
    ensures { result ≡ head_word slots hash format class }
{
    (slots << 56) + (hash << 32) + (format << 24) + class
}

/// The address of a word of the heap.
pub(crate) fn address(word: usize) -> u64
    requires { word < 2 ^ 32 }
    ensures { result ≡ at word }
{
    BASE_ADDRESS + 8 * word as u64
}

/// The address of a class by its place among the classes.
fn class_address(place: usize) -> u64
    requires { place < 11 }
    ensures { result ≡ class_at place }
{
    address(FIRST_CLASS + 4 * place)
}

fn class_index(place: usize) -> u64
    requires { place < 11 }
    ensures value { result ≡ slice_index class_indices place }
    ensures small { result < 2 ^ 6 }
{
    CLASS_INDICES[place]
}

fn layout(place: usize) -> u64
    requires { place < 11 }
    ensures value { result ≡ slice_index layouts place }
    ensures small { result < 2 ^ 32 }
{
    LAYOUTS[place]
}

/// A word of a class, its header first.
fn class_word(place: usize, word: usize) -> u64
    requires { place < 11 }
    ensures { result ≡ class_word place word }
{
    if word == 0 {
        head_word(3, class_index(place), 1, 32)
    } else if word == 3 {
        8 * layout(place) + 1
    } else {
        NIL
    }
}

/// An entry of the first page of the class table.
fn page_entry(class: usize) -> u64
    ensures { result ≡ entry class }
{
    match class {
        1 => class_address(0),
        2 => class_address(1),
        4 => class_address(2),
        32 => class_address(3),
        33 => class_address(4),
        51..=56 => class_address(class - 46),
        _ => NIL,
    }
}

/// A slot of the special objects array: nil, false, true, and the classes that scripts make objects of.
fn special_slot(slot: usize) -> u64
    ensures { result ≡ special_slot slot }
{
    if slot < 3 {
        address(2 * slot)
    } else if slot < 9 {
        class_address(slot + 2)
    } else {
        class_address(3)
    }
}

/// The word of the heap at this index.
#[tactic(auto, unfolding(spur_graph::specs::BaseImage::base_word))]
pub(crate) fn base_word(index: usize) -> u64
    ensures { result ≡ base_word index }
{
    match index {
        // nil, false and true
        0 | 2 | 4 => head_word(0, 0, 0, 33),
        // the free lists object
        6 => head_word(64, 0, 9, 19),
        // the hidden roots, which begin with the pages of the class table
        71 => overflow_word(4104),
        HIDDEN_ROOTS => head_word(255, 0, 2, 16),
        73 => address(FIRST_PAGE),
        74 => address(SECOND_PAGE),
        75..=4176 => NIL,
        // the two pages
        4177 | 5203 => overflow_word(1024),
        FIRST_PAGE | SECOND_PAGE => head_word(255, 0, 2, 16),
        4179..=5202 => page_entry(index - 4179),
        5205..=6228 => NIL,
        // the classes, of four words each
        6229..=6272 => class_word((index - FIRST_CLASS) / 4, (index - FIRST_CLASS) % 4),
        SPECIAL_ARRAY => head_word(10, 0, 2, 51),
        6274..=6283 => special_slot(index - 6274),
        // what is left free, and the bridge
        _ => 0,
    }
}
