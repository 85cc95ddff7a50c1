ghost use Rattle.std.specs.Prelude.{◌≡◌, ◌^◌, ◌+◌, ◌<◌, ◌≤◌, length, slice_index, max, IfOk};
ghost use Rattle.object_header.specs.Formats.{pointer_slots_of};
ghost use Rattle.object_header.specs.Head.{head_of, body_of, format_of, formed, lead_of, literals_of, is_refused_format};

use crate::field::Field;
use crate::format::Format;
use crate::header::{BRIDGE_CLASS, FORWARDER_CLASS, FREE_CLASS, Header, OVERFLOW_COUNT};

/// The slot count of an overflow word.
pub type OverflowSlotsField = Field<0, 56>;

/// The tag of a word that may be a SmallInteger.
type TagField = Field<0, 3>;

/// The number of literals in the SmallInteger of a method's slot 0.
pub type LiteralsField = Field<3, 15>;

/// The tag of a SmallInteger.
pub const SMALL_INTEGER_TAG: u64 = 1;

impl Header {
    /// How many of the slots behind the header are pointers; they come first. `first` is the word behind the header, which in a
    /// method tells its literals.
    pub fn pointer_slots(self, slots: usize, first: u64) -> usize
        ensures { result ≡ pointer_slots_of (format_of self.0) slots (literals_of first) }
    {
        let literals = LiteralsField::get(first) as usize;
        Format::new(self.format() as u8).pointer_slots(slots, literals)
    }
}

/// What the first words of a chunk say of it.
#[derive(Clone, Copy, Debug, PartialEq, Eq)]
pub struct Head {
    /// The header word.
    pub header: u64,
    /// The words before the header: 1 if there is an overflow word, else 0.
    pub lead: usize,
    /// The number of slots, a word each.
    pub slots: usize,
    /// The size of the whole chunk in words, with the head words. A chunk without slots has one
    /// word behind the header all the same, since a forwarder to another object has to fit in its
    /// place.
    pub words: usize,
    /// How many of the slots are pointers; they come first. 0 for a free chunk or a forwarder.
    pub pointers: usize,
    /// The number of units in the other slots. 0 for a free chunk or a forwarder.
    pub units: usize,
}

/// Why some words do not begin with a chunk.
#[derive(Clone, Copy, Debug, PartialEq, Eq)]
pub enum HeadError {
    /// The words end before the chunk does.
    Overrun,
    /// The counts of the chunk contradict each other: an overflow word before a header that has its
    /// own slot count, more unused units than units, or a method whose slots do not hold the
    /// literals that it tells.
    BadCount,
    /// A bridge, or an object of a format that is refused, with the format.
    BadFormat(u8),
}

/// Reads the head of the chunk at the front of the words. They may go on behind the chunk.
///
/// A first word with 255 in its top byte is an overflow word. These are the refusals, the first
/// that applies:
/// - `Overrun`, if the words end before the head words do;
/// - `BadCount`, if there is an overflow word and the header's count is not 255;
/// - `BadFormat`, if it is a bridge, or an object of a format that is refused;
/// - `Overrun`, if the words end before the chunk does;
/// - `BadCount`, if it is an object with more unused units than units, or a method with no slots,
///   no SmallInteger in slot 0, or more literals than the slots after it.
#[tactic(auto, unfolding(crate::specs::Head::head_of))]
pub fn read_head(words: &[u64]) -> Result<Head, HeadError>
    ensures value { result ≡ head_of words.now }

    // What a walk over chunks asks of a head, so that its proof need not open the definition.
    ensures room { IfOk result (λ h. (1 < h.words) × (h.words ≤ length words.now) × (h.lead ≤ 1)) }
    ensures header { IfOk result (λ h. (h.lead ≡ lead_of words.now)
        × (h.header ≡ slice_index words.now h.lead)
        × (h.lead + 1 < h.words)) }
    ensures body { IfOk result (λ h. h.lead + 1 + h.slots ≤ h.words) }
    ensures size { IfOk result (λ h. h.words ≡ h.lead + 1 + max 1 h.slots) }
    ensures pointers { IfOk result (λ h. h.pointers ≤ h.slots) }
{
    if words.is_empty() {
        return Err(HeadError::Overrun);
    }
    let front = Header(words[0]);
    if front.count() != OVERFLOW_COUNT {
        return read_body(words, 0, front.count() as usize);
    }
    if words.len() < 2 {
        return Err(HeadError::Overrun);
    }
    if Header(words[1]).count() != OVERFLOW_COUNT {
        return Err(HeadError::BadCount);
    }
    read_body(words, 1, OverflowSlotsField::get(words[0]) as usize)
}

/// Reads the chunk of so many slots whose header stands behind `lead` words.
#[tactic(auto, unfolding(crate::specs::Head::body_of))]
fn read_body(words: &[u64], lead: usize, slots: usize) -> Result<Head, HeadError>
    requires stands { lead < length words.now }
    requires short { slots < 2 ^ 56 }
    ensures value { result ≡ body_of words.now lead slots }
    ensures room { IfOk result (λ h. (1 < h.words) × (h.words ≤ length words.now) × (h.lead ≡ lead)) }
    ensures header { IfOk result (λ h. (h.header ≡ slice_index words.now lead) × (h.lead + 1 < h.words)) }
    ensures body { IfOk result (λ h. h.lead + 1 + h.slots ≤ h.words) }
    ensures size { IfOk result (λ h. h.words ≡ h.lead + 1 + max 1 h.slots) }
    ensures pointers { IfOk result (λ h. h.pointers ≤ h.slots) }
{
    let header = Header(words[lead]);
    let class = header.class();
    let format = header.format();
    let is_unformed = class == FREE_CLASS || class == FORWARDER_CLASS;
    if class == BRIDGE_CLASS || (!is_unformed && is_refused_format(format)) {
        return Err(HeadError::BadFormat(format as u8));
    }
    let need = lead + 1 + slots.max(1);
    if words.len() < need {
        return Err(HeadError::Overrun);
    }
    if is_unformed {
        return Ok(Head {
            header: header.0,
            lead,
            slots,
            words: need,
            pointers: 0,
            units: 0,
        });
    }
    read_formed(lead, header, slots, need, words[lead + 1])
}

/// Whether an object of this format is refused: 6, 7 and 8 are formats that no object has.
fn is_refused_format(format: u64) -> bool
    ensures { result ≡ is_refused_format format }
{
    format > 5 && format < 9
}

/// Cuts the slots of an object into pointers and units by its format. `first` is its slot 0.
#[tactic(auto, unfolding(crate::specs::Head::formed))]
fn read_formed(
    lead: usize,
    header: Header,
    slots: usize,
    words: usize,
    first: u64,
) -> Result<Head, HeadError>
    requires { slots < 2 ^ 56 }
    ensures value { result ≡ formed lead header.0 slots words first }
    ensures room { IfOk result (λ h. (h.words ≡ words) × (h.lead ≡ lead) × (h.header ≡ header.0)) }
    ensures slots { IfOk result (λ h. (h.slots ≡ slots) × (h.pointers ≤ slots)) }
{
    let format = Format::new(header.format() as u8);
    let literals = LiteralsField::get(first) as usize;
    let has_literals = literals < slots && TagField::get(first) == SMALL_INTEGER_TAG;
    if format.is_method() && !has_literals {
        return Err(HeadError::BadCount);
    }
    let pointers = header.pointer_slots(slots, first);
    let whole = match format.unit_bytes() {
        0 => 0,
        bytes => (slots - pointers) * 8 / bytes,
    };
    if whole < format.unused() {
        return Err(HeadError::BadCount);
    }
    Ok(Head {
        header: header.0,
        lead,
        slots,
        words,
        pointers,
        units: whole - format.unused(),
    })
}
