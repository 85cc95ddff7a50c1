// What the options of a command line ask for.
ghost use Rattle.std.specs.Prelude.{◌≡◌, ℕ, map, IfSome, IfNone, Some};
ghost use Rattle.std.specs.String.{string_bytes};
ghost use Rattle.spur_graph.specs.Words.{number_in};
ghost use Rattle.image_load.specs.Loaded.{AreLimits};
ghost use Rattle.replay.specs.Options.{IsRoom, IsSaved, Tells, Tell, nothing, limits_told, AskFor};
ghost use Rattle.replay.specs.declared.options.Told.{Told};

use script_text::number_of;
use spur_graph::Limits;

/// Words of room where no option tells them.
const DEFAULT_ROOM: usize = 1 << 20;

/// The most words of room.
const MOST_ROOM: usize = 1 << 26;

/// Entries of the table of saved fields where no option tells them.
const DEFAULT_SAVED: usize = 4_096;

/// The most entries of the table of saved fields.
const MOST_SAVED: usize = 1 << 24;

/// What the options tell that were read so far.
#[derive(Clone, Copy)]
struct Told {
    room: Option<usize>,
    saved: Option<usize>,
}

/// The words of room that a text tells; none where it tells no number, 1, or too great a one.
fn room_in(text: &str) -> Option<usize>
    ensures some { IfSome result (λ room. (number_in text.now ≡ Some room) × IsRoom room) }
    ensures none { IfNone result ((room : ℕ) → number_in text.now ≡ Some room → IsRoom room → ⊥) }
{
    let room = number_of(text.as_bytes())?;
    if room == 1 || room > MOST_ROOM as u128 {
        return None;
    }
    Some(room as usize)
}

/// The entries of the table of saved fields that a text tells; none where it tells no number, 0, or too great a one.
fn saved_in(text: &str) -> Option<usize>
    ensures some { IfSome result (λ saved. (number_in text.now ≡ Some saved) × IsSaved saved) }
    ensures none { IfNone result ((saved : ℕ) → number_in text.now ≡ Some saved → IsSaved saved → ⊥) }
{
    let saved = number_of(text.as_bytes())?;
    if saved == 0 || saved > MOST_SAVED as u128 {
        return None;
    }
    Some(saved as usize)
}

impl Told {
    /// What is told with a further option and the text behind it; none where there is no such option, where it was told before, or where its text tells no
    /// good number.
    fn with(self, option: &str, text: &str) -> Option<Told>
        ensures some { IfSome result (Tells self option.now text.now) }
        ensures none { IfNone result ((told : Told) → Tells self option.now text.now told → ⊥) }
    {
        if option == "--room" && self.room.is_none() {
            let room = room_in(text)?;
            return Some(Told {
                room: Some(room),
                saved: self.saved,
            });
        }
        if option == "--saved" && self.saved.is_none() {
            let saved = saved_in(text)?;
            return Some(Told {
                room: self.room,
                saved: Some(saved),
            });
        }
        None
    }

    /// The limits that are told, and the defaults of the others.
    fn limits(self) -> Limits
        ensures { result ≡ limits_told self }
    {
        Limits {
            eden: 0,
            survivor: 0,
            room: self.room.unwrap_or(DEFAULT_ROOM),
            saved: self.saved.unwrap_or(DEFAULT_SAVED),
        }
    }
}

/// What options tell; none where there are other words among them.
fn told_by(options: &[String]) -> Option<Told>
    ensures some { IfSome result (Tell nothing (map string_bytes options.now)) }
    ensures none { IfNone result ((told : Told) → Tell nothing (map string_bytes options.now) told → ⊥) }
{
    let mut told = Told {
        room: None,
        saved: None,
    };
    let mut rest = options;
    'options: while let [option, text, behind @ ..] = rest {
        told = told.with(option.as_str(), text.as_str())?;
        rest = behind;
    }
    match rest {
        [] => Some(told),
        _ => None,
    }
}

/// The limits that options ask for; none where there are other words among them.
pub(crate) fn limits_of(options: &[String]) -> Option<Limits>
    ensures some { IfSome result (AskFor (map string_bytes options.now)) }
    ensures limits { IfSome result AreLimits }
    ensures none { IfNone result ((limits : Limits) → AskFor (map string_bytes options.now) limits → ⊥) }
{
    Some(told_by(options)?.limits())
}
