//! Reads the actor that a line names, and numbers in texts.

ghost use Rattle.std.specs.Prelude.{◌≡◌, ◌<◌, ◌^◌, ◌++◌, ◌∷◌, ℕ, List, Some, []};
ghost use Rattle.std.specs.Fmt.{decimal};
ghost use Rattle.busdma_base.specs.declared.journals.journal.JournalEntry.{JournalEntry as SeenEntry};
ghost use Rattle.busdma_base.specs.declared.scenarios.scenario.Scenario.{Scenario as SeenScenario};
ghost use Rattle.busdma_base.specs.declared.journals.journal.Side.{Side as SeenSide};
ghost use Rattle.program_rules.specs.Reports.Report.{entry_line, side_letter};

use crate::cutting::place_of;
use busdma_base::{Actor, Side};
use busdma_machine::LaneId;
use std::str;

/// Returns the number before the first byte `end` of a text, for example before a space or a line feed.
pub(crate) fn first_number(text: &[u8], end: u8) -> Option<u32>
    requires { end < 48 }
    ensures { (n : ℕ) (rest : List ℕ) → n < 2 ^ 32 → text.now ≡ decimal n ++ end ∷ rest → result ≡ Some n }
{
    let (word, _) = text.split_at(place_of(text, end)?);
    str::from_utf8(word).ok()?.parse::<u32>().ok()
}

/// Returns the side with this letter.
fn side_of(letter: u8) -> Option<Side>
    ensures { (side : SeenSide) → letter ∷ [] ≡ side_letter side → result ≡ Some side }
{
    match letter {
        b's' => Some(Side::Script),
        b'd' => Some(Side::Transfer),
        b'c' => Some(Side::Callback),
        _ => None,
    }
}

/// Returns the actor that a line names in its second word. The contract does not say what it returns for a
/// line that is no entry's, because such a line is found when it is compared.
pub(crate) fn named_actor(line: &[u8]) -> Option<Actor>
    ensures { (s : SeenScenario) (n : ℕ) (e : SeenEntry) → e.actor.lane.0 < 2 ^ 32 → line.now ≡ entry_line s n e →
        result ≡ Some e.actor }
{
    let (_, rest) = line.split_at(place_of(line, b' ')?);
    if rest.len() < 2 {
        return None;
    }
    let side = side_of(rest[1])?;
    let (_, digits) = rest.split_at(2);
    let lane = LaneId(first_number(digits, b' ')?);
    Some(Actor { lane, side })
}
