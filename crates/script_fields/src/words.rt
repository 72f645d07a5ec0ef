//! Reads the words of operations and items.

ghost use Rattle.std.specs.Prelude.{◌≡◌};
ghost use Rattle.json_fields.specs.Read.{Gives, GivesSeen};
ghost use Rattle.json_fields.specs.Field.{spot_of};
ghost use Rattle.scenario_format.specs.Parts.Words as words;

use busdma_base::{ItemWord, OpWord};
use json_fields::{Node, Stop};
use scenario_format::RefusalKind;

/// Returns the text at the key `op`.
#[tactic(auto, unfolding(scenario_format::specs::Parts::Words::word_text))]
fn word_text<'v>(here: &'v Node<'v>) -> Result<&'v str, Stop>
    ensures { GivesSeen (λ s. s.now) result (words.word_text (spot_of here.now)) }
{
    here.required("op")?.text()
}

/// Reads the word of an operation.
///
/// # Errors
///
/// `Stop::Refused` with `BadOp` if no operation has this word, or with `BadField` if there is no text at the
/// key `op`. `Stop::OutOfMemory` if memory runs out.
#[tactic(auto, unfolding(scenario_format::specs::Parts::Words::read_op_word))]
pub fn op_word<'v>(here: &'v Node<'v>) -> Result<OpWord, Stop>
    ensures { Gives result (words.read_op_word (spot_of here.now)) }
{
    match OpWord::from_text(word_text(here)?) {
        Some(word) => Ok(word),
        None => Err(here.refuse_key(RefusalKind::BadOp, "op")),
    }
}

/// Reads the word of an item.
///
/// # Errors
///
/// `Stop::Refused` with `BadOp` if no item has this word, or with `BadField` if there is no text at the key
/// `op`. `Stop::OutOfMemory` if memory runs out.
#[tactic(auto, unfolding(scenario_format::specs::Parts::Words::read_item_word))]
pub fn item_word<'v>(here: &'v Node<'v>) -> Result<ItemWord, Stop>
    ensures { Gives result (words.read_item_word (spot_of here.now)) }
{
    match ItemWord::from_text(word_text(here)?) {
        Some(word) => Ok(word),
        None => Err(here.refuse_key(RefusalKind::BadOp, "op")),
    }
}
