//! Reads the items of a load.

ghost use Rattle.std.specs.Prelude.{◌≡◌, [], false, map, IfOk};
ghost use Rattle.std.specs.List.{AllByRecursion};
ghost use Rattle.serde_json.specs.View.{view};
ghost use Rattle.busdma_base.specs.Scenarios.Operations.{read_by_item};
ghost use Rattle.busdma_base.specs.Scenarios.Script.{IsItem, is_ring_step};
ghost use Rattle.json_fields.specs.Read.{Gives, GivesSeen};
ghost use Rattle.json_fields.specs.Field.{spot_of};
ghost use Rattle.scenario_format.specs.Json.Items.{each};
ghost use Rattle.script_fields.specs.Counts.{IsWithin, having_read};
ghost use Rattle.scenario_format.specs.Parts.Counts.{with_items, one_step_counted};
ghost use Rattle.scenario_format.specs.Scripts.Items.{read_sync_item as sync_item_at};
ghost use Rattle.scenario_format.specs.Scripts.Items.{read_sync_range_item as sync_range_item_at};
ghost use Rattle.scenario_format.specs.Scripts.Items.{read_dev_read as dev_read_at};
ghost use Rattle.scenario_format.specs.Scripts.Items.{read_dev_write as dev_write_at};
ghost use Rattle.scenario_format.specs.Scripts.Items.{read_raw_read as raw_read_at, read_raw_write as raw_write_at};
ghost use Rattle.scenario_format.specs.Scripts.Items.{item_by, read_item as item_at, read_then as then_at, then_field};

use busdma_base::{Item, ItemList, ItemWord, ListOf, NameUse};
use json_fields::{Node, Stop};
use scenario_format::{Counts, RefusalKind};
use script_fields::{
    NamedOps, byte_count, count_read, count_steps, item_word, judge_access, range_fields,
    sync_fields, used_name, written_bytes,
};
use serde_json::Value;

#[tactic(auto, unfolding(scenario_format::specs::Scripts::Items::read_sync_item))]
fn sync(here: &Node, before: &NamedOps) -> Result<Item, Stop>
    ensures value { Gives result (sync_item_at before.now (spot_of here.now)) }
    ensures valid { IfOk result (IsItem before.now) }
    ensures of_load { IfOk result (λ i. is_ring_step i ≡ false) }
    ensures reads_nothing { IfOk result (λ i. read_by_item i ≡ 0) }
{
    let sync = sync_fields(here, before)?;
    Ok(Item::Sync {
        map: sync.map,
        ops: sync.ops,
    })
}

#[tactic(auto, unfolding(scenario_format::specs::Scripts::Items::read_sync_range_item))]
fn sync_range(here: &Node, before: &NamedOps) -> Result<Item, Stop>
    ensures value { Gives result (sync_range_item_at before.now (spot_of here.now)) }
    ensures valid { IfOk result (IsItem before.now) }
    ensures of_load { IfOk result (λ i. is_ring_step i ≡ false) }
    ensures reads_nothing { IfOk result (λ i. read_by_item i ≡ 0) }
{
    let sync = range_fields(here, before)?;
    Ok(Item::SyncRange {
        map: sync.map,
        off: sync.off,
        len: sync.len,
        ops: sync.ops,
    })
}

#[tactic(auto, unfolding(scenario_format::specs::Scripts::Items::read_dev_read))]
fn dev_read(here: &Node, before: &NamedOps, counts: &mut Counts) -> Result<Item, Stop>
    requires within { IsWithin counts.old }
    ensures value { Gives result (dev_read_at before.now counts.old (spot_of here.now)) }
    ensures valid { IfOk result (IsItem before.now) }
    ensures of_load { IfOk result (λ i. is_ring_step i ≡ false) }
    ensures counted { IfOk result (λ i. counts.new ≡ having_read counts.old (read_by_item i)) }
    ensures within { IfOk result (λ _. IsWithin counts.new) }
{
    here.only_keys(&["op", "map", "off", "len"])?;
    let map = used_name(here, NameUse::Map, "map", before)?;
    let off = here.number_field("off")?;
    let len = here.number_field("len")?;
    count_read(counts, here, len)?;
    Ok(Item::DevRead { map, off, len })
}

#[tactic(auto, unfolding(scenario_format::specs::Scripts::Items::read_dev_write))]
fn dev_write(here: &Node, before: &NamedOps) -> Result<Item, Stop>
    ensures value { Gives result (dev_write_at before.now (spot_of here.now)) }
    ensures valid { IfOk result (IsItem before.now) }
    ensures of_load { IfOk result (λ i. is_ring_step i ≡ false) }
    ensures reads_nothing { IfOk result (λ i. read_by_item i ≡ 0) }
{
    here.only_keys(&["op", "map", "off", "hex", "fill", "len"])?;
    let map = used_name(here, NameUse::Map, "map", before)?;
    let off = here.number_field("off")?;
    let bytes = written_bytes(here)?;
    judge_access(here, byte_count(&bytes))?;
    Ok(Item::DevWrite { map, off, bytes })
}

#[tactic(auto, unfolding(scenario_format::specs::Scripts::Items::read_raw_read))]
fn raw_read(here: &Node, before: &NamedOps, counts: &mut Counts) -> Result<Item, Stop>
    requires within { IsWithin counts.old }
    ensures value { Gives result (raw_read_at before.now counts.old (spot_of here.now)) }
    ensures valid { IfOk result (IsItem before.now) }
    ensures of_load { IfOk result (λ i. is_ring_step i ≡ false) }
    ensures counted { IfOk result (λ i. counts.new ≡ having_read counts.old (read_by_item i)) }
    ensures within { IfOk result (λ _. IsWithin counts.new) }
{
    here.only_keys(&["op", "tag", "addr", "len"])?;
    let tag = used_name(here, NameUse::IommuTag, "tag", before)?;
    let addr = here.number_field("addr")?;
    let len = here.number_field("len")?;
    count_read(counts, here, len)?;
    Ok(Item::DevReadAt { tag, addr, len })
}

#[tactic(auto, unfolding(scenario_format::specs::Scripts::Items::read_raw_write))]
fn raw_write(here: &Node, before: &NamedOps) -> Result<Item, Stop>
    ensures value { Gives result (raw_write_at before.now (spot_of here.now)) }
    ensures valid { IfOk result (IsItem before.now) }
    ensures of_load { IfOk result (λ i. is_ring_step i ≡ false) }
    ensures reads_nothing { IfOk result (λ i. read_by_item i ≡ 0) }
{
    here.only_keys(&["op", "tag", "addr", "hex", "fill", "len"])?;
    let tag = used_name(here, NameUse::IommuTag, "tag", before)?;
    let addr = here.number_field("addr")?;
    let bytes = written_bytes(here)?;
    judge_access(here, byte_count(&bytes))?;
    Ok(Item::DevWriteAt { tag, addr, bytes })
}

/// Reads the item of a word. Its own step was counted before.
fn item_by(
    word: ItemWord,
    here: &Node,
    before: &NamedOps,
    counts: &mut Counts,
) -> Result<Item, Stop>
    requires within { IsWithin counts.old }
    ensures value { Gives result (item_by word before.now counts.old (spot_of here.now)) }
    ensures valid { IfOk result (IsItem before.now) }
    ensures of_load { IfOk result (λ i. is_ring_step i ≡ false) }
    ensures counted { IfOk result (λ i. counts.new ≡ having_read counts.old (read_by_item i)) }
    ensures within { IfOk result (λ _. IsWithin counts.new) }
{
    match word {
        ItemWord::Sync => sync(here, before),
        ItemWord::SyncRange => sync_range(here, before),
        ItemWord::DevRead => dev_read(here, before, counts),
        ItemWord::DevWrite => dev_write(here, before),
        ItemWord::DevReadAt => raw_read(here, before, counts),
        ItemWord::DevWriteAt => raw_write(here, before),
        ItemWord::RingStep => Err(here.refuse_key(RefusalKind::BadOp, "op")),
    }
}

#[tactic(auto, unfolding(scenario_format::specs::Scripts::Items::read_item))]
fn item(here: &Node, before: &NamedOps, counts: &mut Counts) -> Result<Item, Stop>
    requires within { IsWithin counts.old }
    ensures value { Gives result (item_at before.now counts.old (spot_of here.now)) }
    ensures valid { IfOk result (IsItem before.now) }
    ensures of_load { IfOk result (λ i. is_ring_step i ≡ false) }
    ensures counted { IfOk result
        (λ i. counts.new ≡ having_read (one_step_counted counts.old) (read_by_item i)) }
    ensures within { IfOk result (λ _. IsWithin counts.new) }
{
    here.members()?;
    count_steps(counts, here, 1)?;
    let word = item_word(here)?;
    item_by(word, here, before, counts)
}

fn each_item<'v>(
    here: &'v Node<'v>,
    items: &'v [Value],
    before: &NamedOps,
    counts: &mut Counts,
) -> Result<Vec<Item>, Stop>
    requires within { IsWithin counts.old }
    ensures value { GivesSeen (λ v. v.items) result
        (each (λ done. item_at before.now (with_items counts.old done)) (spot_of here.now) []
        (map view items.now)) }
    ensures valid { IfOk result (λ v. AllByRecursion (IsItem before.now) v.items) }
    ensures of_load { IfOk result (λ v. AllByRecursion (λ i. is_ring_step i ≡ false) v.items) }
    ensures counted { IfOk result (λ v. counts.new ≡ with_items counts.old v.items) }
    ensures within { IfOk result (λ _. IsWithin counts.new) }
{
    let mut done = Vec::with_capacity(here.alloc, items.len())?;
    for value in items {
        let item = item(&here.item(done.len(), value), before, counts)?;
        done.push(item)?;
    }
    Ok(done)
}

#[tactic(auto, unfolding(scenario_format::specs::Scripts::Items::read_then))]
fn then(here: &Node, before: &NamedOps, counts: &mut Counts) -> Result<ItemList, Stop>
    requires within { IsWithin counts.old }
    ensures value { Gives result (then_at before.now counts.old (spot_of here.now)) }
    ensures valid { IfOk result (AllByRecursion (IsItem before.now)) }
    ensures of_load { IfOk result (AllByRecursion (λ i. is_ring_step i ≡ false)) }
    ensures counted { IfOk result (λ v. counts.new ≡ with_items counts.old v) }
    ensures within { IfOk result (λ _. IsWithin counts.new) }
{
    let items = here.items()?;
    Ok(ListOf::new(each_item(here, items, before, counts)?))
}

/// Reads the items of a load at the key `then`.
#[tactic(auto, unfolding(scenario_format::specs::Scripts::Items::then_field))]
pub(crate) fn then_field(
    here: &Node,
    before: &NamedOps,
    counts: &mut Counts,
) -> Result<ItemList, Stop>
    requires within { IsWithin counts.old }
    ensures value { Gives result (then_field before.now counts.old (spot_of here.now)) }
    ensures valid { IfOk result (AllByRecursion (IsItem before.now)) }
    ensures of_load { IfOk result (AllByRecursion (λ i. is_ring_step i ≡ false)) }
    ensures counted { IfOk result (λ v. counts.new ≡ with_items counts.old v) }
    ensures within { IfOk result (λ _. IsWithin counts.new) }
{
    match here.field("then") {
        Some(node) => then(&node, before, counts),
        None => Ok(ListOf::new(Vec::new(here.alloc))),
    }
}
