//! Writes in words what a step did.

ghost use Rattle.std.specs.Prelude.{◌≡◌, ◌++◌, codes, slice_get};
ghost use Rattle.std.specs.Option.{option_map};
ghost use Rattle.busdma_base.specs.Scenarios.Operations as operations;
ghost use Rattle.io_edge.specs.Pieces.{PiecesGive};
ghost use Rattle.program_rules.specs.Reports.Did as text;
ghost use Rattle.program_rules.specs.Reports.Text.{hex};

use crate::numbers::push_hex;
use busdma_base::{Did, Item, LaneId, MapId, Object, Op, Pa, Scenario};
use io_edge::{Pieces, Sink};

fn script_of(scenario: &Scenario, lane: LaneId) -> &[Op]
    ensures { result.now ≡ text.script_of scenario.now lane }
{
    match scenario.drivers.as_slice().get(lane.0 as usize) {
        Some(driver) => driver.script.as_slice(),
        None => &[],
    }
}

fn made_name(op: &Op) -> &str
    ensures { result.now ≡ text.made_name op.now }
{
    op.made_name().unwrap_or("")
}

fn name_at(script: &[Op], place: u32) -> &str
    ensures { result.now ≡ text.name_made_at script.now place }
{
    match script.get(place as usize) {
        Some(op) => made_name(op),
        None => "",
    }
}

fn map_name(scenario: &Scenario, map: MapId) -> &str
    ensures { result.now ≡ text.map_name scenario.now map }
{
    name_at(script_of(scenario, map.lane), map.made_at)
}

fn object_name<'s>(script: &'s [Op], object: Object<'s>) -> &'s str
    ensures { result.now ≡ text.object_name script.now (operations.object object.entry) }
{
    match object {
        Object::Makes(made) => made.name,
        Object::Uses(used) => name_at(script, used.made_at),
    }
}

fn push_object<K: Sink>(out: &mut Pieces<'_, K>, script: &[Op], object: Object<'_>)
    ensures { PiecesGive K.held K.faults out.old
        (codes " " ++ text.object_name script.now (operations.object object.entry)) out.new }
{
    out.push_str(" ");
    out.push_str(object_name(script, object));
}

fn push_op<K: Sink>(out: &mut Pieces<'_, K>, script: &[Op], op: &Op)
    ensures { PiecesGive K.held K.faults out.old (text.op_text script.now op.now) out.new }
{
    out.push_str(op.word().text());
    if let Some(object) = op.object() {
        push_object(out, script, object);
    }
}

fn item_at(script: &[Op], load_at: u32, place: u32) -> Option<&Item>
    ensures { option_map (λ item. item.now) result ≡ text.item_of_load script.now load_at place }
{
    let op = script.get(load_at as usize)?;
    op.items().get(place as usize)
}

fn push_item<K: Sink>(out: &mut Pieces<'_, K>, script: &[Op], item: &Item)
    ensures { PiecesGive K.held K.faults out.old (text.item_text script.now item.now) out.new }
{
    let about = item.about();
    out.push_str(about.word.text());
    out.push_str(" ");
    out.push_str(name_at(script, about.uses.made_at));
}

fn op_at(script: &[Op], place: u32) -> Option<&Op>
    ensures { option_map (λ op. op.now) result ≡ slice_get script.now place }
{
    script.get(place as usize)
}

fn push_op_at<K: Sink>(out: &mut Pieces<'_, K>, script: &[Op], place: u32)
    ensures { PiecesGive K.held K.faults out.old (text.op_text_at script.now place) out.new }
{
    match op_at(script, place) {
        Some(op) => push_op(out, script, op),
        None => {}
    }
}

fn push_again<K: Sink>(out: &mut Pieces<'_, K>, script: &[Op], op: &Op)
    ensures { PiecesGive K.held K.faults out.old (text.again_text script.now op.now) out.new }
{
    out.push_str("resend");
    if let Some(object) = op.object() {
        push_object(out, script, object);
    }
}

fn push_again_at<K: Sink>(out: &mut Pieces<'_, K>, script: &[Op], place: u32)
    ensures { PiecesGive K.held K.faults out.old (text.again_text_at script.now place) out.new }
{
    match op_at(script, place) {
        Some(op) => push_again(out, script, op),
        None => {}
    }
}

fn push_item_at<K: Sink>(out: &mut Pieces<'_, K>, script: &[Op], load_at: u32, place: u32)
    ensures { PiecesGive K.held K.faults out.old (text.item_text_at script.now load_at place) out.new }
{
    match item_at(script, load_at, place) {
        Some(item) => push_item(out, script, item),
        None => {}
    }
}

fn push_release<K: Sink>(out: &mut Pieces<'_, K>, scenario: &Scenario, map: MapId, page: Pa)
    ensures { PiecesGive K.held K.faults out.old
        (codes "release " ++ (text.map_name scenario.now map ++ (codes " " ++ hex page.0))) out.new }
{
    out.push_str("release ");
    out.push_str(map_name(scenario, map));
    out.push_str(" ");
    push_hex(out, page.0);
}

fn push_callback<K: Sink>(out: &mut Pieces<'_, K>, scenario: &Scenario, map: MapId)
    ensures { PiecesGive K.held K.faults out.old
        (codes "callback " ++ text.map_name scenario.now map) out.new }
{
    out.push_str("callback ");
    out.push_str(map_name(scenario, map));
}

pub(crate) fn push_did<K: Sink>(
    out: &mut Pieces<'_, K>,
    scenario: &Scenario,
    lane: LaneId,
    did: Did,
)
    ensures { PiecesGive K.held K.faults out.old (text.did_text scenario.now lane did) out.new }
{
    let script = script_of(scenario, lane);
    match did {
        Did::Op(place) => push_op_at(out, script, place),
        Did::Again(place) => push_again_at(out, script, place),
        Did::Release { map, page } => push_release(out, scenario, map, page),
        Did::Callback { map } => push_callback(out, scenario, map),
        Did::Item { load_at, place } => push_item_at(out, script, load_at, place),
    }
}
