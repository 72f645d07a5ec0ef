//! Reads the order of the actors' steps.

ghost use Rattle.std.specs.Prelude.{◌≡◌, ◌≤◌, ◌<◌, ◌^◌, [], map, length, IfOk, IfSome};
ghost use Rattle.std.specs.List.{AllByRecursion};
ghost use Rattle.serde_json.specs.View.{view};
ghost use Rattle.json_fields.specs.Read.{Gives, GivesSeen};
ghost use Rattle.json_fields.specs.Field.{spot_of};
ghost use Rattle.scenario_format.specs.Json.Items.{each};
ghost use Rattle.scenario_format.specs.Scenarios.Order as order;
ghost use Rattle.busdma_base.specs.Scenarios.Limits.{order_limit};

use crate::limits::ORDER;
use busdma_base::{Actor, ActorList, LaneId, ListOf, Side};
use json_fields::{Node, Stop};
use scenario_format::{LimitName, RefusalKind};
use serde_json::Value;

fn side_of(letter: u8) -> Option<Side>
    ensures { result ≡ order.side_of letter }
{
    match letter {
        b's' => Some(Side::Script),
        b'd' => Some(Side::Transfer),
        b'c' => Some(Side::Callback),
        _ => None,
    }
}

fn digit(b: u8) -> Option<u8>
    ensures value { result ≡ order.digit b }
    ensures below { IfSome result (λ d. d < 10) }
{
    match b {
        b'0'..=b'9' => Some(b - b'0'),
        _ => None,
    }
}

fn digits(bytes: &[u8]) -> Option<u32>
    requires { length bytes.now ≤ 9 }
    ensures { result ≡ order.number_after 0 bytes.now }
{
    let mut number = 0;
    for b in bytes {
        number = 10 * number + u32::from(digit(*b)?);
    }
    Some(number)
}

fn decimal_number(bytes: &[u8]) -> Option<u32>
    ensures { result ≡ order.decimal_number bytes.now }
{
    if bytes.is_empty() || bytes.len() > 9 || (bytes.len() > 1 && bytes[0] == b'0') {
        return None;
    }
    digits(bytes)
}

/// Returns the driver with this number, or `None` if there are not so many drivers.
fn lane_of(drivers: u32, bytes: &[u8]) -> Option<u32>
    ensures { result ≡ order.lane_in_text drivers bytes.now }
{
    let lane = decimal_number(bytes)?;
    if lane < drivers { Some(lane) } else { None }
}

/// Returns the actor that is named by a side and the number of a driver.
fn actor_of(drivers: u32, text: &[u8]) -> Option<Actor>
    ensures value { result ≡ order.actor_of drivers text.now }
    ensures there { IfSome result (λ a. a.lane.0 < drivers) }
{
    let [letter, number @ ..] = text else {
        return None;
    };
    let side = side_of(*letter)?;
    let lane = LaneId(lane_of(drivers, number)?);
    Some(Actor { lane, side })
}

#[tactic(auto, unfolding(scenario_format::specs::Scenarios::Order::read_actor))]
fn actor(here: &Node, drivers: u32) -> Result<Actor, Stop>
    ensures value { Gives result (order.read_actor drivers (spot_of here.now)) }
    ensures there { IfOk result (λ a. a.lane.0 < drivers) }
{
    match actor_of(drivers, here.text()?.as_bytes()) {
        Some(actor) => Ok(actor),
        None => Err(here.refuse(RefusalKind::BadField)),
    }
}

fn actors<'v>(here: &'v Node<'v>, items: &'v [Value], drivers: u32) -> Result<Vec<Actor>, Stop>
    ensures value { GivesSeen (λ v. v.items) result
        (each (λ _. order.read_actor drivers) (spot_of here.now) [] (map view items.now)) }
    ensures count { IfOk result (λ v. length v.items ≡ length items.now) }
    ensures there { IfOk result (λ v. AllByRecursion (λ a. a.lane.0 < drivers) v.items) }
{
    let mut actors = Vec::new(here.alloc);
    for value in items {
        let actor = actor(&here.item(actors.len(), value), drivers)?;
        actors.push(actor)?;
    }
    Ok(actors)
}

#[tactic(auto, unfolding(scenario_format::specs::Scenarios::Order::read_order))]
fn order(here: &Node, drivers: u32) -> Result<ActorList, Stop>
    ensures value { Gives result (order.read_order drivers (spot_of here.now)) }
    ensures count { IfOk result (λ v. length v ≤ order_limit) }
    ensures there { IfOk result (AllByRecursion (λ a. a.lane.0 < drivers)) }
{
    let items = here.items()?;
    if items.len() > ORDER {
        return Err(here.refuse(RefusalKind::Limit(LimitName::Order)));
    }
    Ok(ListOf::new(actors(here, items, drivers)?))
}

/// Reads the order of a scenario with `drivers` drivers.
#[tactic(auto, unfolding(scenario_format::specs::Scenarios::Order::order_field))]
pub(crate) fn order_field(here: &Node, drivers: u32) -> Result<ActorList, Stop>
    ensures value { Gives result (order.order_field drivers (spot_of here.now)) }
    ensures count { IfOk result (λ v. length v ≤ order_limit) }
    ensures there { IfOk result (AllByRecursion (λ a. a.lane.0 < drivers)) }
{
    match here.field("order") {
        Some(node) => order(&node, drivers),
        None => Ok(ListOf::new(Vec::new(here.alloc))),
    }
}
