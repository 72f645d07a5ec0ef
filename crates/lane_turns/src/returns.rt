//! Pages on their way back to their zones.

ghost use Rattle.std.specs.Prelude.{◌≡◌, ◌≤◌, true, false, Some, [], length, IfNone, IfSome};
ghost use Rattle.std.specs.FinMap.{get, insert};
ghost use Rattle.busdma_base.specs.declared.journals.answer.Answer.TheVariants as answer;
ghost use Rattle.busdma_base.specs.declared.journals.journal.Did.TheVariants as did;
ghost use Rattle.busdma_base.specs.declared.journals.journal.Side.TheVariants as side;
ghost use Rattle.dma_map.specs.MapView.{idle};
ghost use Rattle.ideal_lane.specs.Turns.{lane_step, stepped};
ghost use Rattle.lane_state.specs.Covered.{is_covered_returning};
ghost use Rattle.lane_state.specs.Doing.{IsAllowedBy, IsDone};
ghost use Rattle.lane_state.specs.Changes.{KeepsBytes, KeepsPromises};
ghost use Rattle.lane_state.specs.Ideal.{given, ideal_of};

use busdma_base::{HubDoor, MapId, Pa};
use lane_state::{Holdings, KeptMap};
use lane_tables::{PlaceTable, Returned};

/// A page that went back to its zone, and how many waiting maps it completed.
#[derive(Clone, Copy, Debug, PartialEq, Eq)]
pub(crate) struct Released {
    pub(crate) map: MapId,
    pub(crate) page: Pa,
    pub(crate) served: u32,
}

/// Gives the first page of the return queue back to its zone. Returns `None` if the queue is empty.
pub(crate) fn release<D: HubDoor>(holdings: &mut Holdings<'_>, door: &mut D) -> Option<Released>
    requires { IsAllowedBy (D.seen door.old) holdings.old.id.0 (lane_step (ideal_of holdings.old) side.Script) }
    ensures done { IfSome result (λ r.
        IsDone (D.seen door.old) holdings.old.id.0 (lane_step (ideal_of holdings.old) side.Script)
        (stepped side.Script (did.Release r.map r.page) (given holdings.new (answer.Served r.served)))
        (D.seen door.new)) }
    ensures bytes { KeepsBytes holdings.old holdings.new }
    ensures script { holdings.new.script ≡ holdings.old.script }
    ensures memories { holdings.new.memories ≡ holdings.old.memories }
    ensures promised { holdings.new.agenda.promised ≤ holdings.old.agenda.promised }
    ensures due { KeepsPromises holdings.old holdings.new }
    ensures queue { holdings.new.agenda.queue ≡ holdings.old.agenda.queue }
    ensures place { holdings.new.agenda.place ≡ holdings.old.agenda.place }
    ensures resend { holdings.new.due ≡ holdings.old.due }
    ensures length { holdings.new.agenda.length ≡ holdings.old.agenda.length }
    ensures room { holdings.new.agenda.room ≡ holdings.old.agenda.room }
    ensures some { IfSome result (λ r. 1 ≤ length holdings.old.agenda.returns) }
    ensures empty { IfNone result (holdings.old.agenda.returns ≡ []) }
    ensures same { IfNone result (holdings.new ≡ holdings.old) }
    ensures unseen { IfNone result (D.seen door.new ≡ D.seen door.old) }
    ensures fixed { D.fixed door.new ≡ D.fixed door.old }
{
    let Returned {
        map,
        zone,
        page,
        last,
    } = holdings.agenda.pop_return()?;
    note_returned(&mut holdings.maps, map.made_at, last);
    let at = page.address();
    let served = door.release(map, zone, page);
    Some(Released {
        map,
        page: at,
        served,
    })
}

/// Notes that a page of a map left the return queue. If it was the map's last page there, the map becomes idle.
fn note_returned(maps: &mut PlaceTable<KeptMap<'_>>, map: u32, last: bool)
    requires { is_covered_returning (get maps.old.map map) ≡ true }
    ensures last { last ≡ true → (o : _) → get maps.old.map map ≡ Some o →
        maps.new ≡ record maps.old {
          map = insert maps.old.map map (record o { map = record o.map { stage = idle } });
        } }
    ensures more { last ≡ false → maps.new ≡ maps.old }
{
    if last && let Some(kept) = maps.get_mut(map) {
        kept.map.returned();
    }
}
