//! What a driver holds at work.

ghost use Rattle.std.specs.Prelude.{◌≡◌, ◌≤◌, ℕ, true, false};
ghost use Rattle.std.specs.FinMap.{get};
ghost use Rattle.busdma_base.specs.declared.journals.answer.Answer.TheVariants as answer;
ghost use Rattle.memory_pages.specs.Placed.{AreAtTheirFrames};
ghost use Rattle.lane_state.specs.Awaiting.{AreAwaiting, AreOfMaps};
ghost use Rattle.lane_state.specs.Covered.{AreCoveredLoads, AreOwn, AreReturning, AreStanding, HasFramesOf, IsCovered};
ghost use Rattle.lane_state.specs.Covered.{Reaches, is_tried, lends_pages, pages_due};
ghost use Rattle.lane_state.specs.OneAwaiting.{AreAwaiting-prop};

use crate::kept::{KeptMap, KeptMemory, KeptRing, KeptShare, KeptTag};
use crate::script::Script;
use busdma_base::{Answer, LaneId, MapId, PageRun, Report, ReportName};
use lane_tables::{Agenda, PlaceTable};
use loan_table::LoanTable;
use phys_memory::LanePages;

/// What one driver holds. Fixed are its script, its own pages, its number, and the end of the machine's memory in
/// frames (`maxmem`). Its steps change the rest.
///
/// `tags`, `maps`, `memories` and `rings` are kept by the place in the script that made them, and the map of a dmamem
/// memory has the memory's place. `loans` says which bytes are Known and what the maps lend. `agenda` has the place of
/// the next operation and the queues. `due` says whether the resend of the send at this place is due. `shares` counts,
/// for each zone, the driver's syncs that copied.
#[derive(Drop)]
pub struct Holdings<'s> {
    pub script: Script<'s>,
    pub pages: &'s [PageRun],
    pub id: LaneId,
    pub maxmem: u64,
    pub memory: LanePages,
    pub tags: PlaceTable<KeptTag>,
    pub maps: PlaceTable<KeptMap<'s>>,
    pub memories: PlaceTable<KeptMemory>,
    pub rings: PlaceTable<KeptRing>,
    pub loans: LoanTable,
    pub agenda: Agenda,
    pub due: bool,
    pub shares: Vec<KeptShare>,
    ghost covered: { IsCovered memory.memory loans.bytes },
    ghost reaches: { Reaches pages.now memories.map memory.memory },
    ghost framed: { HasFramesOf pages.now memory.memory },
    ghost placed: { AreAtTheirFrames memory.memory },
    ghost standing: { AreStanding memories.map memory.memory },
    ghost tag_places: { agenda.length ≤ tags.places },
    ghost map_places: { agenda.length ≤ maps.places },
    ghost memory_places: { agenda.length ≤ memories.places },
    ghost ring_places: { agenda.length ≤ rings.places },
    ghost loaded: { AreCoveredLoads maps.map loans.loans },
    ghost unlent: { (k : ℕ) → lends_pages (get maps.map k) ≡ false },
    ghost promised: { pages_due maps.map ≤ agenda.promised },
    ghost own_returns: { AreOwn id.0 agenda.returns },
    ghost returning: { AreReturning maps.map agenda.returns },
    ghost tried: { (k : ℕ) → is_tried (get maps.map k) ≡ true },
    ghost awaiting: { AreAwaiting pages.now maxmem tags.map maps.map loans.prepared } by { AreAwaiting-prop pages.now maxmem tags.map maps.map loans.prepared },
    ghost ready: { AreOfMaps pages.now memories.map loans.prepared },
}

impl Holdings<'_> {
    /// Returns the account's name for the map or the memory that was made at a place of the script.
    pub fn map_id(&self, made_at: u32) -> MapId
        ensures { result ≡ record { lane = self.now.id; made_at = made_at } }
    {
        MapId {
            lane: self.id,
            made_at,
        }
    }
}

/// The answer of an operation, and whether it made a call under the bounce lock.
#[derive(Drop)]
pub struct Answered {
    pub answer: Answer,
    pub held: bool,
}

/// Returns the answer of a step that makes no call under the bounce lock.
pub fn unheld(answer: Answer) -> Answered
    ensures { result ≡ record { answer = answer; held = false } }
{
    Answered {
        answer,
        held: false,
    }
}

/// Returns the answer of a step that is refused with this report, at byte `at`.
pub fn report(name: ReportName, at: u64) -> Answer
    ensures { result ≡ answer.Report (record { name = name; at = at }) }
{
    Answer::Report(Report { name, at })
}
