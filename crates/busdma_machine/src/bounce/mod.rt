//! What all drivers share: bounce zones and their pages, the calls under the bounce lock, and the
//! laws of the account of both.

mod account_laws;
mod door;
mod hold;
mod opening;
mod zone;
mod zone_laws;

pub use account_laws::{
    account_is_well_formed, callbacks_keep_their_order, condition_stays, counts_add_up,
    each_frame_in_one_place, first_come_is_first_served, free_frames_rise, growth_serves_nobody,
    no_frame_is_lost, no_page_is_lent_twice, release_serves_in_order, twelve_calls,
};
pub use door::{Called, Grabbed, HubDoor};
pub use hold::{HoldEntry, HubCall, HubReply};
pub use opening::Opening;
pub use zone::{Grown, Waiter, ZoneCounts};
pub use zone_laws::{
    frames_lie_below_maxmem, pages_lie_low, two_loads_wait_for_ever, waiting_map_stays,
    waiting_zone_lacks_pages, zone_serves_its_tag, zones_stay,
};
