//! Reads JSON values field by field. The first refusal ends the reading.
#![tactic(auto)]

mod node;
mod path;
mod stop;
mod text;

pub use node::Node;
pub use path::Path;
pub use stop::Stop;
