//! What holds of every world of the program.

ghost use Rattle.ideal_world.specs.Wires.{AllFaithful};
ghost use Rattle.world_core.specs.Ideal.{ideal_world};
ghost use Rattle.world_core.specs.Wires.{wires_of};

use crate::world::World;

/// The bytes that the frames and bounce pages of each driver of a world really hold are faithful to the driver's ideal
/// memory.
pub fn wires_are_faithful(world: &World)
    ensures { AllFaithful (wires_of world.now) (ideal_world world.now) }
{}
