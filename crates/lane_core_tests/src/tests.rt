//! Lanes of small scenarios, and what is said of their answers.

mod answers;
mod beside;
mod between;
mod calling;
mod calls;
mod opened;
mod played;
mod wanted;
