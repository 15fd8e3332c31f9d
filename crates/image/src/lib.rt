// A station saved as an image of nine blocks, and restored.
#![tactic(auto)]

pub mod restoring;
pub mod saving;
