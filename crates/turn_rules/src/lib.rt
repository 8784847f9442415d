//! What the ends of a run do, as definitions: whose turn it is, what an end's own turns say that it
//! holds, what it may answer, and what holds of whole traces. Nothing here runs.
#![tactic(auto)]
