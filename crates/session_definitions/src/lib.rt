//! What sessions are: worlds, the steps and runs of calls, scripts. Definitions alone, in `specs/`:
//! nothing of it runs.
#![tactic(auto)]
