//! What the text of a call is read as. All of it is definitions, in `specs/`: nothing here runs.
#![tactic(auto)]
