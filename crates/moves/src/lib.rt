// The published execution rules as a relation: a scan of the sheet is the move that they name, and activation off goes home. It has no code.
#![tactic(auto)]
