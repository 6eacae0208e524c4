// The rules of a safety automaton, apart from any reader: a sheet is accepted exactly when it keeps them.
#![tactic(auto)]
