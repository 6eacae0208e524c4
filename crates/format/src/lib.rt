// The format of a sheet: to bytes and back, each the other's inverse. The reader's code is in `reader`; there is no code here yet.
#![tactic(auto)]
