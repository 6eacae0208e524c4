// The code does what the sheet says: the translation passes its check, one scan of it is one scan of the sheet, and so after any scans. It has no code.
#![tactic(auto)]
