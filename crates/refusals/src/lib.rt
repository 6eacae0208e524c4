// What each number means where it is answered, in the words of the table, and what a refusal leaves. It has no code.
#![tactic(auto)]
