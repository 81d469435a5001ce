// What two keys differ in: definitions and theorems, and no code.
#![tactic(auto)]
