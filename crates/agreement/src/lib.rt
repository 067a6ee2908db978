// The agreement of observers (crate scheme) with the interval meaning: definitions and theorems. No code.
#![tactic(auto)]
