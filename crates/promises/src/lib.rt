// What all operations promise, in one place: definitions and theorems. No code.
#![tactic(auto)]
