// The grammar of rule texts: definitions and laws. No code; crate parser has the parse functions.
#![tactic(auto)]
