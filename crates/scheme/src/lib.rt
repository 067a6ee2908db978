// The observer of a formula: definitions and laws. No code; crate node_table has the nodes as code.
#![tactic(auto)]
