// Packing an equation table: what the packed table is (SPEC 16.2 to SPEC 16.4) and what the operation of SPEC 8.8 owes.
// The operation stands in the crate `packer`.
// No code.
#![tactic(auto)]
