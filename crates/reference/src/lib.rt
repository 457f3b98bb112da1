#![tactic(auto)]

// Nothing to run: document 01's table and reference sheet, computed from the definitions.
