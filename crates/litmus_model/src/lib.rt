#![tactic(auto)]

// Litmus texts: what a reader must believe about them (specs/), and the theorems. Its code stands in the crates above.
