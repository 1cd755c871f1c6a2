#![tactic(auto)]

// Rows over two elements: sums, systems of equations, and their reduction by sums of rows. Definitions and lemmas only.
