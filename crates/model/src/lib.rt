#![tactic(auto)]

// Definitions and theorems only: the board, the abstract model (document 01's book) and demand 3.
