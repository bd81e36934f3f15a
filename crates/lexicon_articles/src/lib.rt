// Ticket K11: what two texts with one record have in common, as theorems about the promises of `read`, `write_record` and `names`. No code.
#![tactic(auto)]
