// What a sequential schedule over words is (§6.1), and what follows from being one. Theory only.
#![tactic(auto)]
