// What is promised of the calls, §13.1 to §13.4: theory. The calls' own crates have the code.
#![tactic(auto)]
