// Nothing runs here: what holds of every run of a session's calls is shown over their definitions (specs/, proofs/).

#![tactic(auto)]
