// That a feed in buffers gives the text of its history, over every feed: statements in specs/, proved in proofs/. There is no code here.
#![tactic(auto)]
