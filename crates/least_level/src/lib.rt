// Which level gives a coefficient, and the one of least size: definitions and their laws, whatever the scaling. No code: `level_search` finds it.
#![tactic(auto)]
