#![tactic(auto)]

// No code: general facts about lists and numbers that the kit lacks. They stand in specs/.
