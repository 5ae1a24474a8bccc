#![tactic(auto)]

// No code: the table by which a written script is read, token by token, and why what it reads is what the grammar writes.
