#![tactic(auto)]

// Laws about the definitions of `model`, in specs/. No code.
