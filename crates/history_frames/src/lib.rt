// Laws of one call: the frames that it writes, and what becomes of the packet that it uses. There is no code.

#![tactic(auto)]
