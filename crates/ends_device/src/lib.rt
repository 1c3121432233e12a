// Laws of one call of a device's end: what it is to the connection, and what it uses and writes. There is no code.

#![tactic(auto)]
