// No code: the names of the two fields and of their attributes are definitions, in specs/Names.antt. Code writes a name out
// where it compares or writes it, and its contract holds it to the definition.
#![tactic(auto)]
