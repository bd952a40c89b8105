// Facts on lists, digits, bits, bytes and searches, each said once: definitions and laws alone.
#![tactic(auto)]
