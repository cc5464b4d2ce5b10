// The lines of a text: definitions only. A text is a list of bytes, and the byte 0x0A ends a line.
#![tactic(auto)]
