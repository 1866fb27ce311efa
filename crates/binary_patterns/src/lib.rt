// Patterns of the binary formats, laid out as in IEEE 754, over the widths of their fields: no function stands here, only what binary32 and
// binary64 share.
#![tactic(auto)]
